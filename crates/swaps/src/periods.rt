// An undated swap's payments: how many, how far apart, and what fraction of a year lies between.
ghost use Rattle.std.specs.Prelude.{◌≡◌};
ghost use Rattle.swaps.specs.Swap.{per_year, payments, period, fraction};

use crate::Swap;
use numbers::whole::nearest_whole;

// How many payments a year, as a float.
pub(crate) fn per_year(swap: Swap) -> f64
    ensures { result ≡ per_year swap }
{
    swap.frequency as f64
}

// The number of payments, to the nearest whole number, halves away from zero.
pub(crate) fn payments(swap: Swap) -> u32
    ensures { result ≡ payments swap }
{
    nearest_whole(swap.tenor * per_year(swap))
}

// The time from payment to payment.
pub(crate) fn period(swap: Swap) -> f64
    ensures { result ≡ period swap }
{
    1.0 / per_year(swap)
}

// The days of a period, to the nearest whole number, as a fraction of a year.
pub(crate) fn fraction(swap: Swap) -> f64
    ensures { result ≡ fraction swap }
{
    let day_count = swap.day_count;
    crate::day_counts::day_count_fraction(day_count, nearest_whole(365.0 * period(swap)))
}
