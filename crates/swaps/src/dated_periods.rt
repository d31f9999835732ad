// A dated swap's periods: how many, when each ends, and what fraction of a year it is by its own dates.
ghost use Rattle.std.specs.Prelude.{◌≡◌, true, ◌+◌, ◌≤◌, length};
ghost use Rattle.dates.specs.Periods.{is_span, period_count};
ghost use Rattle.swaps.specs.DatedSwap.{span_of};
ghost use Rattle.swaps.specs.Periods.{of_dates};
ghost use Rattle.swaps.specs.inner.Runs.{by_thirties, FractionsOf, Listed};

use crate::DatedSwap;
use crate::day_counts::{DayCount, day_count_fraction};
use dates::counts::actual_days;
use dates::periods::Span;
use dates::runs::put_days;

// The swap's dates, and the months of its periods.
#[tactic(auto, unfolding(crate::specs::DatedSwap::span_of))]
pub(crate) fn span_of(swap: DatedSwap) -> Span
    requires { 1 ≤ swap.frequency }
    ensures { result ≡ span_of swap }
{
    Span {
        first: swap.first,
        second: swap.second,
        step: 12 / swap.frequency,
    }
}

pub(crate) fn period_count(swap: DatedSwap) -> u32
    requires { is_span (span_of swap) ≡ true }
    ensures { result ≡ (of_dates swap).count }
{
    dates::periods::period_count(span_of(swap))
}

// When the last period ends.
#[tactic(auto, using(crate::proofs::DatedSpans::first_is_date, crate::proofs::DatedSpans::second_is_date), unfolding(crate::specs::DayCounts::time_to, crate::specs::Periods::of_dates))]
pub(crate) fn end(swap: DatedSwap) -> f64
    requires { is_span (span_of swap) ≡ true }
    ensures { result ≡ (of_dates swap).end }
{
    day_count_fraction(DayCount::Actual365, actual_days(swap.first, swap.second))
}

// Whether the days of a period are the 30/360 count's.
fn by_thirties(day_count: DayCount) -> bool
    ensures { result ≡ by_thirties day_count }
{
    match day_count {
        DayCount::Actual360 => false,
        DayCount::Actual365 => false,
        DayCount::Thirty360 => true,
    }
}

// Days as fractions of a year, as many as the list has places.
fn put_fractions(day_count: DayCount, days: &[u32], fractions: &mut [f64])
    requires { length fractions.old ≤ length days.now }
    ensures { FractionsOf day_count days.now (length fractions.new) fractions.new }
{
    for (j, fraction) in fractions.iter_mut().enumerate() {
        *fraction = day_count_fraction(day_count, days[j]);
    }
}

// The times and fractions of at most 64 periods after the first ones, as many as the lists have places.
pub(crate) fn put_dated(swap: DatedSwap, first: u32, times: &mut [f64], fractions: &mut [f64])
    requires { (is_span (span_of swap) ≡ true) × (first + length times.old ≤ period_count (span_of swap)) × (length times.old ≤ 64) × (length times.old ≡ length fractions.old) }
    ensures { Listed (of_dates swap) first (length times.new) times.new fractions.new }
{
    let day_count = swap.day_count;
    let places = times.len();
    let mut elapsed = [0; 64];
    let mut counted = [0; 64];
    put_days(
        span_of(swap),
        first,
        by_thirties(day_count),
        &mut elapsed[..places],
        &mut counted[..places],
    );
    put_fractions(DayCount::Actual365, &elapsed, times);
    put_fractions(day_count, &counted, fractions);
}
