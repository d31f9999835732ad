// A run of periods of a swap of either kind: when each ends, and what fraction of a year it is.
ghost use Rattle.std.specs.Prelude.{◌≡◌, ◌+◌, ◌<◌, ◌≤◌, length};
ghost use Rattle.swaps.specs.Periods.{of_swap, terms_of};
ghost use Rattle.swaps.specs.inner.Runs.{HasPeriods, Listed};

use crate::dated_periods::put_dated;
use crate::periods::{fraction, period};
use crate::{AnySwap, Swap};

// The times and fractions of an undated swap's periods after the first ones, as many as the lists have places.
fn put_undated(swap: Swap, first: u32, times: &mut [f64], fractions: &mut [f64])
    requires { (first + length times.old < 4294967296) × (length times.old ≡ length fractions.old) }
    ensures { Listed (of_swap swap) first (length times.new) times.new fractions.new }
{
    let dt = period(swap);
    for (j, time) in times.iter_mut().enumerate() {
        *time = (first + j as u32 + 1) as f64 * dt;
    }
    fractions.fill(fraction(swap));
}

// Those of a swap of either kind.
pub(crate) fn put_periods(swap: AnySwap, first: u32, times: &mut [f64], fractions: &mut [f64])
    requires { HasPeriods swap × (first + length times.old ≤ (terms_of swap).periods.count) × ((terms_of swap).periods.count < 4294967296) × (length times.old ≤ 64) × (length times.old ≡ length fractions.old) }
    ensures { Listed (terms_of swap).periods first (length times.new) times.new fractions.new }
{
    match swap {
        AnySwap::Undated(undated) => put_undated(undated, first, times, fractions),
        AnySwap::Dated(dated) => put_dated(dated, first, times, fractions),
    }
}
