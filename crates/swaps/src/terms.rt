// What is paid and when, of a swap of either kind.
ghost use Rattle.std.specs.Prelude.{◌≡◌};
ghost use Rattle.swaps.specs.Periods.{terms_of};
ghost use Rattle.swaps.specs.inner.Runs.{HasPeriods};

use crate::{AnySwap, dated_periods, periods};

pub(crate) fn notional(swap: AnySwap) -> f64
    ensures { result ≡ (terms_of swap).notional }
{
    match swap {
        AnySwap::Undated(undated) => undated.notional,
        AnySwap::Dated(dated) => dated.notional,
    }
}

pub(crate) fn fixed_rate(swap: AnySwap) -> f64
    ensures { result ≡ (terms_of swap).rate }
{
    match swap {
        AnySwap::Undated(undated) => undated.fixed_rate,
        AnySwap::Dated(dated) => dated.fixed_rate,
    }
}

// How many payments a year, as a float.
pub(crate) fn per_year(swap: AnySwap) -> f64
    ensures { result ≡ (terms_of swap).per_year }
{
    match swap {
        AnySwap::Undated(undated) => periods::per_year(undated),
        AnySwap::Dated(dated) => dated.frequency as f64,
    }
}

// How many periods.
pub(crate) fn period_count(swap: AnySwap) -> u32
    requires { HasPeriods swap }
    ensures { result ≡ (terms_of swap).periods.count }
{
    match swap {
        AnySwap::Undated(undated) => periods::payments(undated),
        AnySwap::Dated(dated) => dated_periods::period_count(dated),
    }
}

// When the last of them ends.
pub(crate) fn end(swap: AnySwap) -> f64
    requires { HasPeriods swap }
    ensures { result ≡ (terms_of swap).periods.end }
{
    match swap {
        AnySwap::Undated(undated) => undated.tenor,
        AnySwap::Dated(dated) => dated_periods::end(dated),
    }
}
