// Periods of so many months between two dates: how many there are.
ghost use Rattle.std.specs.Prelude.{◌≡◌, true, ◌-◌};
ghost use Rattle.dates.specs.Months.{month_index};
ghost use Rattle.dates.specs.Periods.{is_span, period_count};

use crate::Date;
use crate::calendar::is_after;
use crate::counts::bad_dates;
use crate::months::{day_in_month, month_index};

// Two dates, and the months of a period.
#[derive(Clone, Copy)]
pub struct Span {
    pub first: Date,
    pub second: Date,
    pub step: u32,
}

// Whether the dates are two in order, and a period is of 1 to 12 months.
#[tactic(auto, unfolding(crate::specs::Periods::is_span, refusals::specs::Table::bad_dates, refusals::specs::Table::no_such_date))]
pub(crate) fn is_span(span: Span) -> bool
    ensures { result ≡ is_span span }
{
    !bad_dates(span.first, span.second) && (1..=12).contains(&span.step)
}

// The index of December 2199.
const LAST_MONTH: u64 = 26399;

// The months from the month of one date to that of another, 0 where it is not later.
fn months_between(first: Date, second: Date) -> u32
    ensures { result ≡ month_index second - month_index first }
{
    month_index(second).saturating_sub(month_index(first))
}

// How many periods: as many as are over before the second date, and the one that ends there.
#[tactic(auto, using(crate::proofs::Bounds::is_whole, crate::proofs::Bounds::one_more, crate::proofs::Bounds::no_more, crate::proofs::Bounds::whole_within))]
pub fn period_count(span: Span) -> u32
    ensures { is_span span ≡ true → result ≡ period_count span }
{
    if span.step == 0 {
        return 0;
    }
    let whole = months_between(span.first, span.second) / span.step;
    let index = u64::from(month_index(span.first)) + u64::from(whole) * u64::from(span.step);
    if index > LAST_MONTH {
        return whole;
    }
    let reached = day_in_month(index as u32, span.first.day);
    if is_after(reached, span.second) {
        whole + 1
    } else {
        whole
    }
}
