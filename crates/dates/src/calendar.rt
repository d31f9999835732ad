// The calendar: leap years, the days of a month, which dates there are, and which of two comes later.
ghost use Rattle.std.specs.Prelude.{◌≡◌};
ghost use Rattle.refusals.specs.Outcome.{judged};
ghost use Rattle.refusals.specs.Answers.{outcome};
ghost use Rattle.dates.specs.Answers.{date_lines};
ghost use Rattle.dates.specs.Calendar.{leap, days_in, is_date, is_after};

use crate::Date;
use refusals::{Cause, Refusal, refuse};

#[tactic(auto, unfolding(crate::specs::Calendar::leap))]
pub(crate) fn is_leap(year: u32) -> bool
    ensures { result ≡ leap year }
{
    year % 4 == 0 && (year % 100 != 0 || year % 400 == 0)
}

// The days of a month; 31 of one that is none.
#[tactic(auto, unfolding(crate::specs::Calendar::days_in))]
pub(crate) fn days_in(year: u32, month: u32) -> u32
    ensures { result ≡ days_in year month }
{
    match month {
        2 if is_leap(year) => 29,
        2 => 28,
        4 | 6 | 9 | 11 => 30,
        _ => 31,
    }
}

#[tactic(auto, unfolding(crate::specs::Calendar::is_date))]
pub fn is_date(date: Date) -> bool
    ensures { result ≡ is_date date }
{
    let days = days_in(u32::from(date.year), u32::from(date.month));
    (1900..=2199).contains(&date.year)
        && (1..=12).contains(&date.month)
        && (1..=days).contains(&u32::from(date.day))
}

// Line 15 of one date.
#[tactic(auto, unfolding(refusals::specs::Outcome::judged, refusals::specs::Outcome::first_or, refusals::specs::Table::no_such_date))]
pub(crate) fn judge_date(date: Date) -> Result<(), Refusal>
    ensures { outcome result ≡ judged (date_lines date) tt }
{
    if !is_date(date) {
        return Err(refuse(Cause::Date));
    }
    Ok(())
}

// Whether the second date is after the first, by year, month and day.
pub fn is_after(first: Date, second: Date) -> bool
    ensures { result ≡ is_after first second }
{
    first < second
}
