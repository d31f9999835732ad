// Day numbers by the rule for leap years, without a walk over them; and the date of a number.
ghost use Rattle.std.specs.Prelude.{◌≡◌, true, ◌+◌, ◌≤◌, ◌<◌};
ghost use Rattle.refusals.specs.Answers.{outcome};
ghost use Rattle.dates.specs.Calendar.{is_date};
ghost use Rattle.dates.specs.DayNumbers.{days_before_year, days_before_month, day_number};
ghost use Rattle.dates.specs.Answers.{day_number_of, has_date, date_numbered};

use crate::Date;
use crate::calendar::{days_in, is_leap, judge_date};
use refusals::{Cause, Refusal, refuse};

// The number of 1 January 1900.
const FIRST: u32 = 2;

// The number of 31 December 2199.
const LAST: u32 = 109574;

// The days of the years from 1900 before a year: 365 each, and one more for each fourth year that is no century, and for each fourth century.
#[tactic(auto, using(crate::proofs::YearDays::by_rule))]
pub(crate) fn days_before_year(year: u32) -> u32
    requires { (1900 ≤ year) × (year < 65536) }
    ensures { result ≡ days_before_year year }
{
    let years = year - 1900;
    365 * years + (years + 3) / 4 + (years + 299) / 400 - (years + 99) / 100
}

// The days of a year's months before a month: 30 and 31 by turns, and two or one fewer behind February.
#[tactic(auto, using(crate::proofs::MonthDays::months_by_rule))]
pub(crate) fn days_before_month(year: u32, month: u32) -> u32
    requires { (1 ≤ month) × (month ≤ 12) }
    ensures { result ≡ days_before_month year month }
{
    let even = (367 * month - 362) / 12;
    if month <= 2 {
        even
    } else if is_leap(year) {
        even - 1
    } else {
        even - 2
    }
}

// The number of a date in a month that there is from 1900 on; 0 of any other.
#[tactic(auto, using(crate::proofs::YearDays::at_most_366, crate::proofs::MonthDays::at_most_372), unfolding(crate::specs::DayNumbers::day_number))]
pub(crate) fn number_of(date: Date) -> u32
    ensures { (1900 ≤ date.year) → (1 ≤ date.month) → (date.month ≤ 12) → result ≡ day_number date }
{
    if date.year < 1900 || !(1..=12).contains(&date.month) {
        return 0;
    }
    let (year, month) = (u32::from(date.year), u32::from(date.month));
    1 + days_before_year(year) + days_before_month(year, month) + u32::from(date.day)
}

#[tactic(auto, unfolding(crate::specs::Answers::day_number_of, crate::specs::Calendar::is_date, refusals::specs::Outcome::judged, refusals::specs::Outcome::first_or, refusals::specs::Table::no_such_date))]
pub fn day_number(date: Date) -> Result<u32, Refusal>
    ensures { outcome result ≡ day_number_of date }
{
    judge_date(date)?;
    Ok(number_of(date))
}

// The year in which so many days after 1 January 1900 lie: by years of 366 days it is found, or the year before it.
fn year_at(days: u32) -> u32
    requires { days < 109573 }
    ensures { (1900 ≤ result) × (result < 2200) × (days_before_year result ≤ days) × (days < days_before_year (result + 1)) }
{
    let year = 1900 + days / 366;
    if days < days_before_year(year + 1) {
        year
    } else {
        year + 1
    }
}

// The month of a year in which so many days after its 1 January lie: by months of 31 days it is found, or the month before it.
fn month_at(year: u32, days: u32) -> u32
    requires { days < days_before_month year 13 }
    ensures { (1 ≤ result) × (result ≤ 12) × (days_before_month year result ≤ days) × (days < days_before_month year (result + 1)) }
{
    let month = days / 31 + 1;
    if days < days_before_month(year, month) + days_in(year, month) {
        month
    } else {
        month + 1
    }
}

// The date so many days after 1 January 1900.
#[tactic(auto, using(crate::proofs::Parts::days_in_bounds, crate::proofs::MonthDays::next_month, crate::proofs::Asked::rest_of_year), unfolding(crate::specs::Calendar::is_date, crate::specs::DayNumbers::day_number))]
fn date_at(days: u32) -> Date
    requires { days < 109573 }
    ensures { (is_date result ≡ true) × (day_number result ≡ 2 + days) }
{
    let year = year_at(days);
    let left = days - days_before_year(year);
    let month = month_at(year, left);
    let day = left - days_before_month(year, month) + 1;
    Date {
        year: year as u16,
        month: month as u8,
        day: day as u8,
    }
}

// Whether a number is a date's.
#[tactic(auto, using(crate::proofs::InOrder::first_number, crate::proofs::InOrder::last_number), unfolding(crate::specs::Answers::has_date))]
fn has_date(number: u32) -> bool
    ensures { result ≡ has_date number }
{
    (FIRST..=LAST).contains(&number)
}

// The date of a day number.
#[tactic(auto, using(crate::proofs::InOrder::has_bounds, crate::proofs::InOrder::none_numbered, crate::proofs::Asked::its_date))]
pub fn date_of(number: u32) -> Result<Date, Refusal>
    ensures { outcome result ≡ date_numbered number }
{
    if !has_date(number) {
        return Err(refuse(Cause::Date));
    }
    Ok(date_at(number - FIRST))
}
