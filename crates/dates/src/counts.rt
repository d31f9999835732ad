// The days from one date to a later one: actual days, and 30/360 by the bond basis.
ghost use Rattle.std.specs.Prelude.{◌≡◌, true, cond, ◌==◌, ◌&&◌, [], ◌∷◌};
ghost use Rattle.refusals.specs.Answers.{outcome};
ghost use Rattle.refusals.specs.Outcome.{judged};
ghost use Rattle.refusals.specs.Table.{bad_dates};
ghost use Rattle.dates.specs.Calendar.{is_date, is_after};
ghost use Rattle.dates.specs.Counts.{actual_days, thirty_days};
ghost use Rattle.dates.specs.Answers.{dates_line, actual_days_of, thirty_days_of};

use crate::Date;
use crate::calendar::{is_after, is_date};
use crate::day_numbers::number_of;
use refusals::{Cause, Refusal, refuse};

// Line 15 of two dates.
#[tactic(auto, unfolding(refusals::specs::Table::bad_dates, refusals::specs::Table::no_such_date))]
pub fn bad_dates(first: Date, second: Date) -> bool
    ensures { result ≡ bad_dates (is_date first) (is_date second) (is_after first second) }
{
    !is_date(first) || !is_date(second) || !is_after(first, second)
}

#[tactic(auto, unfolding(refusals::specs::Outcome::judged, refusals::specs::Outcome::first_or))]
fn judge_dates(first: Date, second: Date) -> Result<(), Refusal>
    ensures { outcome result ≡ judged (dates_line first second ∷ []) tt }
{
    if bad_dates(first, second) {
        return Err(refuse(Cause::Date));
    }
    Ok(())
}

// A first day of 31 is read as 30.
pub(crate) fn first_day(day: u32) -> u32
    ensures { result ≡ cond (day == 31) 30 day }
{
    if day == 31 { 30 } else { day }
}

// A second day of 31 is read as 30 when the first is then 30.
pub(crate) fn second_day(first: u32, second: u32) -> u32
    ensures { result ≡ cond ((second == 31) && (cond (first == 31) 30 first == 30)) 30 second }
{
    if second == 31 && first_day(first) == 30 {
        30
    } else {
        second
    }
}

// The actual days of two dates, 0 where the second is not later.
#[tactic(auto, unfolding(crate::specs::Calendar::is_date, crate::specs::Counts::actual_days))]
pub fn actual_days(first: Date, second: Date) -> u32
    ensures { is_date first ≡ true → is_date second ≡ true → result ≡ actual_days first second }
{
    number_of(second).saturating_sub(number_of(first))
}

// The 30/360 count of any two dates, 0 where the second is not later.
#[tactic(auto, unfolding(crate::specs::Counts::thirty_days, crate::specs::Counts::first_day_of, crate::specs::Counts::second_day_of))]
pub fn thirty_days(first: Date, second: Date) -> u32
    ensures { result ≡ thirty_days first second }
{
    let (from, to) = (u32::from(first.day), u32::from(second.day));
    let start = 360 * u32::from(first.year) + 30 * u32::from(first.month) + first_day(from);
    let end = 360 * u32::from(second.year) + 30 * u32::from(second.month) + second_day(from, to);
    end.saturating_sub(start)
}

// Actual days between two dates.
#[tactic(auto, using(crate::proofs::Following::three_good), unfolding(crate::specs::Answers::actual_days_of, refusals::specs::Outcome::judged, refusals::specs::Outcome::first_or))]
pub fn actual_days_between(first: Date, second: Date) -> Result<u32, Refusal>
    ensures { outcome result ≡ actual_days_of first second }
{
    judge_dates(first, second)?;
    Ok(actual_days(first, second))
}

// The 30/360 count between two dates.
#[tactic(auto, unfolding(crate::specs::Answers::thirty_days_of, refusals::specs::Outcome::judged, refusals::specs::Outcome::first_or))]
pub fn thirty_days_between(first: Date, second: Date) -> Result<u32, Refusal>
    ensures { outcome result ≡ thirty_days_of first second }
{
    judge_dates(first, second)?;
    Ok(thirty_days(first, second))
}
