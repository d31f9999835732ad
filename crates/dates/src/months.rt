// A date so many months later, its day cut to the month's end.
ghost use Rattle.std.specs.Prelude.{◌≡◌, ◌<◌};
ghost use Rattle.dates.specs.Months.{month_index, day_in_month};
ghost use Rattle.refusals.specs.Answers.{outcome};
ghost use Rattle.dates.specs.Answers.{months_later_of};

use crate::Date;
use crate::calendar::{days_in, judge_date};
use refusals::{Cause, Refusal, refuse};

// A month among all months, twelve for each year.
#[tactic(auto, unfolding(crate::specs::Months::month_index))]
pub(crate) fn month_index(date: Date) -> u32
    ensures { result ≡ month_index date }
{
    12 * u32::from(date.year) + u32::from(date.month).saturating_sub(1)
}

// The date in a month of that index with such a day, or with the month's last.
#[tactic(auto, unfolding(crate::specs::Months::day_in_month))]
pub(crate) fn day_in_month(index: u32, day: u8) -> Date
    requires { index < 786432 }
    ensures { result ≡ day_in_month index day }
{
    let (year, month) = (index / 12, index % 12 + 1);
    let last = days_in(year, month);
    Date {
        year: year as u16,
        month: month as u8,
        day: u32::from(day).min(last) as u8,
    }
}

#[tactic(auto, using(crate::proofs::LaterMonths::index_bounds, crate::proofs::Asked::too_late), unfolding(crate::specs::Answers::months_later_of, crate::specs::Months::months_later, refusals::specs::Outcome::judged, refusals::specs::Outcome::first_or, refusals::specs::Table::no_such_date))]
pub fn months_later(date: Date, months: u32) -> Result<Date, Refusal>
    ensures { outcome result ≡ months_later_of date months }
{
    judge_date(date)?;
    if months >= 3600 {
        return Err(refuse(Cause::Date));
    }
    let later = day_in_month(month_index(date) + months, date.day);
    judge_date(later)?;
    Ok(later)
}
