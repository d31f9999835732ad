// Day counts over a number of days and between two dates, and their codes in a record.
ghost use Rattle.std.specs.Prelude.{◌≡◌};
ghost use Rattle.refusals.specs.Answers.{outcome};
ghost use Rattle.swaps.specs.DayCounts.{year_of, day_fraction, dated_fraction_of};
ghost use Rattle.swaps.specs.Codes.{code_of, day_count_of};

use dates::Date;
use dates::counts::{actual_days, bad_dates, thirty_days};
use refusals::{Cause, Refusal};

#[derive(Clone, Copy)]
pub enum DayCount {
    Actual360,
    Actual365,
    Thirty360,
}

// The days of a year.
fn year_of(day_count: DayCount) -> f64
    ensures { result ≡ year_of day_count }
{
    match day_count {
        DayCount::Actual360 => 360.0,
        DayCount::Actual365 => 365.0,
        DayCount::Thirty360 => 360.0,
    }
}

// So many days as a fraction of a year.
pub fn day_count_fraction(day_count: DayCount, days: u32) -> f64
    ensures { result ≡ day_fraction day_count days }
{
    days as f64 / year_of(day_count)
}

// The days between two dates, by the day count, as a fraction of a year.
pub fn dated_fraction(day_count: DayCount, first: Date, second: Date) -> Result<f64, Refusal>
    ensures { outcome result ≡ dated_fraction_of day_count first second }
{
    if bad_dates(first, second) {
        return Err(refusals::refuse(Cause::Date));
    }
    let days = match day_count {
        DayCount::Actual360 => actual_days(first, second),
        DayCount::Actual365 => actual_days(first, second),
        DayCount::Thirty360 => thirty_days(first, second),
    };
    Ok(day_count_fraction(day_count, days))
}

// The day count of a code; one outside the set is line 11.
pub fn day_count_of(code: u8) -> Result<DayCount, Refusal>
    ensures { outcome result ≡ day_count_of code }
{
    match code {
        0 => Ok(DayCount::Actual360),
        1 => Ok(DayCount::Actual365),
        2 => Ok(DayCount::Thirty360),
        _ => Err(refusals::refuse(Cause::Record)),
    }
}

pub fn code_of(day_count: DayCount) -> u8
    ensures { result ≡ code_of day_count }
{
    match day_count {
        DayCount::Actual360 => 0,
        DayCount::Actual365 => 1,
        DayCount::Thirty360 => 2,
    }
}
