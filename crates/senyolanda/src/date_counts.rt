// Dates as three numbers: day numbers, the days between two dates, a date so many months later.
ghost use Rattle.std.specs.Prelude.{◌≡◌, false, ◌⊎◌, IfSome, is_some};
ghost use Rattle.dates.specs.Calendar.{is_date};
ghost use Rattle.dates.specs.Answers.{day_number_of, date_numbered, actual_days_of, thirty_days_of, months_later_of};
ghost use Rattle.senyolanda.specs.Told.{told, told_number};
ghost use Rattle.senyolanda.specs.Dates.{date_of, date_numbers, held_by_record, dated_fraction_by};

use crate::codes::day_count_of;
use crate::results::put;
use dates::Date;
use swaps::day_counts::dated_fraction;

// The numbers of a date: year, month, day.
pub const DATE_NUMBERS: usize = 3;

// The date of three numbers; one that is none where a number is too large for any date.
fn date_of(year: u32, month: u32, day: u32) -> Date
    ensures { (result ≡ date_of year month day) ⊎ ((is_date result ≡ false) × (is_date (date_of year month day) ≡ false)) }
{
    held_date(year, month, day).unwrap_or(Date {
        year: 0,
        month: 0,
        day: 0,
    })
}

// The date of three numbers, of the calendar or not, where each fits in its field.
pub(crate) fn held_date(year: u32, month: u32, day: u32) -> Option<Date>
    ensures some { IfSome result (λ (d : Date). d ≡ date_of year month day) }
    ensures when { is_some result ≡ held_by_record (date_of year month day) }
{
    Some(Date {
        year: u16::try_from(year).ok()?,
        month: u8::try_from(month).ok()?,
        day: u8::try_from(day).ok()?,
    })
}

pub(crate) fn date_numbers(date: Date) -> [u32; DATE_NUMBERS]
    ensures { result ≡ date_numbers date }
{
    [
        u32::from(date.year),
        u32::from(date.month),
        u32::from(date.day),
    ]
}

#[tactic(auto, using(crate::proofs::ThreeNumbers::same_number))]
#[unsafe(no_mangle)]
pub extern "C" fn senyolanda_day_number(year: u32, month: u32, day: u32, number: &mut u32) -> u64
    ensures { (result, number.new) ≡ told_number (day_number_of (date_of year month day)) number.old }
{
    let date = date_of(year, month, day);
    put(dates::day_numbers::day_number(date), number)
}

// The date of a day number.
#[unsafe(no_mangle)]
pub extern "C" fn senyolanda_date_of_number(number: u32, date: &mut [u32; DATE_NUMBERS]) -> u64
    ensures { (result, date.new) ≡ told date_numbers (date_numbered number) date.old }
{
    put(dates::day_numbers::date_of(number).map(date_numbers), date)
}

#[tactic(auto, using(crate::proofs::ThreeNumbers::same_months), unfolding(crate::specs::Told::told))]
#[unsafe(no_mangle)]
pub extern "C" fn senyolanda_months_later(
    year: u32,
    month: u32,
    day: u32,
    months: u32,
    date: &mut [u32; DATE_NUMBERS],
) -> u64
    ensures { (result, date.new) ≡ told date_numbers (months_later_of (date_of year month day) months) date.old }
{
    let from = date_of(year, month, day);
    put(
        dates::months::months_later(from, months).map(date_numbers),
        date,
    )
}

#[tactic(auto, using(crate::proofs::ThreeNumbers::same_between), unfolding(dates::specs::Answers::actual_days_of))]
#[unsafe(no_mangle)]
pub extern "C" fn senyolanda_actual_days(
    first_year: u32,
    first_month: u32,
    first_day: u32,
    second_year: u32,
    second_month: u32,
    second_day: u32,
    days: &mut u32,
) -> u64
    ensures { (result, days.new) ≡ told_number (actual_days_of (date_of first_year first_month first_day) (date_of second_year second_month second_day)) days.old }
{
    let first = date_of(first_year, first_month, first_day);
    let second = date_of(second_year, second_month, second_day);
    put(dates::counts::actual_days_between(first, second), days)
}

#[tactic(auto, using(crate::proofs::ThreeNumbers::same_between), unfolding(dates::specs::Answers::thirty_days_of))]
#[unsafe(no_mangle)]
pub extern "C" fn senyolanda_days_30_360(
    first_year: u32,
    first_month: u32,
    first_day: u32,
    second_year: u32,
    second_month: u32,
    second_day: u32,
    days: &mut u32,
) -> u64
    ensures { (result, days.new) ≡ told_number (thirty_days_of (date_of first_year first_month first_day) (date_of second_year second_month second_day)) days.old }
{
    let first = date_of(first_year, first_month, first_day);
    let second = date_of(second_year, second_month, second_day);
    put(dates::counts::thirty_days_between(first, second), days)
}

// The days between two dates, by a day count, as a fraction of a year.
#[tactic(auto, using(crate::proofs::ThreeNumbers::same_between), unfolding(crate::specs::Told::told, crate::specs::Dates::dated_fraction_by, swaps::specs::DayCounts::dated_fraction_of))]
#[unsafe(no_mangle)]
pub extern "C" fn senyolanda_dated_fraction(
    day_count: u32,
    first_year: u32,
    first_month: u32,
    first_day: u32,
    second_year: u32,
    second_month: u32,
    second_day: u32,
    fraction: &mut f64,
) -> u64
    ensures { (result, fraction.new) ≡ told_number (dated_fraction_by day_count (date_of first_year first_month first_day) (date_of second_year second_month second_day)) fraction.old }
{
    let first = date_of(first_year, first_month, first_day);
    let second = date_of(second_year, second_month, second_day);
    let answer = day_count_of(day_count).and_then(|given| dated_fraction(given, first, second));
    put(answer, fraction)
}
