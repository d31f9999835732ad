// Dates: which there are from 1900 to 2199, their day numbers, the days between two of them, a date so many months later, and periods between two dates.
#![tactic(auto)]

pub mod calendar;
pub mod counts;
pub mod day_numbers;
pub mod months;
pub mod periods;
pub mod runs;

// A year, a month from 1 and a day from 1, of the calendar or not.
#[derive(Clone, Copy, Debug, PartialEq, Eq, PartialOrd, Ord)]
pub struct Date {
    pub year: u16,
    pub month: u8,
    pub day: u8,
}
