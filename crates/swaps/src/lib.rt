// Swaps, undated and dated: day counts, the discount curve and its bootstrap, legs and values.
#![tactic(auto)]

pub mod bootstrap;
mod dated_periods;
pub mod day_counts;
pub mod discount;
pub mod discount_each;
pub mod judging;
mod knots;
pub mod legs;
mod periods;
mod runs;
mod terms;
mod trials;
pub mod valuation;

// A fixed-for-floating swap whose periods are a tenor's, all alike.
#[derive(Clone, Copy)]
pub struct Swap {
    pub notional: f64,
    pub fixed_rate: f64,
    pub tenor: f64,
    pub frequency: u32,
    pub day_count: day_counts::DayCount,
}

// One whose periods go from a first date to a second.
#[derive(Clone, Copy)]
pub struct DatedSwap {
    pub notional: f64,
    pub fixed_rate: f64,
    pub frequency: u32,
    pub first: dates::Date,
    pub second: dates::Date,
    pub day_count: day_counts::DayCount,
}

#[derive(Clone, Copy)]
pub enum AnySwap {
    Undated(Swap),
    Dated(DatedSwap),
}
