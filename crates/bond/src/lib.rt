// Bonds: price, yield, durations and convexity.
#![tactic(auto)]

pub mod bonds;
pub mod brent;
pub mod codes;
pub mod durations;
pub mod price;
mod worked;
pub mod yields;

// Coupons a year: 1, 2, 4 or 12.
#[derive(Clone, Copy)]
pub enum Frequency {
    Annual,
    SemiAnnual,
    Quarterly,
    Monthly,
}

#[derive(Clone, Copy)]
pub struct Bond {
    pub face: f64,
    pub coupon: f64,
    pub maturity: f64,
    pub frequency: Frequency,
}
