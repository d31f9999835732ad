// Spreads: points and decimals, the rate curves, cash flows, the spread that a price implies.
#![tactic(auto)]

pub mod curves_each;
pub mod dated;
pub mod flows;
pub mod judging;
pub mod rate_curves;
pub mod spread;
pub mod units;
pub mod worth;
