// Pools of loans: prepayment speeds, months, price, duration and convexity.
#![tactic(auto)]

pub mod flows;
pub mod loans;
pub mod months;
pub mod price;
pub mod speed;
pub mod totals;
mod walk;
