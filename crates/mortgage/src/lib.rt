// Mortgages: a loan's payment, its opening, its rows, and draws of them into lent room, with year-end totals beside them: level, interest-only, balloon and adjustable loans.
#![tactic(auto)]

pub mod breakeven;
pub mod draws;
pub mod kinds;
mod months;
pub mod opening;
pub mod pairs;
pub mod payment;
pub mod rates;
pub mod rows;
pub mod savings;
pub mod terms;
pub mod totals;
pub mod years;

// A loan in hand: passed into each draw by value and handed back.
#[derive(Clone, Copy)]
pub struct Loan {
    pub term: u32,
    pub rate: f64,
    pub payment: f64,
    pub done: u32,
    pub balance: f64,
}
