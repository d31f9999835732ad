// Refusals: document 01's table, and the cause and place that a call is refused with.
#![tactic(auto)]

ghost use Rattle.std.specs.Prelude.{◌≡◌, min};
ghost use Rattle.numbers.specs.Whole.{largest};
ghost use Rattle.refusals.specs.Answers.{number};
ghost use Rattle.refusals.specs.Table.{bad_amount, bad_term, bad_number};

use std::fmt;

// The causes of a refusal, one for each line of the table, in its order.
#[derive(Clone, Copy, Debug, PartialEq, Eq)]
pub enum Cause {
    Amount = 1,
    Term,
    Room,
    Lengths,
    KnotCount,
    Knot,
    Time,
    Frequency,
    Number,
    PastEnd,
    Record,
    Bracket,
    BreakEven,
    Year,
    Date,
    Kind,
}

// What a call that is refused answers: the cause, and the index of the first bad item where the line names a list, else 0.
#[derive(Clone, Copy, Debug, PartialEq, Eq)]
pub struct Refusal {
    pub cause: Cause,
    pub place: u32,
}

impl Refusal {
    // The number of the line.
    pub fn number(self) -> u32
        ensures { result ≡ number self.cause }
    {
        self.cause as u32
    }
}

// As the programs write it.
impl fmt::Display for Refusal {
    fn fmt<W: fmt::Write>(&self, f: &mut fmt::Formatter<W>) -> fmt::Result {
        write!(f, "refused {} at {}", self.number(), self.place)
    }
}

// The refusal of a line that names no list: its place is 0.
pub fn refuse(cause: Cause) -> Refusal
    ensures { (number result.cause ≡ number cause) × (result.place ≡ 0) }
{
    Refusal { cause, place: 0 }
}

// The refusal of a line at an index; one that no u32 holds is given as the largest.
pub fn refuse_at(cause: Cause, i: usize) -> Refusal
    ensures { (number result.cause ≡ number cause) × (result.place ≡ min i largest) }
{
    Refusal {
        cause,
        place: u32::try_from(i).unwrap_or(u32::MAX),
    }
}

// Line 1: an amount that is not finite or is below zero.
pub fn bad_amount(x: f64) -> bool
    ensures { result ≡ bad_amount x }
{
    x < 0.0 || !numbers::sizes::is_finite(x)
}

// Line 2: a term of 0 or above 1,200.
pub fn bad_term(term: u32) -> bool
    ensures { result ≡ bad_term term }
{
    term == 0 || term > 1200
}

// Line 9: a number that is not finite.
pub fn bad_number(x: f64) -> bool
    ensures { result ≡ bad_number x }
{
    !numbers::sizes::is_finite(x)
}
