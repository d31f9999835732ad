// Curves as two lent lists: what makes one acceptable, the segment that serves a time, the three formulas along it, and lookups, one by one, as a list or in a run.
#![tactic(auto)]

pub mod curve;
pub mod each;
pub mod ending;
pub mod formulas;
mod halving;
pub mod kinds;
pub mod lookups;
pub mod runs;
pub mod segments;
pub mod starting;
