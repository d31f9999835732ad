// Numbers: the small steps on binary64 that document 01 names, each with one meaning.
#![tactic(auto)]

pub mod clamps;
pub mod patterns;
pub mod sizes;
pub mod whole;
