// Elementary functions: exp, ln and powers, by document 01's steps to the bit.
#![tactic(auto)]

pub mod exp;
mod horner;
pub mod ln;
mod ln2;
pub mod power;
pub mod powers;
pub mod whole;
pub mod whole_power;
