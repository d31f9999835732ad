// Yield curves: interpolation, discount factors, forwards, par yields, Nelson-Siegel.
#![tactic(auto)]

pub mod each;
pub mod fitting;
pub mod linear;
pub mod nelson_siegel;
pub mod solve;
pub mod spline;
