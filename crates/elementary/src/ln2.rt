// ln 2 in two parts, of which the low one is what the high one leaves, and one over ln 2.
pub(crate) const LN2_HIGH: f64 = 6.93147180369123816490e-01;

pub(crate) const LN2_LOW: f64 = 1.90821492927058770002e-10;

pub(crate) const INVERSE_LN2: f64 = 1.4426950408889634;
