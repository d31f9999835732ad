// Raising to zero and lowering to a bound.
ghost use Rattle.std.specs.Prelude.{◌≡◌};
ghost use Rattle.numbers.specs.Clamps.{raised, lowered};

// x where it is above 0, else +0, so a NaN gives +0.
pub fn raise_to_zero(x: f64) -> f64
    ensures { result ≡ raised x }
{
    if x > 0.0 { x } else { 0.0 }
}

// p where it is below b, else b, so a NaN gives b.
pub fn lower_to(p: f64, b: f64) -> f64
    ensures { result ≡ lowered p b }
{
    if p < b { p } else { b }
}
