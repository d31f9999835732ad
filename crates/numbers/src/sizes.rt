// Finite or not, and the size of a number.
ghost use Rattle.std.specs.Prelude.{◌≡◌, false};
ghost use Rattle.std.specs.Float.{inf};
ghost use Rattle.std.specs.Float.Ieee.Scale.{finite};
ghost use Rattle.numbers.specs.Sizes.{absolute};

// Only a finite number less itself is zero.
pub fn is_finite(x: f64) -> bool
    ensures { result ≡ finite x }
{
    x - x == 0.0
}

pub fn infinity() -> f64
    ensures { result ≡ inf false }
{
    1.0 / 0.0
}

// The size of x: a zero of either sign gives +0, a NaN stays. Taken from 0 so that the compiler knows it for one instruction.
pub fn absolute_value(x: f64) -> f64
    ensures { result ≡ absolute x }
{
    if x > 0.0 { x } else { 0.0 - x }
}
