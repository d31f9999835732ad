// ln: the number as m·2^e, m near 1, Horner's rule over the square of (m-1)/(m+1), and e times ln 2 in two parts.
ghost use Rattle.std.specs.Prelude.{◌≡◌, ◌<◌, true};
ghost use Rattle.std.proofs.Math.IntN.{sub_ℕ};
ghost use Rattle.std.specs.Float.{binary64};
ghost use Rattle.std.specs.Float.Ieee.{lt, of_int};
ghost use Rattle.std.specs.Float.Ieee.Scale.{finite};
ghost use Rattle.numbers.specs.Literals.{root_two};
ghost use Rattle.numbers.specs.Clamps.{plus_zero};
ghost use Rattle.elementary.specs.Horner.{horner};
ghost use Rattle.elementary.specs.Ln.{inverse_odd, slope, ln_of, ln_by, ln};

use crate::horner::horner;
use crate::ln2::{LN2_HIGH, LN2_LOW};
use numbers::patterns::pattern_of;
use numbers::sizes::is_finite;

// 1/(2j+1) for j from 0 to 10, each rounded once.
const INVERSE_ODDS: [f64; 11] = [
    1.0,
    0.3333333333333333,
    0.2,
    0.14285714285714285,
    0.1111111111111111,
    0.09090909090909091,
    0.07692307692307693,
    0.06666666666666667,
    0.058823529411764705,
    0.05263157894736842,
    0.047619047619047616,
];

fn series(w: f64) -> f64
    ensures { result ≡ horner inverse_odd w 0 10 }
{
    horner(&INVERSE_ODDS, w)
}

fn slope_of(m: f64) -> f64
    ensures { result ≡ slope m }
{
    (m - 1.0) / (m + 1.0)
}

fn answer(s: f64, e: f64) -> f64
    ensures { result ≡ ln_of s e }
{
    e * LN2_HIGH + (2.0 * s * series(s * s) + e * LN2_LOW)
}

// The exponent as a float: its field in the pattern, less the bias.
fn exponent_of(field: u32, bias: u32) -> f64
    ensures { result ≡ of_int binary64 (sub_ℕ field bias) }
{
    f64::from(field) - f64::from(bias)
}

// The answer for m·2^e, with m halved where it is above the root of 2.
fn ln_of_parts(m: f64, field: u32, bias: u32) -> f64
    requires { field < 2047 }
    ensures { result ≡ ln_by (lt root_two m) m (sub_ℕ field bias) }
{
    if m > 1.4142135623730951 {
        answer(slope_of(m * 0.5), exponent_of(field + 1, bias))
    } else {
        answer(slope_of(m), exponent_of(field, bias))
    }
}

// Above zero and finite: m and e by the bit pattern, a subnormal scaled by 2^54 first.
fn ln_above_zero(x: f64) -> f64
    requires { (lt plus_zero x ≡ true) × (finite x ≡ true) }
    ensures { result ≡ ln x }
{
    let (y, bias) = if x < f64::MIN_POSITIVE {
        (x * 18014398509481984.0, 1077)
    } else {
        (x, 1023)
    };
    let pattern = pattern_of(y);
    let m = f64::from_bits(0x3ff0_0000_0000_0000 + pattern % 0x10_0000_0000_0000);
    ln_of_parts(m, (pattern / 0x10_0000_0000_0000) as u32, bias)
}

pub fn ln(x: f64) -> f64
    ensures { result ≡ ln x }
{
    if x.is_nan() {
        return x;
    }
    if x < 0.0 {
        return f64::NAN;
    }
    if x == 0.0 {
        return f64::NEG_INFINITY;
    }
    if is_finite(x) { ln_above_zero(x) } else { x }
}
