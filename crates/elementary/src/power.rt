// Powers with any exponent: a whole one up to 1,200 in size by repeated squaring, any other by exp and ln.
ghost use Rattle.std.specs.Prelude.{◌≡◌, true};
ghost use Rattle.std.specs.Float.Ieee.{eq};
ghost use Rattle.numbers.specs.Literals.{one};
ghost use Rattle.elementary.specs.Power.{is_whole, by_sign, by_ln, power};

use crate::exp::exp;
use crate::ln::ln;
use crate::whole::usually_whole;
use crate::whole_power::{negative_power, whole_power};
use numbers::sizes::absolute_value;

// Whether y is a whole number up to 1,200 in size.
fn is_whole(y: f64) -> bool
    ensures { result ≡ is_whole y }
{
    let size = absolute_value(y);
    size <= 1200.0 && f64::from(usually_whole(size)) == size
}

// x to the power of such a y.
fn by_sign(x: f64, y: f64) -> f64
    requires { is_whole y ≡ true }
    ensures { result ≡ by_sign x y }
{
    let size = usually_whole(absolute_value(y));
    if y < 0.0 {
        negative_power(x, size)
    } else {
        whole_power(x, size)
    }
}

// x to the power of any other y.
fn by_ln(x: f64, y: f64) -> f64
    ensures { result ≡ by_ln (eq x one) x y }
{
    if x == 1.0 { 1.0 } else { exp(y * ln(x)) }
}

pub fn power(x: f64, y: f64) -> f64
    ensures { result ≡ power x y }
{
    if is_whole(y) {
        by_sign(x, y)
    } else {
        by_ln(x, y)
    }
}
