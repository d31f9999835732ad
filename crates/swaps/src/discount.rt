// The discount curve: its zero rate and its discount factor at a time.
ghost use Rattle.std.specs.Prelude.{◌≡◌};
ghost use Rattle.refusals.specs.Answers.{outcome};
ghost use Rattle.curves.specs.Segments.{Rising};
ghost use Rattle.swaps.specs.Discount.{zero_rate_of, discount_of, rate_at, discount_factor};

use curves::curve::{bad_time, judge_asked};
use curves::kinds::Kind;
use refusals::Refusal;

// The zero rate at a time.
pub(crate) fn zero_rate_of(tenors: &[f64], zeros: &[f64], t: f64) -> f64
    requires { Rising tenors.now }
    ensures { result ≡ zero_rate_of tenors.now zeros.now t }
{
    curves::lookups::rate_of(Kind::DiscountCurve, tenors, zeros, t)
}

// The discount factor at a time: 1 at or before time 0.
pub(crate) fn discount_of(tenors: &[f64], zeros: &[f64], t: f64) -> f64
    requires { Rising tenors.now }
    ensures { result ≡ discount_of tenors.now zeros.now t }
{
    curves::lookups::discount_of(Kind::DiscountCurve, tenors, zeros, t)
}

pub fn rate_at(tenors: &[f64], zeros: &[f64], t: f64) -> Result<f64, Refusal>
    ensures { outcome result ≡ rate_at tenors.now zeros.now t }
{
    match judge_asked(tenors, zeros, bad_time(t)) {
        Err(refusal) => Err(refusal),
        Ok(()) => Ok(zero_rate_of(tenors, zeros, t)),
    }
}

pub fn discount_factor(tenors: &[f64], zeros: &[f64], t: f64) -> Result<f64, Refusal>
    ensures { outcome result ≡ discount_factor tenors.now zeros.now t }
{
    match judge_asked(tenors, zeros, bad_time(t)) {
        Err(refusal) => Err(refusal),
        Ok(()) => Ok(discount_of(tenors, zeros, t)),
    }
}
