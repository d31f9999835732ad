// The two rate curves, each as two lent lists: zero rates, and swap rates, which are read alike.
ghost use Rattle.std.specs.Prelude.{◌≡◌, ◌||◌};
ghost use Rattle.refusals.specs.Answers.{outcome};
ghost use Rattle.refusals.specs.Table.{bad_time};
ghost use Rattle.curves.specs.Segments.{Rising};
ghost use Rattle.spread_analytics.specs.Curves.{rate_of, discount_of, forward_of, rate_at, discount_factor, forward_rate};

use curves::curve::{bad_time, judge_asked};
use curves::kinds::Kind;
use elementary::ln::ln;
use numbers::sizes::absolute_value;
use refusals::Refusal;

fn rate_of(tenors: &[f64], rates: &[f64], t: f64) -> f64
    requires { Rising tenors.now }
    ensures { result ≡ rate_of tenors.now rates.now t }
{
    curves::lookups::rate_of(Kind::SpreadCurve, tenors, rates, t)
}

fn discount_of(tenors: &[f64], rates: &[f64], t: f64) -> f64
    requires { Rising tenors.now }
    ensures { result ≡ discount_of tenors.now rates.now t }
{
    curves::lookups::discount_of(Kind::SpreadCurve, tenors, rates, t)
}

#[tactic(auto, unfolding(crate::specs::Curves::forward_of))]
fn forward_of(tenors: &[f64], rates: &[f64], t1: f64, t2: f64) -> f64
    requires { Rising tenors.now }
    ensures { result ≡ forward_of tenors.now rates.now t1 t2 }
{
    if absolute_value(t2 - t1) < 1e-12 {
        return rate_of(tenors, rates, t1);
    }
    let df1 = discount_of(tenors, rates, t1);
    let df2 = discount_of(tenors, rates, t2);
    if df2 <= 0.0 || df1 <= 0.0 {
        return 0.0;
    }
    ln(df1 / df2) / (t2 - t1)
}

// Line 7, of two times.
fn bad_times(t1: f64, t2: f64) -> bool
    ensures { result ≡ (bad_time t1 || bad_time t2) }
{
    bad_time(t1) || bad_time(t2)
}

// The zero rate at a time.
pub fn rate_at(tenors: &[f64], rates: &[f64], t: f64) -> Result<f64, Refusal>
    ensures { outcome result ≡ rate_at tenors.now rates.now t }
{
    match judge_asked(tenors, rates, bad_time(t)) {
        Err(refusal) => Err(refusal),
        Ok(()) => Ok(rate_of(tenors, rates, t)),
    }
}

// The swap rate at a tenor, read alike; a body of its own, so that each of the two is compiled whole into the one that calls it.
pub fn swap_rate_at(tenors: &[f64], rates: &[f64], tenor: f64) -> Result<f64, Refusal>
    ensures { outcome result ≡ rate_at tenors.now rates.now tenor }
{
    match judge_asked(tenors, rates, bad_time(tenor)) {
        Err(refusal) => Err(refusal),
        Ok(()) => Ok(rate_of(tenors, rates, tenor)),
    }
}

pub fn discount_factor(tenors: &[f64], rates: &[f64], t: f64) -> Result<f64, Refusal>
    ensures { outcome result ≡ discount_factor tenors.now rates.now t }
{
    match judge_asked(tenors, rates, bad_time(t)) {
        Err(refusal) => Err(refusal),
        Ok(()) => Ok(discount_of(tenors, rates, t)),
    }
}

// The rate from one time to another, by the two discount factors.
pub fn forward_rate(tenors: &[f64], rates: &[f64], t1: f64, t2: f64) -> Result<f64, Refusal>
    ensures { outcome result ≡ forward_rate tenors.now rates.now t1 t2 }
{
    match judge_asked(tenors, rates, bad_times(t1, t2)) {
        Err(refusal) => Err(refusal),
        Ok(()) => Ok(forward_of(tenors, rates, t1, t2)),
    }
}
