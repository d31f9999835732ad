// Nelson-Siegel curves.
ghost use Rattle.std.specs.Prelude.{◌≡◌};
ghost use Rattle.refusals.specs.Answers.{outcome};
ghost use Rattle.yield_curve.specs.NelsonSiegel.{decayed, slope_loading, hump_loading, instant_forward, yield_on, forward_on, yield_at, forward_rate_at, metrics_of};

use curves::curve::bad_time;
use elementary::exp::exp;
use refusals::{Cause, Refusal};

#[derive(Clone, Copy)]
pub struct NelsonSiegel {
    pub beta0: f64,
    pub beta1: f64,
    pub beta2: f64,
    pub decay: f64,
}

#[derive(Clone, Copy)]
pub struct CurveMetrics {
    pub level: f64,
    pub slope: f64,
    pub curvature: f64,
}

// What beta1 and beta2 are multiplied by.
#[derive(Clone, Copy)]
pub struct Loadings {
    pub slope: f64,
    pub hump: f64,
}

// The loadings of t/decay, by e^-(t/decay).
#[tactic(auto, unfolding(crate::specs::NelsonSiegel::slope_loading, crate::specs::NelsonSiegel::hump_loading))]
pub(crate) fn loadings_by(x: f64, left: f64) -> Loadings
    requires { left ≡ decayed x }
    ensures { (result.slope ≡ slope_loading x) × (result.hump ≡ hump_loading x) }
{
    let slope = (1.0 - left) / x;
    Loadings {
        slope,
        hump: slope - left,
    }
}

// The forward rate as t goes to 0.
#[tactic(auto, unfolding(crate::specs::NelsonSiegel::instant_forward))]
pub fn instantaneous_forward(model: NelsonSiegel) -> f64
    ensures { result ≡ instant_forward model }
{
    model.beta0 + model.beta1
}

// The yield at t, whatever t is.
#[tactic(auto, unfolding(crate::specs::NelsonSiegel::yield_on))]
pub(crate) fn yield_on(model: NelsonSiegel, t: f64) -> f64
    ensures { result ≡ yield_on model t }
{
    if t < 1e-10 {
        return instantaneous_forward(model);
    }
    let x = t / model.decay;
    let l = loadings_by(x, exp(-x));
    model.beta0 + model.beta1 * l.slope + model.beta2 * l.hump
}

// The forward rate at t, whatever t is.
#[tactic(auto, unfolding(crate::specs::NelsonSiegel::forward_on))]
pub(crate) fn forward_on(model: NelsonSiegel, t: f64) -> f64
    ensures { result ≡ forward_on model t }
{
    if t < 1e-10 {
        return instantaneous_forward(model);
    }
    let x = t / model.decay;
    let left = exp(-x);
    model.beta0 + model.beta1 * left + model.beta2 * x * left
}

#[tactic(auto, using(refusals::proofs::OneCause::caused, refusals::proofs::OneCause::all_clear), unfolding(crate::specs::NelsonSiegel::yield_at))]
pub fn yield_at(model: NelsonSiegel, t: f64) -> Result<f64, Refusal>
    ensures { outcome result ≡ yield_at model t }
{
    if bad_time(t) {
        return Err(refusals::refuse(Cause::Time));
    }
    Ok(yield_on(model, t))
}

#[tactic(auto, using(refusals::proofs::OneCause::caused, refusals::proofs::OneCause::all_clear), unfolding(crate::specs::NelsonSiegel::forward_rate_at))]
pub fn forward_rate(model: NelsonSiegel, t: f64) -> Result<f64, Refusal>
    ensures { outcome result ≡ forward_rate_at model t }
{
    if bad_time(t) {
        return Err(refusals::refuse(Cause::Time));
    }
    Ok(forward_on(model, t))
}

#[tactic(auto, unfolding(crate::specs::NelsonSiegel::metrics_of))]
pub fn metrics(model: NelsonSiegel) -> CurveMetrics
    ensures { result ≡ metrics_of model }
{
    CurveMetrics {
        level: model.beta0,
        slope: model.beta1,
        curvature: model.beta2,
    }
}
