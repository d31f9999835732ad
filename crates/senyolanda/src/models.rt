// Nelson-Siegel models: beta0, beta1, beta2 and the decay, in an array of four numbers.
ghost use Rattle.std.specs.Prelude.{◌≡◌};
ghost use Rattle.yield_curve.specs.NelsonSiegel.{yield_at, forward_rate_at, instant_forward, metrics_of};
ghost use Rattle.yield_curve.specs.Fit.{fit};
ghost use Rattle.senyolanda.specs.Told.{always, told, told_number};
ghost use Rattle.senyolanda.specs.Models.{model_of, model_numbers, metrics_numbers};

use crate::results::{ACCEPTED, put};
use yield_curve::nelson_siegel::NelsonSiegel;

fn model_of(numbers: &[f64; 4]) -> NelsonSiegel
    ensures { result ≡ model_of numbers.now }
{
    let [beta0, beta1, beta2, decay] = *numbers;
    NelsonSiegel {
        beta0,
        beta1,
        beta2,
        decay,
    }
}

fn model_numbers(model: NelsonSiegel) -> [f64; 4]
    ensures { result ≡ model_numbers model }
{
    [model.beta0, model.beta1, model.beta2, model.decay]
}

// The model that lies nearest to the points of a curve.
#[unsafe(no_mangle)]
pub extern "C" fn senyolanda_nelson_siegel_fit(
    times: &[f64],
    rates: &[f64],
    model: &mut [f64; 4],
) -> u64
    ensures { (result, model.new) ≡ told model_numbers (fit times.now rates.now) model.old }
{
    put(
        yield_curve::fitting::fit(times, rates).map(model_numbers),
        model,
    )
}

#[unsafe(no_mangle)]
pub extern "C" fn senyolanda_nelson_siegel_yield(model: &[f64; 4], t: f64, rate: &mut f64) -> u64
    ensures { (result, rate.new) ≡ told_number (yield_at (model_of model.now) t) rate.old }
{
    put(
        yield_curve::nelson_siegel::yield_at(model_of(model), t),
        rate,
    )
}

#[unsafe(no_mangle)]
pub extern "C" fn senyolanda_nelson_siegel_forward_rate(
    model: &[f64; 4],
    t: f64,
    rate: &mut f64,
) -> u64
    ensures { (result, rate.new) ≡ told_number (forward_rate_at (model_of model.now) t) rate.old }
{
    put(
        yield_curve::nelson_siegel::forward_rate(model_of(model), t),
        rate,
    )
}

// The forward rate of this moment: never refused.
#[unsafe(no_mangle)]
pub extern "C" fn senyolanda_nelson_siegel_instantaneous_forward(
    model: &[f64; 4],
    rate: &mut f64,
) -> u64
    ensures { (result, rate.new) ≡ always (instant_forward (model_of model.now)) }
{
    *rate = yield_curve::nelson_siegel::instantaneous_forward(model_of(model));
    ACCEPTED
}

// Level, slope and curvature: never refused.
#[unsafe(no_mangle)]
pub extern "C" fn senyolanda_nelson_siegel_metrics(model: &[f64; 4], metrics: &mut [f64; 3]) -> u64
    ensures { (result, metrics.new) ≡ always (metrics_numbers (metrics_of (model_of model.now))) }
{
    let curve = yield_curve::nelson_siegel::metrics(model_of(model));
    *metrics = [curve.level, curve.slope, curve.curvature];
    ACCEPTED
}
