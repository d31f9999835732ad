// Yield curves, asked at one time or between two, and models, whose three betas and decay come before the time.
use replaying::{Unanswered, float_at};
use yield_curve::nelson_siegel::NelsonSiegel;

fn model_in(case: &[u8]) -> NelsonSiegel {
    NelsonSiegel {
        beta0: float_at(case, 5),
        beta1: float_at(case, 6),
        beta2: float_at(case, 7),
        decay: float_at(case, 8),
    }
}

pub(crate) fn answer(
    question: u64,
    case: &[u8],
    times: &[f64],
    rates: &[f64],
) -> Result<f64, Unanswered> {
    let t = float_at(case, 5);
    Ok(match question {
        501 => yield_curve::linear::linear_interpolate(times, rates, t)?,
        502 => yield_curve::spline::cubic_spline_interpolate(times, rates, t)?,
        503 => yield_curve::linear::discount_factor(times, rates, t)?,
        504 => yield_curve::linear::forward_rate(times, rates, t, float_at(case, 6))?,
        505 => yield_curve::linear::par_yield(times, rates, t)?,
        507 => yield_curve::nelson_siegel::yield_at(model_in(case), float_at(case, 9))?,
        508 => yield_curve::nelson_siegel::forward_rate(model_in(case), float_at(case, 9))?,
        509 => yield_curve::nelson_siegel::instantaneous_forward(model_in(case)),
        _ => return replaying::no_answer(),
    })
}
