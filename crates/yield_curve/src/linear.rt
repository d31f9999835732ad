// The yield curve: linear interpolation, discount factors, forward rates and par yields.
ghost use Rattle.std.specs.Prelude.{◌≡◌, ◌||◌, ℕ, suc, ◌+◌, ◌<◌, ◌≤◌, length, pos, Float};
ghost use Rattle.std.specs.Float.{binary64};
ghost use Rattle.std.specs.Float.Ieee.{mul, of_int};
ghost use Rattle.numbers.specs.Sums.{added_up};
ghost use Rattle.refusals.specs.Answers.{outcome};
ghost use Rattle.refusals.specs.Table.{bad_time, too_many_periods};
ghost use Rattle.curves.specs.Segments.{Rising, knot};
ghost use Rattle.yield_curve.specs.Linear.{yield_of, discount_of, forward_of, half_years, par_of, linear_interpolate, discount_factor, forward_rate, par_yield};

use curves::curve::{bad_time, judge_asked};
use curves::kinds::Kind;
use curves::runs::factors_after;
use numbers::sizes::absolute_value;
use refusals::Refusal;

// The yield at a time.
#[tactic(auto, using(crate::proofs::YieldKind::yield_on_lem))]
pub(crate) fn yield_of(times: &[f64], rates: &[f64], t: f64) -> f64
    requires { Rising times.now }
    ensures { result ≡ yield_of times.now rates.now t }
{
    curves::lookups::rate_of(Kind::YieldCurve, times, rates, t)
}

#[tactic(auto, using(crate::proofs::YieldKind::discount_on_lem))]
fn discount_of(times: &[f64], rates: &[f64], t: f64) -> f64
    requires { Rising times.now }
    ensures { result ≡ discount_of times.now rates.now t }
{
    curves::lookups::discount_of(Kind::YieldCurve, times, rates, t)
}

#[tactic(auto, unfolding(crate::specs::Linear::forward_of))]
fn forward_of(times: &[f64], rates: &[f64], t1: f64, t2: f64) -> f64
    requires { Rising times.now }
    ensures { result ≡ forward_of times.now rates.now t1 t2 }
{
    let y1 = yield_of(times, rates, t1);
    if absolute_value(t2 - t1) < 1e-12 {
        return y1;
    }
    (t2 * yield_of(times, rates, t2) - t1 * y1) / (t2 - t1)
}

#[tactic(auto, unfolding(crate::specs::Linear::half_years))]
fn half_years(t: f64) -> u32
    ensures { result ≡ half_years t }
{
    numbers::whole::nearest_whole(t * 2.0)
}

// At most 64 discount factors more, of the dates after the first ones.
fn add_run(times: &[f64], rates: &[f64], dt: f64, sum: f64, first: u32, count: usize) -> f64
    requires { (count ≤ 64) × (first + count < 4294967296) × Rising times.now × (sum ≡ added_up (λ (i : ℕ). discount_of times.now rates.now (mul binary64 (of_int binary64 (pos (suc i))) dt)) first) }
    ensures { result ≡ added_up (λ (i : ℕ). discount_of times.now rates.now (mul binary64 (of_int binary64 (pos (suc i))) dt)) (first + count) }
{
    let factors = factors_after(Kind::YieldCurve, dt, times, rates, first, count);
    factors[..count]
        .iter()
        .fold(sum, |sum, factor| sum + factor)
}

// The discount factors of so many dates, dt apart, added left to right from +0, 64 at a time.
#[tactic(auto, unfolding(numbers::specs::Sums::added_up))]
fn discount_sum(times: &[f64], rates: &[f64], dt: f64, count: u32) -> f64
    requires { Rising times.now }
    ensures { result ≡ added_up (λ (i : ℕ). discount_of times.now rates.now (mul binary64 (of_int binary64 (pos (suc i))) dt)) count }
{
    let mut sum = 0.0;
    for run in 0..count / 64 {
        sum = add_run(times, rates, dt, sum, run * 64, 64);
    }
    add_run(
        times,
        rates,
        dt,
        sum,
        count / 64 * 64,
        (count % 64) as usize,
    )
}

#[tactic(auto, using(crate::proofs::Pars::quotient), unfolding(crate::specs::Linear::par_of, crate::specs::Linear::half_year, crate::specs::Linear::discount_sum))]
fn par_of(times: &[f64], rates: &[f64], t: f64) -> f64
    requires { Rising times.now }
    ensures { result ≡ par_of times.now rates.now t }
{
    let count = half_years(t);
    if count == 0 {
        return yield_of(times, rates, t);
    }
    let dt = t / count as f64;
    let sum = discount_sum(times, rates, dt, count);
    if absolute_value(sum) < 1e-12 {
        return 0.0;
    }
    (1.0 - discount_of(times, rates, t)) / (dt * sum)
}

// Line 7, of either time of a forward.
fn bad_times(t1: f64, t2: f64) -> bool
    ensures { result ≡ (bad_time t1 || bad_time t2) }
{
    bad_time(t1) || bad_time(t2)
}

// Line 7, of a par yield's maturity.
#[tactic(auto, unfolding(refusals::specs::Table::too_many_periods))]
fn bad_maturity(t: f64) -> bool
    ensures { result ≡ (bad_time t || too_many_periods (half_years t)) }
{
    bad_time(t) || half_years(t) > 1200
}

#[tactic(auto, using(crate::proofs::YieldKind::asked_first), unfolding(crate::specs::Linear::linear_interpolate))]
pub fn linear_interpolate(times: &[f64], rates: &[f64], t: f64) -> Result<f64, Refusal>
    ensures { outcome result ≡ linear_interpolate times.now rates.now t }
{
    judge_asked(times, rates, bad_time(t))?;
    Ok(yield_of(times, rates, t))
}

#[tactic(auto, using(crate::proofs::YieldKind::asked_first), unfolding(crate::specs::Linear::discount_factor))]
pub fn discount_factor(times: &[f64], rates: &[f64], t: f64) -> Result<f64, Refusal>
    ensures { outcome result ≡ discount_factor times.now rates.now t }
{
    judge_asked(times, rates, bad_time(t))?;
    Ok(discount_of(times, rates, t))
}

#[tactic(auto, using(crate::proofs::YieldKind::asked_first), unfolding(crate::specs::Linear::forward_rate))]
pub fn forward_rate(times: &[f64], rates: &[f64], t1: f64, t2: f64) -> Result<f64, Refusal>
    ensures { outcome result ≡ forward_rate times.now rates.now t1 t2 }
{
    judge_asked(times, rates, bad_times(t1, t2))?;
    Ok(forward_of(times, rates, t1, t2))
}

#[tactic(auto, using(crate::proofs::YieldKind::asked_first), unfolding(crate::specs::Linear::par_yield))]
pub fn par_yield(times: &[f64], rates: &[f64], t: f64) -> Result<f64, Refusal>
    ensures { outcome result ≡ par_yield times.now rates.now t }
{
    judge_asked(times, rates, bad_maturity(t))?;
    Ok(par_of(times, rates, t))
}
