// Nelson-Siegel fitted to a curve's points by least squares, at decay 0.5.
ghost use Rattle.std.specs.Prelude.{◌≡◌, ℕ, ◌<◌, ◌≤◌, length};
ghost use Rattle.std.specs.Float.{binary64};
ghost use Rattle.std.specs.Float.Ieee.{add, mul};
ghost use Rattle.numbers.specs.Literals.{one};
ghost use Rattle.elementary.specs.Exp.{exp};
ghost use Rattle.curves.specs.Segments.{knot};
ghost use Rattle.refusals.specs.Answers.{outcome};
ghost use Rattle.yield_curve.specs.Fit.{slope_at, hump_at, least_squares, fitted, fit};
ghost use Rattle.yield_curve.specs.inner.Loadings.{loading_exponent};

use crate::nelson_siegel::{Loadings, NelsonSiegel, loadings_by};
use crate::solve::{Equation, System};
use curves::curve::judge_curve;
use curves::segments::knot_at;
use elementary::exp::exp_each;
use refusals::Refusal;

fn exponent_at(t: f64) -> f64
    ensures { result ≡ loading_exponent t }
{
    if t < 1e-10 { 0.0 } else { -(t / 0.5) }
}

// The exponents of the points' loadings.
fn put_exponents(times: &[f64], room: &mut [f64])
    requires { length times.now ≤ length room.old }
    ensures { (i : ℕ) → i < length times.now → knot room.new i ≡ loading_exponent (knot times.now i) }
{
    for (i, &t) in times.iter().enumerate() {
        room[i] = exponent_at(t);
    }
}

// Their exps, eight at a time: some more places are taken, up to a whole eight.
fn put_decays(times: &[f64], room: &mut [f64])
    requires { (length times.now ≤ 120) × (length room.old ≡ 120) }
    ensures { (i : ℕ) → i < length times.now → knot room.new i ≡ exp (loading_exponent (knot times.now i)) }
{
    put_exponents(times, room);
    let eights = times.len().next_multiple_of(8);
    exp_each(&mut room[..eights]);
}

// The loadings of a point's time, by the exp that they take.
#[tactic(auto, unfolding(crate::specs::Fit::slope_at, crate::specs::Fit::hump_at))]
fn loadings_at(t: f64, left: f64) -> Loadings
    requires { left ≡ exp (loading_exponent t) }
    ensures { (result.slope ≡ slope_at t) × (result.hump ≡ hump_at t) }
{
    if t < 1e-10 {
        return Loadings {
            slope: 1.0,
            hump: 0.0,
        };
    }
    loadings_by(t / 0.5, left)
}

// An equation's sums with one point more, which has the loading g against the three.
fn with_point(e: Equation, g: f64, l: Loadings, rate: f64) -> Equation
    ensures { result ≡ record { x = add binary64 e.x (mul binary64 g one); y = add binary64 e.y (mul binary64 g l.slope); z = add binary64 e.z (mul binary64 g l.hump); is = add binary64 e.is (mul binary64 g rate) } }
{
    Equation {
        x: e.x + g * 1.0,
        y: e.y + g * l.slope,
        z: e.z + g * l.hump,
        is: e.is + g * rate,
    }
}

// The sums of all points, one after the other.
#[tactic(auto, using(crate::proofs::Points::point_by_point))]
fn least_squares(times: &[f64], rates: &[f64]) -> System
    requires { length times.now ≤ 120 }
    ensures { result ≡ least_squares times.now rates.now }
{
    let mut decays = [0.0; 120];
    put_decays(times, &mut decays);
    let none = Equation {
        x: 0.0,
        y: 0.0,
        z: 0.0,
        is: 0.0,
    };
    let mut first = none;
    let mut second = none;
    let mut third = none;
    for (i, &t) in times.iter().enumerate() {
        let rate = knot_at(rates, i);
        let l = loadings_at(t, decays[i]);
        first = with_point(first, 1.0, l, rate);
        second = with_point(second, l.slope, l, rate);
        third = with_point(third, l.hump, l, rate);
    }
    System {
        first,
        second,
        third,
    }
}

// The model of a curve of at most 120 points.
#[tactic(auto, unfolding(crate::specs::Fit::fitted))]
fn fit_points(times: &[f64], rates: &[f64]) -> NelsonSiegel
    requires { length times.now ≤ 120 }
    ensures { result ≡ fitted times.now rates.now }
{
    if times.len() == 1 {
        return NelsonSiegel {
            beta0: knot_at(rates, 0),
            beta1: 0.0,
            beta2: 0.0,
            decay: 0.5,
        };
    }
    let u = crate::solve::solve_system(least_squares(times, rates));
    NelsonSiegel {
        beta0: u.x,
        beta1: u.y,
        beta2: u.z,
        decay: 0.5,
    }
}

#[tactic(auto, using(refusals::proofs::Verdicts::accepted_by, curves::proofs::CurveLines::accepted_of_120), unfolding(crate::specs::Fit::fit))]
pub fn fit(times: &[f64], rates: &[f64]) -> Result<NelsonSiegel, Refusal>
    ensures { outcome result ≡ fit times.now rates.now }
{
    judge_curve(times, rates)?;
    Ok(fit_points(times, rates))
}
