// The natural cubic spline through a curve's knots.
ghost use Rattle.std.specs.Prelude.{◌≡◌, cond, ℕ, suc, ◌<◌, ◌≤◌, length, slice_index_or};
ghost use Rattle.std.specs.Float.{nan, binary64};
ghost use Rattle.std.specs.Float.Ieee.{sub, lt};
ghost use Rattle.numbers.specs.Sizes.{absolute};
ghost use Rattle.refusals.specs.Answers.{outcome};
ghost use Rattle.curves.specs.Segments.{knot, Rising};
ghost use Rattle.yield_curve.specs.Spline.{guard, slope, bend, mu, z, c_at, cubic, spline_of, cubic_spline_interpolate};

use crate::linear::yield_of;
use curves::curve::{bad_time, judge_asked};
use curves::ending::segment;
use curves::segments::{knot_after, knot_at, last_knot, no_knot};
use numbers::sizes::absolute_value;
use refusals::Refusal;

// mu and z of one knot.
#[derive(Clone, Copy)]
pub struct Swept {
    pub mu: f64,
    pub z: f64,
}

// c of the two ends of a segment.
#[derive(Clone, Copy)]
pub struct Bends {
    pub here: f64,
    pub next: f64,
}

// How much a list rises from the knot i to the next.
fn rise(xs: &[f64], i: usize) -> f64
    ensures { result ≡ sub binary64 (knot xs.now (suc i)) (knot xs.now i) }
{
    knot_after(xs, i) - knot_at(xs, i)
}

#[tactic(auto, unfolding(crate::specs::Spline::slope, crate::specs::Spline::long))]
fn slope(times: &[f64], rates: &[f64], i: usize) -> f64
    ensures { result ≡ slope times.now rates.now i }
{
    rise(rates, i) / rise(times, i)
}

// How much the slope changes at the knot after i, three times.
#[tactic(auto, unfolding(crate::specs::Spline::bend))]
fn bend(times: &[f64], rates: &[f64], i: usize) -> f64
    requires { i < 120 }
    ensures { result ≡ bend times.now rates.now i }
{
    3.0 * (slope(times, rates, i + 1) - slope(times, rates, i))
}

// No pivot is nearer to zero than 1e-15.
fn guarded(x: f64) -> f64
    ensures { result ≡ cond (lt (absolute x) guard) guard x }
{
    if absolute_value(x) < 1e-15 { 1e-15 } else { x }
}

// The sweep up: mu and z of the knot after i, by those of i.
#[tactic(auto, unfolding(crate::specs::Spline::mu, crate::specs::Spline::z, crate::specs::Spline::pivot, crate::specs::Spline::guarded, crate::specs::Spline::long))]
fn sweep_next(times: &[f64], rates: &[f64], i: usize, s: Swept) -> Swept
    requires { (i < 120) × (s.mu ≡ mu times.now rates.now i) × (s.z ≡ z times.now rates.now i) }
    ensures { (result.mu ≡ mu times.now rates.now (suc i)) × (result.z ≡ z times.now rates.now (suc i)) }
{
    let h = rise(times, i);
    let p = guarded(2.0 * (knot_after(times, i + 1) - knot_at(times, i)) - h * s.mu);
    Swept {
        mu: rise(times, i + 1) / p,
        z: (bend(times, rates, i) - h * s.z) / p,
    }
}

// The whole sweep, from the first knot, where both are 0: mu and z of every knot but the last.
#[tactic(auto, unfolding(crate::specs::Spline::mu, crate::specs::Spline::z))]
fn sweep_up(times: &[f64], rates: &[f64]) -> [Swept; 120]
    requires { length times.now ≤ 120 }
    ensures len { length result ≡ 120 }
    ensures each { (i : ℕ) (none : Swept) → suc i < length times.now → ((slice_index_or result i none).mu ≡ mu times.now rates.now i) × ((slice_index_or result i none).z ≡ z times.now rates.now i) }
{
    let mut s = Swept { mu: 0.0, z: 0.0 };
    let mut swept = [s; 120];
    for i in 0..times.len().saturating_sub(2) {
        s = sweep_next(times, rates, i, s);
        swept[i + 1] = s;
    }
    swept
}

// The way down: c from the last knot, where it is 0, to the two ends of the segment i.
#[tactic(auto, using(crate::proofs::Splines::c_last))]
fn bends_on(times: &[f64], rates: &[f64], i: usize) -> Bends
    requires { (suc i < length times.now) × (length times.now ≤ 120) }
    ensures { (result.here ≡ c_at times.now rates.now i) × (result.next ≡ c_at times.now rates.now (suc i)) }
{
    let swept = sweep_up(times, rates);
    let mut c = 0.0;
    for k in (i + 1..times.len() - 1).rev() {
        c = swept[k].z - swept[k].mu * c;
    }
    Bends {
        here: swept[i].z - swept[i].mu * c,
        next: c,
    }
}

// a + b·dx + c·dx·dx + d·dx·dx·dx on the segment i.
#[tactic(auto, unfolding(crate::specs::Spline::cubic, crate::specs::Spline::b, crate::specs::Spline::d, crate::specs::Spline::long))]
fn cubic(times: &[f64], rates: &[f64], i: usize, t: f64) -> f64
    requires { (suc i < length times.now) × (length times.now ≤ 120) }
    ensures { result ≡ cubic times.now rates.now i (sub binary64 t (knot times.now i)) }
{
    let c = bends_on(times, rates, i);
    let h = rise(times, i);
    let b = slope(times, rates, i) - h * (c.next + 2.0 * c.here) / 3.0;
    let d = (c.next - c.here) / (3.0 * h);
    let dx = t - knot_at(times, i);
    knot_at(rates, i) + b * dx + c.here * dx * dx + d * dx * dx * dx
}

// The spline at a time, for at most 120 knots; fewer than three make a straight line.
#[tactic(auto, using(crate::proofs::Splines::no_segment), unfolding(crate::specs::Spline::spline_of, curves::specs::Segments::flat_outside))]
fn spline_of(times: &[f64], rates: &[f64], t: f64) -> f64
    requires { (length times.now ≤ 120) × Rising times.now }
    ensures { result ≡ spline_of times.now rates.now t }
{
    if times.len() < 3 {
        return yield_of(times, rates, t);
    }
    if t <= knot_at(times, 0) {
        return knot_at(rates, 0);
    }
    if last_knot(times) <= t {
        return last_knot(rates);
    }
    let i = segment(times, t);
    if i < times.len() - 1 {
        return cubic(times, rates, i, t);
    }
    no_knot()
}

#[tactic(auto, using(crate::proofs::YieldKind::asked_first), unfolding(crate::specs::Spline::cubic_spline_interpolate))]
pub fn cubic_spline_interpolate(times: &[f64], rates: &[f64], t: f64) -> Result<f64, Refusal>
    ensures { outcome result ≡ cubic_spline_interpolate times.now rates.now t }
{
    judge_asked(times, rates, bad_time(t))?;
    Ok(spline_of(times, rates, t))
}
