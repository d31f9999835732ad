// What every function over a curve asks first: the two lists, and then what is asked of them.
ghost use Rattle.std.specs.Prelude.{◌≡◌, true, not, ◌||◌, [], ◌∷◌, ◌++◌, ℕ, suc, ◌<◌, ◌≤◌, length};
ghost use Rattle.std.specs.Float.Ieee.{lt};
ghost use Rattle.std.specs.Float.Ieee.Scale.{finite};
ghost use Rattle.refusals.specs.Outcome.{Outcome, accepted, line, judged};
ghost use Rattle.refusals.specs.Answers.{outcome};
ghost use Rattle.refusals.specs.Table.{bad_knot_count, bad_knot, bad_knots, bad_time};
ghost use Rattle.curves.specs.Segments.{knot};
ghost use Rattle.curves.specs.Curve.{curve_lines};

use numbers::sizes::is_finite;
use refusals::{Cause, Refusal, refuse};

// Line 5: no knot, or more than 120.
#[tactic(auto, unfolding(refusals::specs::Table::bad_knot_count))]
pub fn bad_knot_count(count: usize) -> bool
    ensures { result ≡ bad_knot_count count }
{
    count == 0 || count > 120
}

// Line 6, of one knot by itself.
#[tactic(auto, unfolding(refusals::specs::Table::bad_knot))]
pub fn bad_knot(time: f64, rate: f64) -> bool
    ensures { result ≡ bad_knot time rate }
{
    !is_finite(time) || !is_finite(rate) || time < 0.0
}

// Line 6, of a knot and the time before it.
pub fn bad_knot_after(before: f64, time: f64, rate: f64) -> bool
    ensures { result ≡ (bad_knot time rate || not (lt before time)) }
{
    bad_knot(time, rate) || !(before < time)
}

// Line 7, of one time.
#[tactic(auto, unfolding(refusals::specs::Table::bad_time))]
pub fn bad_time(t: f64) -> bool
    ensures { result ≡ bad_time t }
{
    !is_finite(t)
}

// Whether each knot after the first is later than the one before and has a finite rate; all are asked alike, so that several are asked at once.
fn no_faults(times: &[f64], rates: &[f64]) -> bool
    requires { (length times.now ≡ length rates.now) × (length times.now ≤ 120) × (0 < length times.now) }
    ensures { result ≡ true → (k : ℕ) → suc k < length times.now → (lt (knot times.now k) (knot times.now (suc k)) ≡ true) × (finite (knot rates.now (suc k)) ≡ true) }
{
    let mut faults = 0;
    for i in 1..times.len() {
        let is_later = times[i - 1] < times[i];
        faults += u64::from(!is_later) + u64::from(!is_finite(rates[i]));
    }
    faults == 0
}

// Whether times rise from zero or above to a finite one, with finite rates: then line 6 has no cause.
#[tactic(auto, using(crate::proofs::InOrder::in_order, numbers::proofs::Comparing::not_above_lem))]
fn all_in_order(times: &[f64], rates: &[f64]) -> bool
    requires { (length times.now ≡ length rates.now) × (length times.now ≤ 120) × (0 < length times.now) }
    ensures { result ≡ true → ◌≡◌ {A = Outcome Unit} (judged ((record { number = 6; causes = bad_knots times.now rates.now }) ∷ []) tt) (accepted tt) }
{
    times[0] >= 0.0
        && is_finite(rates[0])
        && times[times.len() - 1] < f64::INFINITY
        && no_faults(times, rates)
}

// Line 6, at the first bad knot; -infinity stands before the first of all.
#[tactic(auto, using(crate::proofs::KnotLine::knot_by_knot))]
pub(crate) fn judge_knots(times: &[f64], rates: &[f64]) -> Result<(), Refusal>
    requires { (length times.now ≡ length rates.now) × (length times.now ≤ 120) }
    ensures { outcome result ≡ judged ((record { number = 6; causes = bad_knots times.now rates.now }) ∷ []) tt }
{
    let mut before = f64::NEG_INFINITY;
    for (i, &time) in times.iter().enumerate() {
        if bad_knot_after(before, time, rates[i]) {
            return Err(Refusal {
                cause: Cause::Knot,
                place: i as u32,
            });
        }
        before = time;
    }
    Ok(())
}

// Lines 4, 5 and 6.
#[tactic(auto, using(crate::proofs::CurveLines::line_by_line))]
pub fn judge_curve(times: &[f64], rates: &[f64]) -> Result<(), Refusal>
    ensures { outcome result ≡ judged (curve_lines times.now rates.now) tt }
{
    if times.len() != rates.len() {
        return Err(refuse(Cause::Lengths));
    }
    if bad_knot_count(times.len()) {
        return Err(refuse(Cause::KnotCount));
    }
    if all_in_order(times, rates) {
        return Ok(());
    }
    judge_knots(times, rates)
}

// Lines 4, 5 and 6, and then 7 where what is asked of the curve is bad.
#[tactic(auto, using(crate::proofs::CurveLines::line_after_them))]
pub fn judge_asked(times: &[f64], rates: &[f64], bad: bool) -> Result<(), Refusal>
    ensures { outcome result ≡ judged (curve_lines times.now rates.now ++ line 7 bad ∷ []) tt }
{
    judge_curve(times, rates)?;
    if bad {
        return Err(refuse(Cause::Time));
    }
    Ok(())
}
