// A list of lookups on one curve: the curve and the times are judged once, and each time gives way to its answer.
ghost use Rattle.std.specs.Prelude.{◌≡◌, true, cond, [], ◌∷◌, map, ℕ, ◌<◌, ◌≤◌, ◌%◌, length, get_or, position};
ghost use Rattle.std.specs.Float.{nan};
ghost use Rattle.std.specs.Float.Ieee.{le};
ghost use Rattle.std.specs.Float.Ieee.Scale.{finite};
ghost use Rattle.refusals.specs.Outcome.{judged};
ghost use Rattle.refusals.specs.Answers.{outcome};
ghost use Rattle.refusals.specs.Table.{bad_time};
ghost use Rattle.refusals.specs.Places.{placed};
ghost use Rattle.curves.specs.Segments.{Rising};
ghost use Rattle.curves.specs.Kinds.{served_by, along, rate_on, discount_on};
ghost use Rattle.curves.specs.Lists.{each_outcome, each_after};
ghost use Rattle.curves.specs.inner.Kinds.{PastOn, EndsAre};
ghost use Rattle.curves.specs.inner.Exponents.{rate_or_exponent, answer_on};

use crate::curve::{bad_time, judge_curve};
use crate::formulas::along;
use crate::kinds::{Kind, eight_on, onward_on, passes_on, segment_on};
use crate::lookups::{exponent_at, rate_of};
use crate::segments::{Ends, Outside, ends_of, flat, inner_ends, outside_of};
use elementary::exp::exp_each;
use numbers::sizes::is_finite;
use refusals::{Cause, Refusal, refuse_at};

// Whether each is finite; all are asked alike, so that several are asked at once: `all` took a sixth longer.
pub fn all_finite(asked: &[f64]) -> bool
    ensures { (result ≡ true → (k : ℕ) → k < length asked.now → finite (get_or asked.now k nan) ≡ true) × (((k : ℕ) → k < length asked.now → finite (get_or asked.now k nan) ≡ true) → result ≡ true) }
{
    let mut faults = 0;
    for t in asked {
        faults += u64::from(!is_finite(*t));
    }
    faults == 0
}

fn first_bad_time(asked: &[f64]) -> Option<usize>
    ensures { result ≡ position bad_time asked.now }
{
    asked.iter().position(|t| bad_time(*t))
}

// Line 7, at the first time that is not finite.
#[tactic(auto, using(refusals::proofs::Placing::placed_by_position, crate::proofs::Listing::all_finite_accepted))]
fn judge_times(asked: &[f64]) -> Result<(), Refusal>
    ensures { outcome result ≡ placed (judged ((record { number = 7; causes = map bad_time asked.now }) ∷ []) tt) }
{
    if all_finite(asked) {
        return Ok(());
    }
    match first_bad_time(asked) {
        Some(i) => Err(refuse_at(Cause::Time, i)),
        None => Ok(()),
    }
}

// Lines 4, 5 and 6 of the curve, and then 7 of each time.
pub fn judge_each(times: &[f64], rates: &[f64], asked: &[f64]) -> Result<(), Refusal>
    ensures { outcome result ≡ each_outcome times.now rates.now asked.now }
{
    judge_curve(times, rates)?;
    judge_times(asked)
}

// A rate, or what the discount factor at its time is the exp of.
#[tactic(auto, unfolding(crate::specs::inner::Exponents::rate_or_exponent))]
fn rate_or_exponent(kind: Kind, exponent: bool, rate: f64, t: f64) -> f64
    ensures { result ≡ rate_or_exponent kind exponent rate t }
{
    if exponent {
        exponent_at(kind, rate, t)
    } else {
        rate
    }
}

// A time's answer, by the ends of the segment that serves it.
fn answer_along(kind: Kind, exponents: bool, outside: Outside, ends: Ends, t: f64) -> f64
    ensures { result ≡ rate_or_exponent kind exponents (cond (le t outside.first) outside.before (cond (le outside.last t) outside.after (along kind (record { t0 = ends.t0; t1 = ends.t1; r0 = ends.r0; r1 = ends.r1 }) t))) t }
{
    let rate = flat(outside, t, along(kind, ends, t));
    rate_or_exponent(kind, exponents, rate, t)
}

// Eight answers, by the segments that halving finds. It is asked for among all knots but the last, so that each segment has an end: past the last knot the curve is flat.
fn answer_eight(kind: Kind, exponents: bool, times: &[f64], rates: &[f64], asked: &mut [f64])
    requires { (length asked.old ≡ 8) × (2 ≤ length times.now) × (length times.now ≤ length rates.now) }
    ensures { Rising times.now → asked.new ≡ map (answer_on kind exponents times.now rates.now) asked.old }
{
    let inner = times.len() - 1;
    let segments = eight_on(kind, &times[..inner], asked);
    let outside = outside_of(times, rates);
    for (j, t) in asked.iter_mut().enumerate() {
        let ends = inner_ends(times, rates, segments[j]);
        *t = answer_along(kind, exponents, outside, ends, *t);
    }
}

// Answers one at a time.
fn answer_one_by_one(kind: Kind, exponents: bool, times: &[f64], rates: &[f64], asked: &mut [f64])
    ensures { Rising times.now → asked.new ≡ map (answer_on kind exponents times.now rates.now) asked.old }
{
    for t in asked.iter_mut() {
        *t = rate_or_exponent(kind, exponents, rate_of(kind, times, rates, *t), *t);
    }
}

// Up to eight answers at once, in room for eight.
fn answer_few(kind: Kind, exponents: bool, times: &[f64], rates: &[f64], asked: &mut [f64])
    requires { (length asked.old ≤ 8) × (2 ≤ length times.now) × (length times.now ≤ length rates.now) }
    ensures { Rising times.now → asked.new ≡ map (answer_on kind exponents times.now rates.now) asked.old }
{
    let mut room = [0.0; 8];
    let end = asked.len();
    room[..end].copy_from_slice(asked);
    answer_eight(kind, exponents, times, rates, &mut room);
    asked.copy_from_slice(&room[..end]);
}

// Fewer than eight: one or two are quicker one by one.
fn answer_last(kind: Kind, exponents: bool, times: &[f64], rates: &[f64], asked: &mut [f64])
    requires { (length asked.old ≤ 8) × (2 ≤ length times.now) × (length times.now ≤ length rates.now) }
    ensures { Rising times.now → asked.new ≡ map (answer_on kind exponents times.now rates.now) asked.old }
{
    if asked.len() <= 2 {
        answer_one_by_one(kind, exponents, times, rates, asked);
    } else {
        answer_few(kind, exponents, times, rates, asked);
    }
}

// Whole eights of answers.
fn answer_eights(kind: Kind, exponents: bool, times: &[f64], rates: &[f64], asked: &mut [f64])
    requires { (length asked.old % 8 ≡ 0) × (2 ≤ length times.now) × (length times.now ≤ length rates.now) }
    ensures { Rising times.now → asked.new ≡ map (answer_on kind exponents times.now rates.now) asked.old }
{
    for k in 0..asked.len() / 8 {
        let at = 8 * k;
        answer_eight(kind, exponents, times, rates, &mut asked[at..at + 8]);
    }
}

// All answers, eight at a time.
fn answer_in_eights(kind: Kind, exponents: bool, times: &[f64], rates: &[f64], asked: &mut [f64])
    requires { (2 ≤ length times.now) × (length times.now ≤ length rates.now) }
    ensures { Rising times.now → asked.new ≡ map (answer_on kind exponents times.now rates.now) asked.old }
{
    let end = asked.len() - asked.len() % 8;
    let (eights, last) = asked.split_at_mut(end);
    answer_eights(kind, exponents, times, rates, eights);
    answer_last(kind, exponents, times, rates, last);
}

// All answers; a curve of one knot has no segment to look for.
fn answer_each(kind: Kind, exponents: bool, times: &[f64], rates: &[f64], asked: &mut [f64])
    ensures { Rising times.now → asked.new ≡ map (answer_on kind exponents times.now rates.now) asked.old }
{
    if times.len() < 2 || rates.len() < times.len() {
        answer_one_by_one(kind, exponents, times, rates, asked);
    } else {
        answer_in_eights(kind, exponents, times, rates, asked);
    }
}

// The segment of a time, gone on to from that of an earlier one, else looked for anew.
fn next_segment(kind: Kind, times: &[f64], segment: usize, before: f64, t: f64) -> usize
    ensures { Rising times.now → PastOn kind times.now before segment → result ≡ served_by kind times.now t }
{
    if before < t {
        onward_on(kind, times, segment, t)
    } else {
        segment_on(kind, times, t)
    }
}

// The segment that serves a time, and its ends.
#[derive(Clone, Copy)]
pub(crate) struct InHand {
    pub time: f64,
    pub segment: usize,
    pub ends: Ends,
}

// The segment of the next time: the one in hand where it still serves, else the next to serve.
fn next_in_hand(kind: Kind, times: &[f64], rates: &[f64], hand: InHand, t: f64) -> InHand
    ensures { Rising times.now → PastOn kind times.now hand.time hand.segment → EndsAre times.now rates.now hand.segment hand.ends.t0 hand.ends.t1 hand.ends.r0 hand.ends.r1
        → (result.time ≡ t) × (result.segment ≡ served_by kind times.now t) × EndsAre times.now rates.now result.segment result.ends.t0 result.ends.t1 result.ends.r0 result.ends.r1 }
{
    if hand.time < t && passes_on(kind, t, hand.ends.t1) {
        return InHand { time: t, ..hand };
    }
    let segment = next_segment(kind, times, hand.segment, hand.time, t);
    InHand {
        time: t,
        segment,
        ends: ends_of(times, rates, segment),
    }
}

// All answers, each segment gone on to from the one before: for times that rise themselves.
fn answer_onward(kind: Kind, exponents: bool, times: &[f64], rates: &[f64], asked: &mut [f64])
    ensures { Rising times.now → asked.new ≡ map (answer_on kind exponents times.now rates.now) asked.old }
{
    let outside = outside_of(times, rates);
    let mut hand = InHand {
        time: 0.0,
        segment: 0,
        ends: ends_of(times, rates, 0),
    };
    for t in asked.iter_mut() {
        hand = next_in_hand(kind, times, rates, hand, *t);
        *t = answer_along(kind, exponents, outside, hand.ends, *t);
    }
}

// The rate at each time, on a curve whose times rise; quick where each is later than the one before, and right in any order.
#[tactic(auto, using(crate::proofs::Answers::rates_themselves))]
pub fn rates_onward(kind: Kind, times: &[f64], rates: &[f64], asked: &mut [f64])
    ensures { Rising times.now → asked.new ≡ map (rate_on kind times.now rates.now) asked.old }
{
    answer_onward(kind, false, times, rates, asked);
}

// The discount factor at each time, likewise.
#[tactic(auto, using(crate::proofs::Answers::exps_of_answers))]
pub fn discounts_onward(kind: Kind, times: &[f64], rates: &[f64], asked: &mut [f64])
    ensures { Rising times.now → asked.new ≡ map (discount_on kind times.now rates.now) asked.old }
{
    answer_onward(kind, true, times, rates, asked);
    exp_each(asked);
}

// The rate at each time, on a curve whose times rise.
#[tactic(auto, using(crate::proofs::Answers::rates_themselves))]
fn rates_of(kind: Kind, times: &[f64], rates: &[f64], asked: &mut [f64])
    ensures { Rising times.now → asked.new ≡ map (rate_on kind times.now rates.now) asked.old }
{
    answer_each(kind, false, times, rates, asked);
}

// The discount factor at each time, on a curve whose times rise.
#[tactic(auto, using(crate::proofs::Answers::exps_of_answers))]
fn discounts_of(kind: Kind, times: &[f64], rates: &[f64], asked: &mut [f64])
    ensures { Rising times.now → asked.new ≡ map (discount_on kind times.now rates.now) asked.old }
{
    answer_each(kind, true, times, rates, asked);
    exp_each(asked);
}

// The rate at each time.
pub fn rate_at_each(
    kind: Kind,
    times: &[f64],
    rates: &[f64],
    asked: &mut [f64],
) -> Result<(), Refusal>
    ensures { (outcome result ≡ each_outcome times.now rates.now asked.old) × (asked.new ≡ each_after (rate_on kind times.now rates.now) times.now rates.now asked.old) }
{
    judge_each(times, rates, asked)?;
    rates_of(kind, times, rates, asked);
    Ok(())
}

// The discount factor at each time.
pub fn discount_factor_at_each(
    kind: Kind,
    times: &[f64],
    rates: &[f64],
    asked: &mut [f64],
) -> Result<(), Refusal>
    ensures { (outcome result ≡ each_outcome times.now rates.now asked.old) × (asked.new ≡ each_after (discount_on kind times.now rates.now) times.now rates.now asked.old) }
{
    judge_each(times, rates, asked)?;
    discounts_of(kind, times, rates, asked);
    Ok(())
}
