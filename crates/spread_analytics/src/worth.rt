// What cash flows are worth over a curve and a spread: the curve's rates at the flows' times, their factors, and sums over them.
ghost use Rattle.std.specs.Prelude.{◌≡◌, List, ℕ, ◌+◌, ◌<◌, ◌≤◌, length, Float};
ghost use Rattle.std.specs.Float.{binary64};
ghost use Rattle.std.specs.Float.Ieee.{neg, add, mul};
ghost use Rattle.numbers.specs.Sums.{added_up};
ghost use Rattle.elementary.specs.Exp.{exp};
ghost use Rattle.curves.specs.Segments.{knot, Rising};
ghost use Rattle.spread_analytics.specs.Curves.{rate_of};
ghost use Rattle.spread_analytics.specs.Spread.{worth_of};

use crate::units::{BasisPoints, DecimalRate};
use curves::kinds::Kind;
use elementary::exp::exp_each;

// The curve's rates at the flows' times, kept so that they are looked up once.
pub(crate) fn keep_rates(times: &[f64], tenors: &[f64], rates: &[f64], kept: &mut [f64])
    requires { (length times.now ≤ length kept.old) × Rising tenors.now }
    ensures { (i : ℕ) → i < length times.now → knot kept.new i ≡ rate_of tenors.now rates.now (knot times.now i) }
{
    let count = times.len();
    kept[..count].copy_from_slice(times);
    curves::each::rates_onward(Kind::SpreadCurve, tenors, rates, &mut kept[..count]);
}

// What the factors are the exps of: the rate and the spread, negated, times the time.
fn put_exponents(times: &[f64], kept: &[f64], spread: DecimalRate, exponents: &mut [f64])
    requires { (length times.now ≤ length kept.now) × (length times.now ≤ length exponents.old) }
    ensures { (i : ℕ) → i < length times.now → knot exponents.new i ≡ mul binary64 (neg (add binary64 (knot kept.now i) spread.0)) (knot times.now i) }
{
    for (i, time) in times.iter().enumerate() {
        exponents[i] = -(kept[i] + spread.0) * *time;
    }
}

// The flows' factors at a spread over the kept rates.
pub(crate) fn put_factors(times: &[f64], kept: &[f64], spread: DecimalRate, factors: &mut [f64])
    requires { (length times.now ≤ length kept.now) × (length times.now ≤ length factors.old) }
    ensures { (i : ℕ) → i < length times.now → knot factors.new i ≡ exp (mul binary64 (neg (add binary64 (knot kept.now i) spread.0)) (knot times.now i)) }
{
    put_exponents(times, kept, spread, factors);
    let count = times.len();
    exp_each(&mut factors[..count]);
}

// The factors of at most 64 flows at a spread over the curve.
pub(crate) fn factors_of(
    times: &[f64],
    tenors: &[f64],
    rates: &[f64],
    spread: DecimalRate,
) -> [f64; 64]
    requires { (length times.now ≤ 64) × Rising tenors.now }
    ensures { (length result ≡ 64) × ((i : ℕ) → i < length times.now → knot result i ≡ exp (mul binary64 (neg (add binary64 (rate_of tenors.now rates.now (knot times.now i)) spread.0)) (knot times.now i))) }
{
    let mut kept = [0.0; 64];
    let mut factors = [0.0; 64];
    keep_rates(times, tenors, rates, &mut kept);
    put_factors(times, &kept, spread, &mut factors);
    factors
}

// The amounts times their factors, added left to right to the sum of the terms before.
pub(crate) fn discounted_on(amounts: &[f64], factors: &[f64], before: f64) -> f64
    requires { length amounts.now ≤ length factors.now }
    ensures { (term : ℕ → Float) (k : ℕ) → before ≡ added_up term k
        → ((i : ℕ) → i < length amounts.now → mul binary64 (knot amounts.now i) (knot factors.now i) ≡ term (k + i))
        → result ≡ added_up term (k + length amounts.now) }
{
    amounts
        .iter()
        .zip(factors)
        .fold(before, |sum, (amount, factor)| sum + amount * factor)
}

fn discounted_sum(amounts: &[f64], factors: &[f64]) -> f64
    requires { length amounts.now ≤ length factors.now }
    ensures { result ≡ added_up (λ (i : ℕ). mul binary64 (knot amounts.now i) (knot factors.now i)) (length amounts.now) }
{
    discounted_on(amounts, factors, 0.0)
}

// The worth, and the sums of time times amount and of time times time times amount, each times its factor.
#[derive(Clone, Copy)]
pub struct Sums {
    pub worth: f64,
    pub timed: f64,
    pub squared: f64,
}

// All three, each added left to right to the sum of the terms before.
pub(crate) fn sums_on(times: &[f64], amounts: &[f64], factors: &[f64], before: Sums) -> Sums
    requires { (length times.now ≡ length amounts.now) × (length times.now ≤ length factors.now) }
    ensures by_index { (term : ℕ → Float) (k : ℕ) → before.worth ≡ added_up term k
        → ((i : ℕ) → i < length times.now → mul binary64 (knot amounts.now i) (knot factors.now i) ≡ term (k + i))
        → result.worth ≡ added_up term (k + length times.now) }
    ensures by_index_2 { (term : ℕ → Float) (k : ℕ) → before.timed ≡ added_up term k
        → ((i : ℕ) → i < length times.now → mul binary64 (mul binary64 (knot times.now i) (knot amounts.now i)) (knot factors.now i) ≡ term (k + i))
        → result.timed ≡ added_up term (k + length times.now) }
    ensures by_index_3 { (term : ℕ → Float) (k : ℕ) → before.squared ≡ added_up term k
        → ((i : ℕ) → i < length times.now → mul binary64 (mul binary64 (mul binary64 (knot times.now i) (knot times.now i)) (knot amounts.now i)) (knot factors.now i) ≡ term (k + i))
        → result.squared ≡ added_up term (k + length times.now) }
{
    let mut sums = before;
    for ((time, amount), factor) in times.iter().zip(amounts).zip(factors) {
        sums.worth += amount * factor;
        sums.timed += time * amount * factor;
        sums.squared += time * time * amount * factor;
    }
    sums
}

// The worth at a spread over the kept rates, whatever curve they are of; the factors are worked out in the room.
pub(crate) fn worth_at(
    times: &[f64],
    amounts: &[f64],
    kept: &[f64],
    room: &mut [f64],
    spread: BasisPoints,
) -> f64
    requires { (length times.now ≡ length amounts.now) × (length times.now ≤ length kept.now) × (length times.now ≤ length room.old) }
    ensures { (tenors rates : List Float) → ((i : ℕ) → i < length times.now → knot kept.now i ≡ rate_of tenors rates (knot times.now i))
        → result ≡ worth_of times.now amounts.now tenors rates spread.0 }
{
    put_factors(times, kept, DecimalRate::from(spread), room);
    discounted_sum(amounts, room)
}
