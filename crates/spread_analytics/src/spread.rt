// The present value of cash flows over a curve and a spread, and the spread that a market price implies.
ghost use Rattle.std.specs.Prelude.{◌≡◌, cond, List, ℕ, ◌+◌, ◌<◌, ◌≤◌, length, Float};
ghost use Rattle.std.specs.Float.{binary64};
ghost use Rattle.std.specs.Float.Ieee.{mul, lt};
ghost use Rattle.numbers.specs.Literals.{two_thousand, minus_five_hundred};
ghost use Rattle.numbers.specs.Sizes.{absolute};
ghost use Rattle.numbers.specs.Sums.{added_up};
ghost use Rattle.refusals.specs.Outcome.{accepted};
ghost use Rattle.refusals.specs.Answers.{outcome};
ghost use Rattle.curves.specs.Segments.{knot, Rising};
ghost use Rattle.spread_analytics.specs.Units.{as_decimal};
ghost use Rattle.spread_analytics.specs.Curves.{rate_of};
ghost use Rattle.spread_analytics.specs.Spread.{worth_of, pv_cash_flows, error_at, spread_within, spread_of, z_spread, spread_outcome};
ghost use Rattle.spread_analytics.specs.Spread.{factor_of, sensitivity_of, duration_convexity};

use crate::judging::judge_spread;
use crate::units::{BasisPoints, DecimalRate};
use crate::worth::{Sums, discounted_on, factors_of, keep_rates, sums_on, worth_at};
use numbers::sizes::absolute_value;
use refusals::Refusal;

const LOWEST: f64 = -500.0;

const HIGHEST: f64 = 2000.0;

#[derive(Clone, Copy)]
pub enum Spread {
    Found(BasisPoints),
    NoSignChange(BasisPoints),
}

#[derive(Clone, Copy)]
pub struct Sensitivity {
    pub duration: f64,
    pub convexity: f64,
}

// The worth at a spread over a curve, added on block by block, so that the factors need little room.
fn worth_of(
    times: &[f64],
    amounts: &[f64],
    tenors: &[f64],
    rates: &[f64],
    spread: BasisPoints,
) -> f64
    requires { (length times.now ≡ length amounts.now) × Rising tenors.now }
    ensures { result ≡ worth_of times.now amounts.now tenors.now rates.now spread.0 }
{
    let s = DecimalRate::from(spread);
    let mut worth = 0.0;
    for (block, due) in times.chunks(64).zip(amounts.chunks(64)) {
        let factors = factors_of(block, tenors, rates, s);
        worth = discounted_on(due, &factors, worth);
    }
    worth
}

pub fn pv_cash_flows(
    times: &[f64],
    amounts: &[f64],
    tenors: &[f64],
    rates: &[f64],
    spread: BasisPoints,
) -> Result<f64, Refusal>
    ensures { outcome result ≡ pv_cash_flows times.now amounts.now tenors.now rates.now spread.0 }
{
    match judge_spread(times, amounts, tenors, rates, false) {
        Err(refusal) => Err(refusal),
        Ok(()) => Ok(worth_of(times, amounts, tenors, rates, spread)),
    }
}

// The error of a spread: its worth less the market's.
fn error_at(
    times: &[f64],
    amounts: &[f64],
    kept: &[f64],
    room: &mut [f64],
    market: f64,
    spread: BasisPoints,
) -> f64
    requires { (length times.now ≡ length amounts.now) × (length times.now ≤ length kept.now) × (length times.now ≤ length room.old) }
    ensures { (tenors rates : List Float) → ((i : ℕ) → i < length times.now → knot kept.now i ≡ rate_of tenors rates (knot times.now i))
        → result ≡ error_at times.now amounts.now tenors rates market spread.0 }
{
    worth_at(times, amounts, kept, room, spread) - market
}

// The spread between the ends, by at most 100 halvings; the error at the lower end is kept.
fn spread_within(
    times: &[f64],
    amounts: &[f64],
    kept: &[f64],
    room: &mut [f64],
    market: f64,
    low: f64,
) -> BasisPoints
    requires { (length times.now ≡ length amounts.now) × (length times.now ≤ length kept.now) × (length times.now ≤ length room.old) }
    ensures { (tenors rates : List Float) → ((i : ℕ) → i < length times.now → knot kept.now i ≡ rate_of tenors rates (knot times.now i))
        → low ≡ error_at times.now amounts.now tenors rates market minus_five_hundred
        → result.0 ≡ spread_within times.now amounts.now tenors rates market 100 minus_five_hundred two_thousand }
{
    let mut lo = LOWEST;
    let mut hi = HIGHEST;
    let mut below = low;
    for _halving in 0..100u32 {
        let middle = (lo + hi) / 2.0;
        if absolute_value(hi - lo) < 1e-8 {
            return BasisPoints(middle);
        }
        let error = error_at(times, amounts, kept, room, market, BasisPoints(middle));
        if below * error <= 0.0 {
            hi = middle;
        } else {
            lo = middle;
            below = error;
        }
    }
    BasisPoints((lo + hi) / 2.0)
}

// The end with the smaller error.
fn nearer_end(low: f64, high: f64) -> BasisPoints
    ensures { result.0 ≡ cond (lt (absolute low) (absolute high)) minus_five_hundred two_thousand }
{
    if absolute_value(low) < absolute_value(high) {
        BasisPoints(LOWEST)
    } else {
        BasisPoints(HIGHEST)
    }
}

// The spread, whatever the flows and the curve are: where the end errors are on one side, the end nearer zero.
fn spread_of(
    times: &[f64],
    amounts: &[f64],
    tenors: &[f64],
    rates: &[f64],
    market: f64,
) -> Result<Spread, Refusal>
    requires { (length times.now ≡ length amounts.now) × (length times.now ≤ 1200) × Rising tenors.now }
    ensures { spread_outcome result ≡ accepted (spread_of times.now amounts.now tenors.now rates.now market) }
{
    let mut kept = [0.0; 1200];
    let mut room = [0.0; 1200];
    keep_rates(times, tenors, rates, &mut kept);
    let low = error_at(
        times,
        amounts,
        &kept,
        &mut room,
        market,
        BasisPoints(LOWEST),
    );
    let high = error_at(
        times,
        amounts,
        &kept,
        &mut room,
        market,
        BasisPoints(HIGHEST),
    );
    if low * high > 0.0 {
        return Ok(Spread::NoSignChange(nearer_end(low, high)));
    }
    Ok(Spread::Found(spread_within(times, amounts, &kept, &mut room, market, low)))
}

// The spread at which the flows are worth the market price.
pub fn z_spread(
    times: &[f64],
    amounts: &[f64],
    tenors: &[f64],
    rates: &[f64],
    market: f64,
) -> Result<Spread, Refusal>
    ensures { spread_outcome result ≡ z_spread times.now amounts.now tenors.now rates.now market }
{
    match judge_spread(times, amounts, tenors, rates, refusals::bad_number(market)) {
        Err(refusal) => Err(refusal),
        Ok(()) => spread_of(times, amounts, tenors, rates, market),
    }
}

// The three sums at a spread over a curve, added on block by block.
fn sums_over(
    times: &[f64],
    amounts: &[f64],
    tenors: &[f64],
    rates: &[f64],
    spread: BasisPoints,
) -> Sums
    requires { (length times.now ≡ length amounts.now) × Rising tenors.now }
    ensures worth_value { result.worth ≡ worth_of times.now amounts.now tenors.now rates.now spread.0 }
    ensures timed_value { result.timed ≡ added_up (λ (i : ℕ). mul binary64 (mul binary64 (knot times.now i) (knot amounts.now i)) (factor_of times.now amounts.now tenors.now rates.now (as_decimal spread.0) i)) (length times.now) }
    ensures squared_value { result.squared ≡ added_up (λ (i : ℕ). mul binary64 (mul binary64 (mul binary64 (knot times.now i) (knot times.now i)) (knot amounts.now i)) (factor_of times.now amounts.now tenors.now rates.now (as_decimal spread.0) i)) (length times.now) }
{
    let s = DecimalRate::from(spread);
    let mut sums = Sums {
        worth: 0.0,
        timed: 0.0,
        squared: 0.0,
    };
    for (block, due) in times.chunks(64).zip(amounts.chunks(64)) {
        let factors = factors_of(block, tenors, rates, s);
        sums = sums_on(block, due, &factors, sums);
    }
    sums
}

// Duration and convexity, whatever the flows and the curve are: 0 where the flows are worth next to nothing.
fn sensitivity_of(
    times: &[f64],
    amounts: &[f64],
    tenors: &[f64],
    rates: &[f64],
    spread: BasisPoints,
) -> Sensitivity
    requires { (length times.now ≡ length amounts.now) × Rising tenors.now }
    ensures { result ≡ sensitivity_of times.now amounts.now tenors.now rates.now spread.0 }
{
    let sums = sums_over(times, amounts, tenors, rates, spread);
    if absolute_value(sums.worth) < 1e-12 {
        return Sensitivity {
            duration: 0.0,
            convexity: 0.0,
        };
    }
    Sensitivity {
        duration: sums.timed / sums.worth,
        convexity: sums.squared / sums.worth,
    }
}

pub fn duration_convexity(
    times: &[f64],
    amounts: &[f64],
    tenors: &[f64],
    rates: &[f64],
    spread: BasisPoints,
) -> Result<Sensitivity, Refusal>
    ensures { outcome result ≡ duration_convexity times.now amounts.now tenors.now rates.now spread.0 }
{
    match judge_spread(times, amounts, tenors, rates, false) {
        Err(refusal) => Err(refusal),
        Ok(()) => Ok(sensitivity_of(times, amounts, tenors, rates, spread)),
    }
}
