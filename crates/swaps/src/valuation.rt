// What a swap of either kind is worth on a curve, what a basis point changes, and a whole valuation.
ghost use Rattle.std.specs.Prelude.{◌≡◌, cond, ◌≤◌, length};
ghost use Rattle.std.specs.Float.{binary64};
ghost use Rattle.std.specs.Float.Ieee.{add, sub, div, eq};
ghost use Rattle.numbers.specs.Literals.{one};
ghost use Rattle.numbers.specs.Clamps.{plus_zero};
ghost use Rattle.refusals.specs.Answers.{outcome};
ghost use Rattle.curves.specs.Segments.{Rising};
ghost use Rattle.swaps.specs.Discount.{zero_rate_of};
ghost use Rattle.swaps.specs.Periods.{terms_of};
ghost use Rattle.swaps.specs.Valuation.{bumped, swap_npv, par_swap_rate, swap_dv01, swap_duration, valuation, value_swap};
ghost use Rattle.swaps.specs.inner.Runs.{HasPeriods, LegsOn};

use crate::AnySwap;
use crate::discount::zero_rate_of;
use crate::judging::judge_any;
use crate::legs::{BothLegs, Legs, both_legs_of, legs_of};
use crate::terms::{end, per_year};
use refusals::Refusal;

#[derive(Clone, Copy)]
pub struct SwapValuation {
    pub npv: f64,
    pub fixed_pv: f64,
    pub floating_pv: f64,
    pub par_rate: f64,
    pub dv01: f64,
    pub duration: f64,
}

// Fixed less floating for who receives fixed, else floating less fixed.
fn net(legs: Legs, receives_fixed: bool) -> f64
    ensures { result ≡ cond receives_fixed (sub binary64 legs.fixed legs.floating) (sub binary64 legs.floating legs.fixed) }
{
    if receives_fixed {
        legs.fixed - legs.floating
    } else {
        legs.floating - legs.fixed
    }
}

// The rate at which the legs are worth the same.
fn par_of(legs: Legs) -> f64
    ensures { result ≡ div binary64 (sub binary64 one legs.last) legs.annuity }
{
    (1.0 - legs.last) / legs.annuity
}

// The fixed leg's duration, 0 where the leg is worth nothing.
fn duration_of(swap: AnySwap, tenors: &[f64], zeros: &[f64], legs: Legs) -> f64
    requires { Rising tenors.now × HasPeriods swap }
    ensures { result ≡ cond (eq legs.fixed plus_zero) plus_zero (div binary64 (div binary64 legs.weighted legs.fixed) (add binary64 one (div binary64 (zero_rate_of tenors.now zeros.now (terms_of swap).periods.end) (terms_of swap).per_year))) }
{
    if legs.fixed == 0.0 {
        return 0.0;
    }
    legs.weighted / legs.fixed / (1.0 + zero_rate_of(tenors, zeros, end(swap)) / per_year(swap))
}

// Every zero rate a basis point higher.
#[tactic(auto, unfolding(crate::specs::Valuation::bumped))]
fn bump(zeros: &[f64], out: &mut [f64])
    requires { length zeros.now ≡ length out.old }
    ensures { out.new ≡ bumped zeros.now }
{
    for (i, zero) in zeros.iter().enumerate() {
        out[i] = zero + 0.0001;
    }
}

// The legs on the curve as it is, and where every zero rate is a basis point higher.
fn legs_with_bump(swap: AnySwap, tenors: &[f64], zeros: &[f64]) -> BothLegs
    requires { (length zeros.now ≤ 120) × Rising tenors.now × HasPeriods swap }
    ensures { LegsOn (terms_of swap) tenors.now zeros.now result.base × LegsOn (terms_of swap) tenors.now (bumped zeros.now) result.higher }
{
    let mut room = [0.0; 120];
    let n = zeros.len();
    bump(zeros, &mut room[..n]);
    both_legs_of(swap, tenors, zeros, &room[..n])
}

pub fn swap_npv(
    swap: AnySwap,
    tenors: &[f64],
    zeros: &[f64],
    receives_fixed: bool,
) -> Result<f64, Refusal>
    ensures { outcome result ≡ swap_npv swap tenors.now zeros.now receives_fixed }
{
    match judge_any(swap, tenors, zeros) {
        Err(refusal) => Err(refusal),
        Ok(()) => Ok(net(legs_of(swap, tenors, zeros), receives_fixed)),
    }
}

pub fn par_swap_rate(swap: AnySwap, tenors: &[f64], zeros: &[f64]) -> Result<f64, Refusal>
    ensures { outcome result ≡ par_swap_rate swap tenors.now zeros.now }
{
    match judge_any(swap, tenors, zeros) {
        Err(refusal) => Err(refusal),
        Ok(()) => Ok(par_of(legs_of(swap, tenors, zeros))),
    }
}

// What a basis point more in every zero rate changes the value by.
pub fn swap_dv01(
    swap: AnySwap,
    tenors: &[f64],
    zeros: &[f64],
    receives_fixed: bool,
) -> Result<f64, Refusal>
    ensures { outcome result ≡ swap_dv01 swap tenors.now zeros.now receives_fixed }
{
    match judge_any(swap, tenors, zeros) {
        Err(refusal) => Err(refusal),
        Ok(()) => {
            let both = legs_with_bump(swap, tenors, zeros);
            let base = both.base;
            let higher = both.higher;
            Ok(net(higher, receives_fixed) - net(base, receives_fixed))
        }
    }
}

pub fn swap_duration(swap: AnySwap, tenors: &[f64], zeros: &[f64]) -> Result<f64, Refusal>
    ensures { outcome result ≡ swap_duration swap tenors.now zeros.now }
{
    match judge_any(swap, tenors, zeros) {
        Err(refusal) => Err(refusal),
        Ok(()) => Ok(duration_of(swap, tenors, zeros, legs_of(swap, tenors, zeros))),
    }
}

fn valuation_of(swap: AnySwap, tenors: &[f64], zeros: &[f64], receives_fixed: bool) -> SwapValuation
    requires { (length zeros.now ≤ 120) × Rising tenors.now × HasPeriods swap }
    ensures { result ≡ valuation (terms_of swap) tenors.now zeros.now receives_fixed }
{
    let both = legs_with_bump(swap, tenors, zeros);
    let legs = both.base;
    let higher = both.higher;
    let npv = net(legs, receives_fixed);
    SwapValuation {
        npv,
        fixed_pv: legs.fixed,
        floating_pv: legs.floating,
        par_rate: par_of(legs),
        dv01: net(higher, receives_fixed) - npv,
        duration: duration_of(swap, tenors, zeros, legs),
    }
}

pub fn value_swap(
    swap: AnySwap,
    tenors: &[f64],
    zeros: &[f64],
    receives_fixed: bool,
) -> Result<SwapValuation, Refusal>
    ensures { outcome result ≡ value_swap swap tenors.now zeros.now receives_fixed }
{
    match judge_any(swap, tenors, zeros) {
        Err(refusal) => Err(refusal),
        Ok(()) => Ok(valuation_of(swap, tenors, zeros, receives_fixed)),
    }
}
