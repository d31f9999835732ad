// The two legs of a swap of either kind and the sums that all its values are made of, each discount factor worked out once.
ghost use Rattle.std.specs.Prelude.{◌≡◌, cond, List, ℕ, ◌+◌, ◌<◌, ◌≤◌, length, Float};
ghost use Rattle.std.specs.Float.Ieee.{eq};
ghost use Rattle.numbers.specs.Literals.{one};
ghost use Rattle.numbers.specs.Clamps.{plus_zero};
ghost use Rattle.refusals.specs.Answers.{outcome};
ghost use Rattle.curves.specs.Segments.{Rising};
ghost use Rattle.swaps.specs.Periods.{Terms, terms_of};
ghost use Rattle.swaps.specs.Valuation.{fixed_leg_pv, floating_leg_pv};
ghost use Rattle.swaps.specs.inner.Runs.{HasPeriods, Listed, FactorsOf, Summed, SummedOnBoth, LegsOn};

use crate::AnySwap;
use crate::discount::discount_of;
use crate::judging::judge_any;
use crate::runs::put_periods;
use crate::terms::{end, fixed_rate, notional, period_count};
use curves::each::discounts_onward;
use curves::kinds::Kind;
use refusals::Refusal;

// The sums over periods, without the notional: of the fixed leg, of the floating leg, of the discount factors in fractions of a year,
// and of the fixed leg with each payment times its date; and the discount factor at the end of the last of them.
#[derive(Clone, Copy)]
pub struct PaymentSums {
    pub fixed: f64,
    pub floating: f64,
    pub annuity: f64,
    pub timed: f64,
    pub last: f64,
}

// An amount, or 0 where its period counts no day.
fn counted(part: f64, amount: f64) -> f64
    ensures { result ≡ cond (eq part plus_zero) plus_zero amount }
{
    if part == 0.0 { 0.0 } else { amount }
}

// Periods whose times, fractions and discount factors are at hand, added one by one.
fn add_payments(
    notional: f64,
    rate: f64,
    before: PaymentSums,
    times: &[f64],
    fractions: &[f64],
    factors: &[f64],
) -> PaymentSums
    requires { (length fractions.now ≡ length times.now) × (length factors.now ≡ length times.now) }
    ensures { (t : Terms) (tenors zeros : List Float) (first : ℕ) → notional ≡ t.notional → rate ≡ t.rate → Listed t.periods first (length times.now) times.now fractions.now → FactorsOf t tenors zeros first (length times.now) factors.now → Summed t tenors zeros first before → Summed t tenors zeros (first + length times.now) result }
{
    let yearly = notional * rate;
    let mut sums = before;
    for ((&time, &part), &factor) in times.iter().zip(fractions).zip(factors) {
        let payment = yearly * part;
        let forward = (sums.last / factor - 1.0) / part;
        sums = PaymentSums {
            fixed: sums.fixed + counted(part, payment * factor),
            floating: sums.floating + counted(part, notional * forward * part * factor),
            annuity: sums.annuity + counted(part, factor * part),
            timed: sums.timed + counted(part, time * payment * factor),
            last: factor,
        };
    }
    sums
}

// At most 64 periods, whose times and fractions are at hand, on a curve.
fn add_on(
    swap: AnySwap,
    tenors: &[f64],
    zeros: &[f64],
    times: &[f64],
    fractions: &[f64],
    before: PaymentSums,
) -> PaymentSums
    requires { (length times.now ≤ 64) × Rising tenors.now × (length fractions.now ≡ length times.now) }
    ensures { (first : ℕ) → Listed (terms_of swap).periods first (length times.now) times.now fractions.now → Summed (terms_of swap) tenors.now zeros.now first before → Summed (terms_of swap) tenors.now zeros.now (first + length times.now) result }
{
    let count = times.len();
    let mut factors = [0.0; 64];
    factors[..count].copy_from_slice(times);
    discounts_onward(Kind::DiscountCurve, tenors, zeros, &mut factors[..count]);
    add_payments(
        notional(swap),
        fixed_rate(swap),
        before,
        times,
        fractions,
        &factors[..count],
    )
}

// The sums on a curve, and on another with the same tenors where that is asked for too.
#[derive(Clone, Copy)]
pub struct BothSums {
    pub base: PaymentSums,
    pub higher: PaymentSums,
}

// At most 64 periods after the first ones: each is worked out once for both curves.
fn add_run(
    swap: AnySwap,
    tenors: &[f64],
    zeros: &[f64],
    higher: &[f64],
    both: bool,
    sums: BothSums,
    first: u32,
    count: usize,
) -> BothSums
    requires { (count ≤ 64) × Rising tenors.now × HasPeriods swap × (first + count ≤ (terms_of swap).periods.count) × ((terms_of swap).periods.count < 4294967296) × SummedOnBoth (terms_of swap) tenors.now zeros.now higher.now both first sums }
    ensures { SummedOnBoth (terms_of swap) tenors.now zeros.now higher.now both (first + count) result }
{
    let mut times = [0.0; 64];
    let mut fractions = [0.0; 64];
    put_periods(swap, first, &mut times[..count], &mut fractions[..count]);
    let times = &times[..count];
    let fractions = &fractions[..count];
    BothSums {
        base: add_on(swap, tenors, zeros, times, fractions, sums.base),
        higher: if both {
            add_on(swap, tenors, higher, times, fractions, sums.higher)
        } else {
            sums.higher
        },
    }
}

fn no_payments() -> PaymentSums
    ensures { result ≡ record { fixed = plus_zero; floating = plus_zero; annuity = plus_zero; timed = plus_zero; last = one } }
{
    PaymentSums {
        fixed: 0.0,
        floating: 0.0,
        annuity: 0.0,
        timed: 0.0,
        last: 1.0,
    }
}

// All periods, 64 at a time.
fn payment_sums(
    swap: AnySwap,
    tenors: &[f64],
    zeros: &[f64],
    higher: &[f64],
    both: bool,
) -> BothSums
    requires { Rising tenors.now × HasPeriods swap }
    ensures { SummedOnBoth (terms_of swap) tenors.now zeros.now higher.now both (terms_of swap).periods.count result }
{
    let count = period_count(swap);
    let mut sums = BothSums {
        base: no_payments(),
        higher: no_payments(),
    };
    for k in (0..count).step_by(64) {
        let run = (count - k).min(64);
        sums = add_run(swap, tenors, zeros, higher, both, sums, k, run as usize);
    }
    sums
}

// The legs, with the notional at the end; the annuity; the fixed leg with each amount times its date; and the discount factor at the end.
#[derive(Clone, Copy)]
pub struct Legs {
    pub fixed: f64,
    pub floating: f64,
    pub annuity: f64,
    pub weighted: f64,
    pub last: f64,
}

// The legs that sums over all periods make.
fn legs_with(swap: AnySwap, tenors: &[f64], zeros: &[f64], sums: PaymentSums) -> Legs
    requires { Rising tenors.now × HasPeriods swap × Summed (terms_of swap) tenors.now zeros.now (terms_of swap).periods.count sums }
    ensures { LegsOn (terms_of swap) tenors.now zeros.now result }
{
    let principal = notional(swap);
    let time = end(swap);
    let last = discount_of(tenors, zeros, time);
    Legs {
        fixed: sums.fixed + principal * last,
        floating: sums.floating + principal * last,
        annuity: sums.annuity,
        weighted: sums.timed + time * principal * last,
        last,
    }
}

// The legs of a swap, whatever the zero rates are.
pub(crate) fn legs_of(swap: AnySwap, tenors: &[f64], zeros: &[f64]) -> Legs
    requires { Rising tenors.now × HasPeriods swap }
    ensures { LegsOn (terms_of swap) tenors.now zeros.now result }
{
    let sums = payment_sums(swap, tenors, zeros, zeros, false);
    let base = sums.base;
    legs_with(swap, tenors, zeros, base)
}

// The legs on two curves with the same tenors.
#[derive(Clone, Copy)]
pub struct BothLegs {
    pub base: Legs,
    pub higher: Legs,
}

pub(crate) fn both_legs_of(swap: AnySwap, tenors: &[f64], zeros: &[f64], higher: &[f64]) -> BothLegs
    requires { Rising tenors.now × HasPeriods swap }
    ensures { LegsOn (terms_of swap) tenors.now zeros.now result.base × LegsOn (terms_of swap) tenors.now higher.now result.higher }
{
    let sums = payment_sums(swap, tenors, zeros, higher, true);
    let base = sums.base;
    let other = sums.higher;
    BothLegs {
        base: legs_with(swap, tenors, zeros, base),
        higher: legs_with(swap, tenors, higher, other),
    }
}

pub fn fixed_leg_pv(swap: AnySwap, tenors: &[f64], zeros: &[f64]) -> Result<f64, Refusal>
    ensures { outcome result ≡ fixed_leg_pv swap tenors.now zeros.now }
{
    match judge_any(swap, tenors, zeros) {
        Err(refusal) => Err(refusal),
        Ok(()) => {
            let legs = legs_of(swap, tenors, zeros);
            Ok(legs.fixed)
        }
    }
}

pub fn floating_leg_pv(swap: AnySwap, tenors: &[f64], zeros: &[f64]) -> Result<f64, Refusal>
    ensures { outcome result ≡ floating_leg_pv swap tenors.now zeros.now }
{
    match judge_any(swap, tenors, zeros) {
        Err(refusal) => Err(refusal),
        Ok(()) => {
            let legs = legs_of(swap, tenors, zeros);
            Ok(legs.floating)
        }
    }
}
