// What every function over a swap and a curve asks first, of undated swaps and of dated ones.
ghost use Rattle.std.specs.Prelude.{◌≡◌, ◌||◌, [], ◌∷◌, ◌++◌};
ghost use Rattle.refusals.specs.Outcome.{line, judged};
ghost use Rattle.refusals.specs.Answers.{outcome};
ghost use Rattle.refusals.specs.Table.{bad_amount, bad_time, too_many_periods, bad_frequency, bad_dated_frequency, bad_number};
ghost use Rattle.curves.specs.Curve.{curve_lines};
ghost use Rattle.dates.specs.Answers.{dates_line};
ghost use Rattle.swaps.specs.Swap.{payments, swap_lines};
ghost use Rattle.swaps.specs.DatedSwap.{too_many_dated, uncoded_dated_lines, dated_lines};
ghost use Rattle.swaps.specs.Periods.{lines_of};

use crate::dated_periods::period_count;
use crate::periods::payments;
use crate::{AnySwap, DatedSwap, Swap};
use dates::counts::bad_dates;
use refusals::{Cause, Refusal, refuse};

// Line 7: a tenor that is not finite, or gives more than 1,200 payments.
#[tactic(auto, unfolding(refusals::specs::Table::too_many_periods))]
fn bad_tenor(swap: Swap) -> bool
    ensures { result ≡ (bad_time swap.tenor || too_many_periods (payments swap)) }
{
    curves::curve::bad_time(swap.tenor) || payments(swap) > 1200
}

// Line 8: a frequency of 0 or above 365.
#[tactic(auto, unfolding(refusals::specs::Table::bad_frequency))]
fn bad_frequency(frequency: u32) -> bool
    ensures { result ≡ bad_frequency frequency }
{
    frequency == 0 || frequency > 365
}

// Lines 7, 8 and 9, of whose causes the first two are known.
fn judge_terms(line7: bool, line8: bool, rate: f64) -> Result<(), Refusal>
    ensures { outcome result ≡ judged (line 7 line7 ∷ line 8 line8 ∷ line 9 (bad_number rate) ∷ []) tt }
{
    if line7 {
        return Err(refuse(Cause::Time));
    }
    if line8 {
        return Err(refuse(Cause::Frequency));
    }
    if refusals::bad_number(rate) {
        return Err(refuse(Cause::Number));
    }
    Ok(())
}

// Line 1 of the notional, lines 4, 5 and 6 of the curve, and then those.
fn judge_priced(
    notional: f64,
    tenors: &[f64],
    zeros: &[f64],
    line7: bool,
    line8: bool,
    rate: f64,
) -> Result<(), Refusal>
    ensures { outcome result ≡ judged (line 1 (bad_amount notional) ∷ curve_lines tenors.now zeros.now ++ line 7 line7 ∷ line 8 line8 ∷ line 9 (bad_number rate) ∷ []) tt }
{
    if refusals::bad_amount(notional) {
        return Err(refuse(Cause::Amount));
    }
    match curves::curve::judge_curve(tenors, zeros) {
        Err(refusal) => Err(refusal),
        Ok(()) => judge_terms(line7, line8, rate),
    }
}

pub fn judge_swap(swap: Swap, tenors: &[f64], zeros: &[f64]) -> Result<(), Refusal>
    ensures { outcome result ≡ judged (swap_lines swap tenors.now zeros.now) tt }
{
    let line7 = bad_tenor(swap);
    let line8 = bad_frequency(swap.frequency);
    judge_priced(swap.notional, tenors, zeros, line7, line8, swap.fixed_rate)
}

// Line 8, of a dated swap also: a frequency that does not divide 12.
#[tactic(auto, using(crate::proofs::DatedSpans::frequency_above_0), unfolding(refusals::specs::Table::bad_dated_frequency))]
fn bad_dated_frequency(frequency: u32) -> bool
    ensures { result ≡ bad_dated_frequency frequency }
{
    bad_frequency(frequency) || 12 % frequency != 0
}

// Line 7 of a dated swap: more than 1,200 periods, where its frequency and its dates make any.
#[tactic(auto, using(crate::proofs::DatedSpans::has_span, crate::proofs::DatedSpans::none_by_frequency, crate::proofs::DatedSpans::none_by_dates, crate::proofs::DatedSpans::by_count), unfolding(refusals::specs::Table::too_many_periods, crate::specs::Periods::of_dates))]
fn too_many_dated(swap: DatedSwap) -> bool
    ensures { result ≡ too_many_dated swap }
{
    !bad_dated_frequency(swap.frequency)
        && !bad_dates(swap.first, swap.second)
        && period_count(swap) > 1200
}

// Those of a dated swap and its curve, all but line 15.
pub fn judge_but_dates(swap: DatedSwap, tenors: &[f64], zeros: &[f64]) -> Result<(), Refusal>
    ensures { outcome result ≡ judged (uncoded_dated_lines swap tenors.now zeros.now) tt }
{
    let line7 = too_many_dated(swap);
    let line8 = bad_dated_frequency(swap.frequency);
    judge_priced(swap.notional, tenors, zeros, line7, line8, swap.fixed_rate)
}

// Line 15.
#[tactic(auto, using(refusals::proofs::OneCause::caused, refusals::proofs::OneCause::all_clear))]
fn judge_dates(swap: DatedSwap) -> Result<(), Refusal>
    ensures { outcome result ≡ judged (dates_line swap.first swap.second ∷ []) tt }
{
    if bad_dates(swap.first, swap.second) {
        return Err(refuse(Cause::Date));
    }
    Ok(())
}

// All lines of a dated swap.
fn judge_dated(swap: DatedSwap, tenors: &[f64], zeros: &[f64]) -> Result<(), Refusal>
    ensures { outcome result ≡ judged (dated_lines swap tenors.now zeros.now) tt }
{
    match judge_but_dates(swap, tenors, zeros) {
        Err(refusal) => Err(refusal),
        Ok(()) => judge_dates(swap),
    }
}

pub fn judge_any(swap: AnySwap, tenors: &[f64], zeros: &[f64]) -> Result<(), Refusal>
    ensures { outcome result ≡ judged (lines_of swap tenors.now zeros.now) tt }
{
    match swap {
        AnySwap::Undated(undated) => judge_swap(undated, tenors, zeros),
        AnySwap::Dated(dated) => judge_dated(dated, tenors, zeros),
    }
}
