// Swaps: a swap comes as a kind 4 record, its curve as tenors and zero rates. What is asked of it is asked of a dated swap too.
ghost use Rattle.std.specs.Prelude.{◌≡◌};
ghost use Rattle.swaps.specs.Discount.{rate_at, discount_factor};
ghost use Rattle.swaps.specs.Bootstrap.{from_par_rates};
ghost use Rattle.refusals.specs.Answers.{outcome};
ghost use Rattle.swaps.specs.Valuation.{fixed_leg_pv, floating_leg_pv, swap_npv, par_swap_rate, swap_dv01, swap_duration, value_swap};
ghost use Rattle.swaps.specs.declared.AnySwap.{AnySwap};
ghost use Rattle.refusals.specs.Outcome.{judged};
ghost use Rattle.refusals.specs.Table.{bad_code};
ghost use Rattle.swaps.specs.Codes.{last_code, day_count_at};
ghost use Rattle.swaps.specs.Swap.{swap_lines};
ghost use Rattle.senyolanda.specs.Told.{coded, told, told_number};
ghost use Rattle.senyolanda.specs.Swaps.{counted_by, swap_of, swap_read, of_swap, is_true, fraction_of, valuation_numbers, zeros_over};

use crate::codes::day_count_of;
use crate::results::{ACCEPTED, put, refusal_result};
use records::SwapRecord;
use refusals::Refusal;
use swaps::day_counts::{DayCount, day_count_fraction};
use swaps::judging::judge_swap;
use swaps::legs::{fixed_leg_pv, floating_leg_pv};
use swaps::valuation::{
    SwapValuation, par_swap_rate, swap_duration, swap_dv01, swap_npv, value_swap,
};
use swaps::{AnySwap, Swap};

fn counted_by(day_count: DayCount, fields: SwapRecord) -> Swap
    ensures { result ≡ counted_by day_count fields }
{
    Swap {
        notional: fields.notional,
        fixed_rate: fields.rate,
        tenor: fields.tenor,
        frequency: fields.frequency,
        day_count,
    }
}

// The day count of a swap, over a curve. A code outside its set waits for what else the swap and the curve are refused with, which no day count changes.
fn day_count_in(fields: SwapRecord, tenors: &[f64], zeros: &[f64]) -> Result<DayCount, Refusal>
    ensures { outcome result ≡ coded (bad_code last_code fields.count) (judged (swap_lines (swap_of fields) tenors.now zeros.now) tt) (day_count_at fields.count) }
{
    swaps::day_counts::day_count_of(fields.count).or_else(|unknown| {
        let swap = counted_by(DayCount::Thirty360, fields);
        judge_swap(swap, tenors, zeros).and(Err(unknown))
    })
}

// The swap of a record, over a curve.
#[tactic(auto, unfolding(crate::specs::Swaps::swap_read))]
fn swap_in(bytes: &[u8], tenors: &[f64], zeros: &[f64]) -> Result<AnySwap, Refusal>
    ensures { outcome result ≡ swap_read bytes.now tenors.now zeros.now }
{
    let fields = records::swap_record::read_swap_uncoded(bytes)?;
    let day_count = day_count_in(fields, tenors, zeros)?;
    Ok(AnySwap::Undated(counted_by(day_count, fields)))
}

// So many days as a fraction of a year.
#[tactic(auto, unfolding(crate::specs::Told::told, crate::specs::Swaps::fraction_of))]
#[unsafe(no_mangle)]
pub extern "C" fn senyolanda_day_count_fraction(
    day_count: u32,
    days: u32,
    fraction: &mut f64,
) -> u64
    ensures { (result, fraction.new) ≡ told_number (fraction_of day_count days) fraction.old }
{
    put(
        day_count_of(day_count).map(|given| day_count_fraction(given, days)),
        fraction,
    )
}

// Zero rates from par rates, one for each tenor; places past the last knot stay.
#[unsafe(no_mangle)]
pub extern "C" fn senyolanda_bootstrap(
    tenors: &[f64],
    par_rates: &[f64],
    zero_rates: &mut [f64; 120],
) -> u64
    ensures { (result, zero_rates.new) ≡ told (zeros_over zero_rates.old) (from_par_rates tenors.now par_rates.now) zero_rates.old }
{
    let found = swaps::bootstrap::from_par_rates(tenors, par_rates);
    match found.verdict {
        Err(refusal) => refusal_result(refusal),
        Ok(()) => {
            let knots = found.curve.knots;
            zero_rates[..knots].copy_from_slice(&found.curve.zeros[..knots]);
            ACCEPTED
        }
    }
}

#[unsafe(no_mangle)]
pub extern "C" fn senyolanda_discount_curve_rate(
    tenors: &[f64],
    zeros: &[f64],
    t: f64,
    rate: &mut f64,
) -> u64
    ensures { (result, rate.new) ≡ told_number (rate_at tenors.now zeros.now t) rate.old }
{
    put(swaps::discount::rate_at(tenors, zeros, t), rate)
}

#[unsafe(no_mangle)]
pub extern "C" fn senyolanda_discount_curve_factor(
    tenors: &[f64],
    zeros: &[f64],
    t: f64,
    factor: &mut f64,
) -> u64
    ensures { (result, factor.new) ≡ told_number (discount_factor tenors.now zeros.now t) factor.old }
{
    put(swaps::discount::discount_factor(tenors, zeros, t), factor)
}

// Value, fixed leg, floating leg, par rate, value of a basis point, duration.
pub(crate) fn valuation_numbers(value: SwapValuation) -> [f64; 6]
    ensures { result ≡ valuation_numbers value }
{
    [
        value.npv,
        value.fixed_pv,
        value.floating_pv,
        value.par_rate,
        value.dv01,
        value.duration,
    ]
}

#[unsafe(no_mangle)]
pub extern "C" fn senyolanda_fixed_leg_pv(
    record: &[u8],
    tenors: &[f64],
    zeros: &[f64],
    pv: &mut f64,
) -> u64
    ensures { (result, pv.new) ≡ told_number (of_swap «record».now tenors.now zeros.now (λ (s : AnySwap). fixed_leg_pv s tenors.now zeros.now)) pv.old }
{
    let read = swap_in(record, tenors, zeros);
    put(read.and_then(|swap| fixed_leg_pv(swap, tenors, zeros)), pv)
}

#[unsafe(no_mangle)]
pub extern "C" fn senyolanda_floating_leg_pv(
    record: &[u8],
    tenors: &[f64],
    zeros: &[f64],
    pv: &mut f64,
) -> u64
    ensures { (result, pv.new) ≡ told_number (of_swap «record».now tenors.now zeros.now (λ (s : AnySwap). floating_leg_pv s tenors.now zeros.now)) pv.old }
{
    let read = swap_in(record, tenors, zeros);
    put(
        read.and_then(|swap| floating_leg_pv(swap, tenors, zeros)),
        pv,
    )
}

#[unsafe(no_mangle)]
pub extern "C" fn senyolanda_swap_npv(
    record: &[u8],
    tenors: &[f64],
    zeros: &[f64],
    receive_fixed: u32,
    npv: &mut f64,
) -> u64
    ensures { (result, npv.new) ≡ told_number (of_swap «record».now tenors.now zeros.now (λ (s : AnySwap). swap_npv s tenors.now zeros.now (is_true receive_fixed))) npv.old }
{
    let read = swap_in(record, tenors, zeros);
    put(
        read.and_then(|swap| swap_npv(swap, tenors, zeros, receive_fixed != 0)),
        npv,
    )
}

#[unsafe(no_mangle)]
pub extern "C" fn senyolanda_par_swap_rate(
    record: &[u8],
    tenors: &[f64],
    zeros: &[f64],
    rate: &mut f64,
) -> u64
    ensures { (result, rate.new) ≡ told_number (of_swap «record».now tenors.now zeros.now (λ (s : AnySwap). par_swap_rate s tenors.now zeros.now)) rate.old }
{
    let read = swap_in(record, tenors, zeros);
    put(
        read.and_then(|swap| par_swap_rate(swap, tenors, zeros)),
        rate,
    )
}

#[unsafe(no_mangle)]
pub extern "C" fn senyolanda_swap_dv01(
    record: &[u8],
    tenors: &[f64],
    zeros: &[f64],
    receive_fixed: u32,
    dv01: &mut f64,
) -> u64
    ensures { (result, dv01.new) ≡ told_number (of_swap «record».now tenors.now zeros.now (λ (s : AnySwap). swap_dv01 s tenors.now zeros.now (is_true receive_fixed))) dv01.old }
{
    let read = swap_in(record, tenors, zeros);
    put(
        read.and_then(|swap| swap_dv01(swap, tenors, zeros, receive_fixed != 0)),
        dv01,
    )
}

#[unsafe(no_mangle)]
pub extern "C" fn senyolanda_swap_duration(
    record: &[u8],
    tenors: &[f64],
    zeros: &[f64],
    duration: &mut f64,
) -> u64
    ensures { (result, duration.new) ≡ told_number (of_swap «record».now tenors.now zeros.now (λ (s : AnySwap). swap_duration s tenors.now zeros.now)) duration.old }
{
    let read = swap_in(record, tenors, zeros);
    put(
        read.and_then(|swap| swap_duration(swap, tenors, zeros)),
        duration,
    )
}

#[unsafe(no_mangle)]
pub extern "C" fn senyolanda_value_swap(
    record: &[u8],
    tenors: &[f64],
    zeros: &[f64],
    receive_fixed: u32,
    valuation: &mut [f64; 6],
) -> u64
    ensures { (result, valuation.new) ≡ told valuation_numbers (of_swap «record».now tenors.now zeros.now (λ (s : AnySwap). value_swap s tenors.now zeros.now (is_true receive_fixed))) valuation.old }
{
    let read = swap_in(record, tenors, zeros);
    put(
        read.and_then(|swap| value_swap(swap, tenors, zeros, receive_fixed != 0))
            .map(valuation_numbers),
        valuation,
    )
}
