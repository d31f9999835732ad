// Dated swaps: a swap comes as a kind 5 record, whose tenor is not read, its curve as tenors and zero rates.
ghost use Rattle.std.specs.Prelude.{◌≡◌};
ghost use Rattle.swaps.specs.Valuation.{fixed_leg_pv, floating_leg_pv, swap_npv, par_swap_rate, swap_dv01, swap_duration, value_swap};
ghost use Rattle.swaps.specs.declared.AnySwap.{AnySwap};
ghost use Rattle.refusals.specs.Outcome.{judged};
ghost use Rattle.refusals.specs.Table.{bad_code};
ghost use Rattle.swaps.specs.Codes.{last_code, day_count_at};
ghost use Rattle.swaps.specs.DatedSwap.{uncoded_dated_lines};
ghost use Rattle.senyolanda.specs.Told.{coded, told, told_number};
ghost use Rattle.refusals.specs.Answers.{outcome};
ghost use Rattle.senyolanda.specs.Swaps.{dated_by, dated_swap_of, dated_swap_read, of_dated_swap, is_true, valuation_numbers};

use crate::results::put;
use crate::swap_values::valuation_numbers;
use records::DatedSwapRecord;
use refusals::Refusal;
use swaps::day_counts::DayCount;
use swaps::judging::judge_but_dates;
use swaps::legs::{fixed_leg_pv, floating_leg_pv};
use swaps::valuation::{par_swap_rate, swap_duration, swap_dv01, swap_npv, value_swap};
use swaps::{AnySwap, DatedSwap};

fn dated_by(day_count: DayCount, fields: DatedSwapRecord) -> DatedSwap
    ensures { result ≡ dated_by day_count fields }
{
    DatedSwap {
        notional: fields.notional,
        fixed_rate: fields.rate,
        frequency: fields.frequency,
        first: fields.first,
        second: fields.second,
        day_count,
    }
}

// The day count of a dated swap, over a curve. A code outside its set waits for what else the swap and the curve are refused with, but goes before its dates.
fn day_count_in(fields: DatedSwapRecord, tenors: &[f64], zeros: &[f64]) -> Result<DayCount, Refusal>
    ensures { outcome result ≡ coded (bad_code last_code fields.count) (judged (uncoded_dated_lines (dated_swap_of fields) tenors.now zeros.now) tt) (day_count_at fields.count) }
{
    swaps::day_counts::day_count_of(fields.count).or_else(|unknown| {
        let swap = dated_by(DayCount::Thirty360, fields);
        judge_but_dates(swap, tenors, zeros).and(Err(unknown))
    })
}

// The swap of a record, over a curve.
#[tactic(auto, unfolding(crate::specs::Swaps::dated_swap_read))]
fn dated_swap_in(bytes: &[u8], tenors: &[f64], zeros: &[f64]) -> Result<AnySwap, Refusal>
    ensures { outcome result ≡ dated_swap_read bytes.now tenors.now zeros.now }
{
    let fields = records::dated_swap_record::read_dated_swap_uncoded(bytes)?;
    let day_count = day_count_in(fields, tenors, zeros)?;
    Ok(AnySwap::Dated(dated_by(day_count, fields)))
}

#[unsafe(no_mangle)]
pub extern "C" fn senyolanda_dated_fixed_leg_pv(
    record: &[u8],
    tenors: &[f64],
    zeros: &[f64],
    pv: &mut f64,
) -> u64
    ensures { (result, pv.new) ≡ told_number (of_dated_swap «record».now tenors.now zeros.now (λ (s : AnySwap). fixed_leg_pv s tenors.now zeros.now)) pv.old }
{
    let read = dated_swap_in(record, tenors, zeros);
    put(read.and_then(|swap| fixed_leg_pv(swap, tenors, zeros)), pv)
}

#[unsafe(no_mangle)]
pub extern "C" fn senyolanda_dated_floating_leg_pv(
    record: &[u8],
    tenors: &[f64],
    zeros: &[f64],
    pv: &mut f64,
) -> u64
    ensures { (result, pv.new) ≡ told_number (of_dated_swap «record».now tenors.now zeros.now (λ (s : AnySwap). floating_leg_pv s tenors.now zeros.now)) pv.old }
{
    let read = dated_swap_in(record, tenors, zeros);
    put(
        read.and_then(|swap| floating_leg_pv(swap, tenors, zeros)),
        pv,
    )
}

#[unsafe(no_mangle)]
pub extern "C" fn senyolanda_dated_swap_npv(
    record: &[u8],
    tenors: &[f64],
    zeros: &[f64],
    receive_fixed: u32,
    npv: &mut f64,
) -> u64
    ensures { (result, npv.new) ≡ told_number (of_dated_swap «record».now tenors.now zeros.now (λ (s : AnySwap). swap_npv s tenors.now zeros.now (is_true receive_fixed))) npv.old }
{
    let read = dated_swap_in(record, tenors, zeros);
    put(
        read.and_then(|swap| swap_npv(swap, tenors, zeros, receive_fixed != 0)),
        npv,
    )
}

#[unsafe(no_mangle)]
pub extern "C" fn senyolanda_dated_par_swap_rate(
    record: &[u8],
    tenors: &[f64],
    zeros: &[f64],
    rate: &mut f64,
) -> u64
    ensures { (result, rate.new) ≡ told_number (of_dated_swap «record».now tenors.now zeros.now (λ (s : AnySwap). par_swap_rate s tenors.now zeros.now)) rate.old }
{
    let read = dated_swap_in(record, tenors, zeros);
    put(
        read.and_then(|swap| par_swap_rate(swap, tenors, zeros)),
        rate,
    )
}

#[unsafe(no_mangle)]
pub extern "C" fn senyolanda_dated_swap_dv01(
    record: &[u8],
    tenors: &[f64],
    zeros: &[f64],
    receive_fixed: u32,
    dv01: &mut f64,
) -> u64
    ensures { (result, dv01.new) ≡ told_number (of_dated_swap «record».now tenors.now zeros.now (λ (s : AnySwap). swap_dv01 s tenors.now zeros.now (is_true receive_fixed))) dv01.old }
{
    let read = dated_swap_in(record, tenors, zeros);
    put(
        read.and_then(|swap| swap_dv01(swap, tenors, zeros, receive_fixed != 0)),
        dv01,
    )
}

#[unsafe(no_mangle)]
pub extern "C" fn senyolanda_dated_swap_duration(
    record: &[u8],
    tenors: &[f64],
    zeros: &[f64],
    duration: &mut f64,
) -> u64
    ensures { (result, duration.new) ≡ told_number (of_dated_swap «record».now tenors.now zeros.now (λ (s : AnySwap). swap_duration s tenors.now zeros.now)) duration.old }
{
    let read = dated_swap_in(record, tenors, zeros);
    put(
        read.and_then(|swap| swap_duration(swap, tenors, zeros)),
        duration,
    )
}

#[unsafe(no_mangle)]
pub extern "C" fn senyolanda_value_dated_swap(
    record: &[u8],
    tenors: &[f64],
    zeros: &[f64],
    receive_fixed: u32,
    valuation: &mut [f64; 6],
) -> u64
    ensures { (result, valuation.new) ≡ told valuation_numbers (of_dated_swap «record».now tenors.now zeros.now (λ (s : AnySwap). value_swap s tenors.now zeros.now (is_true receive_fixed))) valuation.old }
{
    let read = dated_swap_in(record, tenors, zeros);
    put(
        read.and_then(|swap| value_swap(swap, tenors, zeros, receive_fixed != 0))
            .map(valuation_numbers),
        valuation,
    )
}
