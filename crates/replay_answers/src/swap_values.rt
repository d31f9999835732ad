// Day counts, discount curves and swaps: notional, fixed rate, tenor, frequency, the day count's code, and who receives fixed.
use replaying::{Unanswered, float_at, whole_at, word_at};
use swaps::{AnySwap, Swap};

fn fraction(case: &[u8]) -> Result<f64, Unanswered> {
    let day_count = swaps::day_counts::day_count_of(crate::code_at(case, 5)?)?;
    Ok(swaps::day_counts::day_count_fraction(day_count, whole_at(case, 6)?))
}

fn swap_in(case: &[u8]) -> Result<AnySwap, Unanswered> {
    let day_count = swaps::day_counts::day_count_of(crate::code_at(case, 9)?)?;
    Ok(AnySwap::Undated(Swap {
        notional: float_at(case, 5),
        fixed_rate: float_at(case, 6),
        tenor: float_at(case, 7),
        frequency: whole_at(case, 8)?,
        day_count,
    }))
}

fn of_swap(question: u64, case: &[u8], tenors: &[f64], zeros: &[f64]) -> Result<f64, Unanswered> {
    let swap = swap_in(case)?;
    let receives_fixed = word_at(case, 10) != 0;
    Ok(match question {
        605 => swaps::legs::fixed_leg_pv(swap, tenors, zeros)?,
        606 => swaps::legs::floating_leg_pv(swap, tenors, zeros)?,
        607 => swaps::valuation::swap_npv(swap, tenors, zeros, receives_fixed)?,
        608 => swaps::valuation::par_swap_rate(swap, tenors, zeros)?,
        609 => swaps::valuation::swap_dv01(swap, tenors, zeros, receives_fixed)?,
        610 => swaps::valuation::swap_duration(swap, tenors, zeros)?,
        _ => return replaying::no_answer(),
    })
}

pub(crate) fn answer(
    question: u64,
    case: &[u8],
    tenors: &[f64],
    zeros: &[f64],
) -> Result<f64, Unanswered> {
    Ok(match question {
        601 => fraction(case)?,
        602 => swaps::discount::rate_at(tenors, zeros, float_at(case, 5))?,
        603 => swaps::discount::discount_factor(tenors, zeros, float_at(case, 5))?,
        _ => of_swap(question, case, tenors, zeros)?,
    })
}
