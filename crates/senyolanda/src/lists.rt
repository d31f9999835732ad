// Many times asked of one curve: the curve is tested once, and each time of the list gives way to its answer.
ghost use Rattle.std.specs.Prelude.{◌≡◌};
ghost use Rattle.curves.specs.Lists.{each_outcome, each_after};
ghost use Rattle.yield_curve.specs.Linear.{yield_of};
ghost use Rattle.yield_curve.specs.Linear.{discount_of as yield_discount_of};
ghost use Rattle.swaps.specs.Discount.{zero_rate_of};
ghost use Rattle.swaps.specs.Discount.{discount_of as swap_discount_of};
ghost use Rattle.spread_analytics.specs.Curves.{rate_of};
ghost use Rattle.spread_analytics.specs.Curves.{discount_of as zero_discount_of};
ghost use Rattle.senyolanda.specs.Told.{told_number};

use crate::results::verdict_result;

// A yield curve's rates.
#[unsafe(no_mangle)]
pub extern "C" fn senyolanda_linear_interpolate_each(
    times: &[f64],
    rates: &[f64],
    asked: &mut [f64],
) -> u64
    ensures tt_value { (result, tt) ≡ told_number (each_outcome times.now rates.now asked.old) tt }
    ensures asked_after { asked.new ≡ each_after (yield_of times.now rates.now) times.now rates.now asked.old }
{
    verdict_result(yield_curve::each::rate_at_each(times, rates, asked))
}

// A yield curve's discount factors.
#[unsafe(no_mangle)]
pub extern "C" fn senyolanda_yield_curve_discount_factor_each(
    times: &[f64],
    rates: &[f64],
    asked: &mut [f64],
) -> u64
    ensures tt_value { (result, tt) ≡ told_number (each_outcome times.now rates.now asked.old) tt }
    ensures asked_after { asked.new ≡ each_after (yield_discount_of times.now rates.now) times.now rates.now asked.old }
{
    verdict_result(yield_curve::each::discount_factor_at_each(times, rates, asked))
}

// A discount curve's zero rates.
#[unsafe(no_mangle)]
pub extern "C" fn senyolanda_discount_curve_rate_each(
    tenors: &[f64],
    zeros: &[f64],
    asked: &mut [f64],
) -> u64
    ensures tt_value { (result, tt) ≡ told_number (each_outcome tenors.now zeros.now asked.old) tt }
    ensures asked_after { asked.new ≡ each_after (zero_rate_of tenors.now zeros.now) tenors.now zeros.now asked.old }
{
    verdict_result(swaps::discount_each::rate_at_each(tenors, zeros, asked))
}

// A discount curve's factors.
#[unsafe(no_mangle)]
pub extern "C" fn senyolanda_discount_curve_factor_each(
    tenors: &[f64],
    zeros: &[f64],
    asked: &mut [f64],
) -> u64
    ensures tt_value { (result, tt) ≡ told_number (each_outcome tenors.now zeros.now asked.old) tt }
    ensures asked_after { asked.new ≡ each_after (swap_discount_of tenors.now zeros.now) tenors.now zeros.now asked.old }
{
    verdict_result(swaps::discount_each::discount_factor_at_each(tenors, zeros, asked))
}

// A zero rate curve's rates.
#[unsafe(no_mangle)]
pub extern "C" fn senyolanda_zero_curve_rate_each(
    tenors: &[f64],
    rates: &[f64],
    asked: &mut [f64],
) -> u64
    ensures tt_value { (result, tt) ≡ told_number (each_outcome tenors.now rates.now asked.old) tt }
    ensures asked_after { asked.new ≡ each_after (rate_of tenors.now rates.now) tenors.now rates.now asked.old }
{
    verdict_result(spread_analytics::curves_each::rate_at_each(tenors, rates, asked))
}

// A swap rate curve's rates, which are read alike.
#[unsafe(no_mangle)]
pub extern "C" fn senyolanda_swap_curve_rate_each(
    tenors: &[f64],
    rates: &[f64],
    asked: &mut [f64],
) -> u64
    ensures tt_value { (result, tt) ≡ told_number (each_outcome tenors.now rates.now asked.old) tt }
    ensures asked_after { asked.new ≡ each_after (rate_of tenors.now rates.now) tenors.now rates.now asked.old }
{
    verdict_result(spread_analytics::curves_each::rate_at_each(tenors, rates, asked))
}

// A zero rate curve's discount factors.
#[unsafe(no_mangle)]
pub extern "C" fn senyolanda_zero_curve_discount_factor_each(
    tenors: &[f64],
    rates: &[f64],
    asked: &mut [f64],
) -> u64
    ensures tt_value { (result, tt) ≡ told_number (each_outcome tenors.now rates.now asked.old) tt }
    ensures asked_after { asked.new ≡ each_after (zero_discount_of tenors.now rates.now) tenors.now rates.now asked.old }
{
    verdict_result(spread_analytics::curves_each::discount_factor_at_each(tenors, rates, asked))
}
