// Yield curves: times and rates, lent as two lists.
ghost use Rattle.std.specs.Prelude.{◌≡◌};
ghost use Rattle.yield_curve.specs.Linear.{linear_interpolate, discount_factor, forward_rate, par_yield};
ghost use Rattle.yield_curve.specs.Spline.{cubic_spline_interpolate};
ghost use Rattle.senyolanda.specs.Told.{told_number};

use crate::results::put;

#[unsafe(no_mangle)]
pub extern "C" fn senyolanda_linear_interpolate(
    times: &[f64],
    rates: &[f64],
    t: f64,
    rate: &mut f64,
) -> u64
    ensures { (result, rate.new) ≡ told_number (linear_interpolate times.now rates.now t) rate.old }
{
    put(
        yield_curve::linear::linear_interpolate(times, rates, t),
        rate,
    )
}

// On the natural spline through the knots.
#[unsafe(no_mangle)]
pub extern "C" fn senyolanda_cubic_spline_interpolate(
    times: &[f64],
    rates: &[f64],
    t: f64,
    rate: &mut f64,
) -> u64
    ensures { (result, rate.new) ≡ told_number (cubic_spline_interpolate times.now rates.now t) rate.old }
{
    put(
        yield_curve::spline::cubic_spline_interpolate(times, rates, t),
        rate,
    )
}

#[unsafe(no_mangle)]
pub extern "C" fn senyolanda_yield_curve_discount_factor(
    times: &[f64],
    rates: &[f64],
    t: f64,
    factor: &mut f64,
) -> u64
    ensures { (result, factor.new) ≡ told_number (discount_factor times.now rates.now t) factor.old }
{
    put(
        yield_curve::linear::discount_factor(times, rates, t),
        factor,
    )
}

#[unsafe(no_mangle)]
pub extern "C" fn senyolanda_yield_curve_forward_rate(
    times: &[f64],
    rates: &[f64],
    t1: f64,
    t2: f64,
    rate: &mut f64,
) -> u64
    ensures { (result, rate.new) ≡ told_number (forward_rate times.now rates.now t1 t2) rate.old }
{
    put(
        yield_curve::linear::forward_rate(times, rates, t1, t2),
        rate,
    )
}

// The coupon, paid each half year, at which a bond is worth its face.
#[unsafe(no_mangle)]
pub extern "C" fn senyolanda_par_yield(times: &[f64], rates: &[f64], t: f64, par: &mut f64) -> u64
    ensures { (result, par.new) ≡ told_number (par_yield times.now rates.now t) par.old }
{
    put(yield_curve::linear::par_yield(times, rates, t), par)
}
