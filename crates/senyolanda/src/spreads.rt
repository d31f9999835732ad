// Spreads: curves of rates, cash flows as two lists, spreads in basis points.
ghost use Rattle.std.specs.Prelude.{◌≡◌};
ghost use Rattle.spread_analytics.specs.Units.{as_decimal};
ghost use Rattle.spread_analytics.specs.Curves.{rate_at, discount_factor, forward_rate};
ghost use Rattle.spread_analytics.specs.Flows.{bond_cash_flows, flow_time, flow_amount, column_in};
ghost use Rattle.refusals.specs.Answers.{outcome};
ghost use Rattle.spread_analytics.specs.Spread.{pv_cash_flows, z_spread, duration_convexity, spread_outcome};
ghost use Rattle.senyolanda.specs.Told.{always, told, told_number};
ghost use Rattle.senyolanda.specs.Spreads.{spread_numbers, sensitivity_numbers};

use crate::results::{ACCEPTED, put, put_two};
use refusals::Refusal;
use spread_analytics::spread::{Sensitivity, Spread};
use spread_analytics::units::BasisPoints;

// So many basis points, as a decimal rate.
#[unsafe(no_mangle)]
pub extern "C" fn senyolanda_points_to_decimal(points: f64, rate: &mut f64) -> u64
    ensures { (result, rate.new) ≡ always (as_decimal points) }
{
    *rate = spread_analytics::units::to_decimal(BasisPoints(points)).0;
    ACCEPTED
}

#[unsafe(no_mangle)]
pub extern "C" fn senyolanda_zero_curve_rate(
    tenors: &[f64],
    rates: &[f64],
    t: f64,
    rate: &mut f64,
) -> u64
    ensures { (result, rate.new) ≡ told_number (rate_at tenors.now rates.now t) rate.old }
{
    put(
        spread_analytics::rate_curves::rate_at(tenors, rates, t),
        rate,
    )
}

#[unsafe(no_mangle)]
pub extern "C" fn senyolanda_swap_curve_rate(
    tenors: &[f64],
    rates: &[f64],
    tenor: f64,
    rate: &mut f64,
) -> u64
    ensures { (result, rate.new) ≡ told_number (rate_at tenors.now rates.now tenor) rate.old }
{
    put(
        spread_analytics::rate_curves::swap_rate_at(tenors, rates, tenor),
        rate,
    )
}

#[unsafe(no_mangle)]
pub extern "C" fn senyolanda_zero_curve_discount_factor(
    tenors: &[f64],
    rates: &[f64],
    t: f64,
    factor: &mut f64,
) -> u64
    ensures { (result, factor.new) ≡ told_number (discount_factor tenors.now rates.now t) factor.old }
{
    put(
        spread_analytics::rate_curves::discount_factor(tenors, rates, t),
        factor,
    )
}

#[unsafe(no_mangle)]
pub extern "C" fn senyolanda_zero_curve_forward_rate(
    tenors: &[f64],
    rates: &[f64],
    t1: f64,
    t2: f64,
    rate: &mut f64,
) -> u64
    ensures { (result, rate.new) ≡ told_number (forward_rate tenors.now rates.now t1 t2) rate.old }
{
    put(
        spread_analytics::rate_curves::forward_rate(tenors, rates, t1, t2),
        rate,
    )
}

// Writes the times and amounts of a bond's flows, and says how many there are.
#[unsafe(no_mangle)]
pub extern "C" fn senyolanda_bond_cash_flows(
    face: f64,
    coupon: f64,
    tenor: f64,
    frequency: u32,
    times: &mut [f64],
    amounts: &mut [f64],
    flows: &mut u32,
) -> u64
    ensures flows_after { (result, flows.new) ≡ told_number (bond_cash_flows face coupon tenor frequency times.old amounts.old) flows.old }
    ensures times_after { times.new ≡ column_in (bond_cash_flows face coupon tenor frequency times.old amounts.old) (flow_time face coupon tenor frequency) times.old }
    ensures amounts_after { amounts.new ≡ column_in (bond_cash_flows face coupon tenor frequency times.old amounts.old) (flow_amount face coupon tenor frequency) amounts.old }
{
    let count = spread_analytics::flows::bond_cash_flows(
        face, coupon, tenor, frequency, times, amounts,
    );
    put(count, flows)
}

// A spread in points, and whether it was found.
fn spread_numbers(spread: Spread) -> (f64, u32)
    ensures { told spread_numbers (spread_outcome (Ok spread)) result ≡ always result }
{
    match spread {
        Spread::Found(at) => (at.0, 1),
        Spread::NoSignChange(nearer_end) => (nearer_end.0, 0),
    }
}

pub(crate) fn put_spread(answer: Result<Spread, Refusal>, points: &mut f64, found: &mut u32) -> u64
    ensures { (result, (points.new, found.new)) ≡ told spread_numbers (spread_outcome answer) (points.old, found.old) }
{
    put_two(answer.map(spread_numbers), points, found)
}

pub(crate) fn sensitivity_numbers(given: Sensitivity) -> [f64; 2]
    ensures { result ≡ sensitivity_numbers given }
{
    [given.duration, given.convexity]
}

// The present value of flows over a curve and a spread.
#[unsafe(no_mangle)]
pub extern "C" fn senyolanda_pv_cash_flows(
    times: &[f64],
    amounts: &[f64],
    tenors: &[f64],
    rates: &[f64],
    points: f64,
    pv: &mut f64,
) -> u64
    ensures { (result, pv.new) ≡ told_number (pv_cash_flows times.now amounts.now tenors.now rates.now points) pv.old }
{
    let spread = BasisPoints(points);
    put(
        spread_analytics::spread::pv_cash_flows(times, amounts, tenors, rates, spread),
        pv,
    )
}

// The spread at which flows are worth the market price, or the end nearer zero where there is none.
#[unsafe(no_mangle)]
pub extern "C" fn senyolanda_z_spread(
    times: &[f64],
    amounts: &[f64],
    tenors: &[f64],
    rates: &[f64],
    market: f64,
    points: &mut f64,
    found: &mut u32,
) -> u64
    ensures { (result, (points.new, found.new)) ≡ told spread_numbers (z_spread times.now amounts.now tenors.now rates.now market) (points.old, found.old) }
{
    let answer = spread_analytics::spread::z_spread(times, amounts, tenors, rates, market);
    put_spread(answer, points, found)
}

// The duration and convexity of flows.
#[unsafe(no_mangle)]
pub extern "C" fn senyolanda_duration_convexity(
    times: &[f64],
    amounts: &[f64],
    tenors: &[f64],
    rates: &[f64],
    points: f64,
    sensitivity: &mut [f64; 2],
) -> u64
    ensures { (result, sensitivity.new) ≡ told sensitivity_numbers (duration_convexity times.now amounts.now tenors.now rates.now points) sensitivity.old }
{
    let spread = BasisPoints(points);
    let given = spread_analytics::spread::duration_convexity(times, amounts, tenors, rates, spread);
    put(given.map(sensitivity_numbers), sensitivity)
}
