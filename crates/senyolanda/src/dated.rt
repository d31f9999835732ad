// Cash flows as one lent list of dated amounts: time, amount, time, amount and so on.
ghost use Rattle.std.specs.Prelude.{◌≡◌, ◌≢◌, ◌/◌, ◌%◌, min, length, take, IsErrAnd};
ghost use Rattle.refusals.specs.declared.Refusal.{Refusal};
ghost use Rattle.refusals.specs.Answers.{number};
ghost use Rattle.spread_analytics.specs.Spread.{pv_cash_flows, z_spread, duration_convexity};
ghost use Rattle.senyolanda.specs.Told.{told, told_number};
ghost use Rattle.senyolanda.specs.Spreads.{spread_numbers, sensitivity_numbers};
ghost use Rattle.senyolanda.specs.Dated.{times_in, amounts_in};

use crate::results::put;
use crate::spreads::{put_spread, sensitivity_numbers};
use refusals::{Cause, Refusal};
use spread_analytics::spread::{duration_convexity, pv_cash_flows, z_spread};
use spread_analytics::units::BasisPoints;

// How many flows are looked at: one more than there may be shows that there are too many.
const LOOKED_AT: usize = 1201;

// The flows in two rooms, times and amounts: how many are looked at.
fn parted(flows: &[f64], times: &mut [f64; LOOKED_AT], amounts: &mut [f64; LOOKED_AT]) -> usize
    ensures value { result ≡ min (length flows.now / 2) 1201 }
    ensures times_after { take result times.new ≡ take result (times_in flows.now) }
    ensures amounts_after { take result amounts.new ≡ take result (amounts_in flows.now) }
{
    let n = LOOKED_AT.min(flows.len() / 2);
    for i in 0..n {
        times[i] = flows[2 * i];
        amounts[i] = flows[2 * i + 1];
    }
    n
}

// What is asked of the times and the amounts of flows; an odd count of numbers is line 4.
fn of_flows<T, F: FnOnce(&[f64], &[f64]) -> Result<T, Refusal>>(
    flows: &[f64],
    asked: F,
) -> Result<T, Refusal>
    requires { F.IsAlwaysCallable asked }
    ensures odd { length flows.now % 2 ≢ 0 → IsErrAnd result (λ (r : Refusal). (number r.cause ≡ 4) × (r.place ≡ 0)) }
    ensures even { length flows.now % 2 ≡ 0 → let n = min (length flows.now / 2) 1201 in ((times : _) × (amounts : _) × (times.now ≡ take n (times_in flows.now)) × (amounts.now ≡ take n (amounts_in flows.now)) × F.post asked times amounts result) }
{
    if flows.len() % 2 != 0 {
        return Err(refusals::refuse(Cause::Lengths));
    }
    let mut times = [0.0; LOOKED_AT];
    let mut amounts = [0.0; LOOKED_AT];
    let count = parted(flows, &mut times, &mut amounts);
    asked(&times[..count], &amounts[..count])
}

// The present value of flows over a curve and a spread.
#[unsafe(no_mangle)]
pub extern "C" fn senyolanda_dated_pv(
    flows: &[f64],
    tenors: &[f64],
    rates: &[f64],
    points: f64,
    pv: &mut f64,
) -> u64
    ensures { (result, pv.new) ≡ told_number (pv_cash_flows (times_in flows.now) (amounts_in flows.now) tenors.now rates.now points) pv.old }
{
    let spread = BasisPoints(points);
    let worth = of_flows(
        flows,
        |times, amounts| pv_cash_flows(times, amounts, tenors, rates, spread),
    );
    put(worth, pv)
}

// The spread at which flows are worth the market price, or the end nearer zero where there is none.
#[unsafe(no_mangle)]
pub extern "C" fn senyolanda_dated_z_spread(
    flows: &[f64],
    tenors: &[f64],
    rates: &[f64],
    market: f64,
    points: &mut f64,
    found: &mut u32,
) -> u64
    ensures { (result, (points.new, found.new)) ≡ told spread_numbers (z_spread (times_in flows.now) (amounts_in flows.now) tenors.now rates.now market) (points.old, found.old) }
{
    let spread = of_flows(
        flows,
        |times, amounts| z_spread(times, amounts, tenors, rates, market),
    );
    put_spread(spread, points, found)
}

// The duration and convexity of flows.
#[unsafe(no_mangle)]
pub extern "C" fn senyolanda_dated_duration_convexity(
    flows: &[f64],
    tenors: &[f64],
    rates: &[f64],
    points: f64,
    sensitivity: &mut [f64; 2],
) -> u64
    ensures { (result, sensitivity.new) ≡ told sensitivity_numbers (duration_convexity (times_in flows.now) (amounts_in flows.now) tenors.now rates.now points) sensitivity.old }
{
    let spread = BasisPoints(points);
    let given = of_flows(
        flows,
        |times, amounts| duration_convexity(times, amounts, tenors, rates, spread),
    );
    put(given.map(sensitivity_numbers), sensitivity)
}
