// A bond's cash flows, into two lent lists.
ghost use Rattle.std.specs.Prelude.{◌≡◌, cond, not, ◌&&◌, ◌||◌, [], ◌∷◌, ◌++◌, ℕ, ◌≤◌, eqb, pos, length, drop, Float};
ghost use Rattle.std.specs.Float.{binary64};
ghost use Rattle.std.specs.Float.Ieee.{add, mul, div, of_int};
ghost use Rattle.numbers.specs.Literals.{one};
ghost use Rattle.numbers.specs.Whole.{nearest_whole};
ghost use Rattle.refusals.specs.Outcome.{line, judged};
ghost use Rattle.refusals.specs.Table.{bad_amount, no_room_in_either, bad_time, too_many_periods, bad_number};
ghost use Rattle.refusals.specs.Answers.{outcome};
ghost use Rattle.spread_analytics.specs.Flows.{per_year, flow_time, flow_amount, bond_cash_flows, first_of, column_in};

use refusals::{Cause, Refusal, refuse};

// How many flows a year; a frequency of 0 is read as 1.
fn per_year(frequency: u32) -> f64
    ensures { result ≡ per_year frequency }
{
    frequency.max(1) as f64
}

// How many flows there are, to the nearest whole number, halves away from zero.
fn flow_count(tenor: f64, frequency: u32) -> u32
    ensures { result ≡ nearest_whole (mul binary64 tenor (per_year frequency)) }
{
    numbers::whole::nearest_whole(tenor * per_year(frequency))
}

fn flow_period(frequency: u32) -> f64
    ensures { result ≡ div binary64 one (per_year frequency) }
{
    1.0 / per_year(frequency)
}

fn flow_coupon(face: f64, coupon: f64, frequency: u32) -> f64
    ensures { result ≡ div binary64 (mul binary64 face coupon) (per_year frequency) }
{
    face * coupon / per_year(frequency)
}

// Line 7: a tenor that is not finite, or more than 1,200 flows.
#[tactic(auto, unfolding(refusals::specs::Table::too_many_periods))]
fn bad_flows(tenor: f64, count: u32) -> bool
    ensures { result ≡ (bad_time tenor || too_many_periods count) }
{
    curves::curve::bad_time(tenor) || count > 1200
}

// Line 3: fewer places in either list than flows.
#[tactic(auto, unfolding(refusals::specs::Table::no_room_in_either))]
fn too_little_room(count: u32, times: usize, amounts: usize) -> bool
    ensures { result ≡ no_room_in_either count times amounts }
{
    times < count as usize || amounts < count as usize
}

// Lines 1, 3, 7 and 9; 3 has no cause where 7 has one, so 7 is asked first.
fn judge_bond_flows(
    face: f64,
    coupon: f64,
    tenor: f64,
    count: u32,
    times: usize,
    amounts: usize,
) -> Result<(), Refusal>
    ensures { outcome result ≡ judged (line 1 (bad_amount face) ∷ line 3 (not (bad_time tenor || too_many_periods count) && no_room_in_either count times amounts) ∷ line 7 (bad_time tenor || too_many_periods count) ∷ line 9 (bad_number coupon) ∷ []) tt }
{
    if refusals::bad_amount(face) {
        return Err(refuse(Cause::Amount));
    }
    if bad_flows(tenor, count) {
        return Err(refuse(Cause::Time));
    }
    if too_little_room(count, times, amounts) {
        return Err(refuse(Cause::Room));
    }
    if refusals::bad_number(coupon) {
        return Err(refuse(Cause::Number));
    }
    Ok(())
}

// The amount of the flow i, of so many: the face with the last.
fn flow_amount(i: u32, count: u32, coupon: f64, face: f64) -> f64
    ensures { result ≡ cond (eqb i count) (add binary64 coupon face) coupon }
{
    if i == count { coupon + face } else { coupon }
}

// So many values from the first place on, each by its number, from 1.
fn put_each<F: Fn(u32) -> f64>(room: &mut [f64], count: u32, value: F)
    requires fits { count ≤ length room.old }
    requires callable { F.IsAlwaysCallable value }
    ensures { (g : ℕ → Float) → ((i : ℕ) (r : Float) → F.post value i r → r ≡ g i) → room.new ≡ first_of g count ++ drop count room.old }
{
    for i in 0..count {
        room[i as usize] = value(i + 1);
    }
}

// Writes the flows of a fixed-rate bond, and says how many they are.
pub fn bond_cash_flows(
    face: f64,
    coupon: f64,
    tenor: f64,
    frequency: u32,
    times: &mut [f64],
    amounts: &mut [f64],
) -> Result<u32, Refusal>
    ensures result_value { outcome result ≡ bond_cash_flows face coupon tenor frequency times.old amounts.old }
    ensures times_after { times.new ≡ column_in (bond_cash_flows face coupon tenor frequency times.old amounts.old) (flow_time face coupon tenor frequency) times.old }
    ensures amounts_after { amounts.new ≡ column_in (bond_cash_flows face coupon tenor frequency times.old amounts.old) (flow_amount face coupon tenor frequency) amounts.old }
{
    let count = flow_count(tenor, frequency);
    match judge_bond_flows(face, coupon, tenor, count, times.len(), amounts.len()) {
        Err(refusal) => Err(refusal),
        Ok(()) => {
            let period = flow_period(frequency);
            let paid = flow_coupon(face, coupon, frequency);
            put_each(times, count, |i| i as f64 * period);
            put_each(amounts, count, |i| flow_amount(i, count, paid, face));
            Ok(count)
        }
    }
}
