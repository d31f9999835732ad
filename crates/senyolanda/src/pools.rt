// Pools: loans are lent as kind 1 records end to end; a prepayment speed is a code, its number, and a history beside it.
ghost use Rattle.std.specs.Prelude.{◌≡◌, false, ◌&&◌, length, ℕ, Float};
ghost use Rattle.refusals.specs.Outcome.{and_then};
ghost use Rattle.pool.specs.declared.speed.Speed.{Speed};
ghost use Rattle.refusals.specs.Places.{placed};
ghost use Rattle.pool.specs.Flows.{too_little};
ghost use Rattle.pool.specs.Price.{pool_price, pool_duration, pool_convexity};
ghost use Rattle.pool.specs.Totals.{pool_totals};
ghost use Rattle.senyolanda.specs.Told.{told, told_number};
ghost use Rattle.refusals.specs.Answers.{outcome};
ghost use Rattle.senyolanda.specs.Pools.{speed_of, speed_for, smm_of, months_of, room_after, totals_numbers};

use crate::results::{ACCEPTED, put, refusal_result};
use pool::speed::Speed;
use pool::totals::Totals;
use refusals::{Cause, Refusal};

// The speed of a code: 0 CPR, 1 PSA, 2 a history.
#[tactic(auto, unfolding(crate::specs::Pools::speed_of, crate::specs::Pools::speed_at, refusals::specs::Table::bad_code, refusals::specs::Outcome::judged, refusals::specs::Outcome::first_or))]
fn speed_of(code: u32, number: f64) -> Result<Speed, Refusal>
    ensures { outcome result ≡ speed_of code number }
{
    match code {
        0 => Ok(Speed::Cpr(number)),
        1 => Ok(Speed::Psa(number)),
        2 => Ok(Speed::History),
        _ => Err(refusals::refuse(Cause::Record)),
    }
}

// What a pool with an unknown speed code is refused with. The code waits for what else the pool is refused with, but goes before a bad record: both are 11, and
// a single argument counts before a list item.
fn refusal_beside(unknown: Refusal, records: &[u8], asked: bool, room: usize) -> Refusal
    ensures { (code : ℕ) (speed : Float) → outcome (Err unknown) ≡ speed_of code speed → outcome (Err result) ≡ speed_for records.now (asked && too_little records.now room) code speed }
{
    match pool::loans::judge_pool(records, asked, room) {
        Err(refusal) if refusal.cause != Cause::Record => refusal,
        _ => unknown,
    }
}

// The speed that a pool is asked with.
fn speed_for(
    records: &[u8],
    asked: bool,
    room: usize,
    code: u32,
    number: f64,
) -> Result<Speed, Refusal>
    ensures { outcome result ≡ speed_for records.now (asked && too_little records.now room) code number }
{
    speed_of(code, number).map_err(|unknown| refusal_beside(unknown, records, asked, room))
}

// The share of a balance that is prepaid in a month.
#[tactic(auto, unfolding(crate::specs::Told::told, crate::specs::Pools::smm_of))]
#[unsafe(no_mangle)]
pub extern "C" fn senyolanda_monthly_smm(
    speed: u32,
    number: f64,
    history: &[f64],
    month: u32,
    smm: &mut f64,
) -> u64
    ensures { (result, smm.new) ≡ told_number (smm_of speed number history.now month) smm.old }
{
    let given = speed_of(speed, number);
    put(
        given.map(|speed| pool::speed::monthly_smm(speed, history, month)),
        smm,
    )
}

// Writes three numbers for each month of the longest term: principal, interest, prepayment.
#[tactic(auto, unfolding(crate::specs::Told::told, crate::specs::Pools::months_of, crate::specs::Pools::room_after))]
#[unsafe(no_mangle)]
pub extern "C" fn senyolanda_pool_cash_flows(
    records: &[u8],
    speed: u32,
    number: f64,
    history: &[f64],
    room: &mut [f64],
    months: &mut u32,
) -> u64
    ensures months_after { (result, months.new) ≡ told_number (months_of records.now speed number (length room.old)) months.old }
    ensures room_after { room.new ≡ room_after records.now speed number history.now room.old }
{
    match speed_for(records, true, room.len(), speed, number) {
        Err(refusal) => refusal_result(refusal),
        Ok(given) => put(
            pool::flows::cash_flows(records, given, history, room),
            months,
        ),
    }
}

// The present value of a pool's months at an annual discount rate.
#[unsafe(no_mangle)]
pub extern "C" fn senyolanda_pool_price(
    records: &[u8],
    speed: u32,
    number: f64,
    history: &[f64],
    rate: f64,
    price: &mut f64,
) -> u64
    ensures { (result, price.new) ≡ told_number (and_then (speed_for records.now false speed number) (λ (s : Speed). placed (pool_price records.now s history.now rate))) price.old }
{
    let given = speed_for(records, false, 0, speed, number);
    put(
        given.and_then(|speed| pool::price::price(records, speed, history, rate)),
        price,
    )
}

#[unsafe(no_mangle)]
pub extern "C" fn senyolanda_pool_duration(
    records: &[u8],
    speed: u32,
    number: f64,
    history: &[f64],
    rate: f64,
    duration: &mut f64,
) -> u64
    ensures { (result, duration.new) ≡ told_number (and_then (speed_for records.now false speed number) (λ (s : Speed). placed (pool_duration records.now s history.now rate))) duration.old }
{
    let given = speed_for(records, false, 0, speed, number);
    put(
        given.and_then(|speed| pool::price::duration(records, speed, history, rate)),
        duration,
    )
}

#[unsafe(no_mangle)]
pub extern "C" fn senyolanda_pool_convexity(
    records: &[u8],
    speed: u32,
    number: f64,
    history: &[f64],
    rate: f64,
    convexity: &mut f64,
) -> u64
    ensures { (result, convexity.new) ≡ told_number (and_then (speed_for records.now false speed number) (λ (s : Speed). placed (pool_convexity records.now s history.now rate))) convexity.old }
{
    let given = speed_for(records, false, 0, speed, number);
    put(
        given.and_then(|speed| pool::price::convexity(records, speed, history, rate)),
        convexity,
    )
}

fn totals_numbers(sums: Totals) -> [f64; 3]
    ensures { result ≡ totals_numbers sums }
{
    [sums.balance, sums.coupon, sums.maturity]
}

// Balance, and the coupon and maturity that it weighs.
#[unsafe(no_mangle)]
pub extern "C" fn senyolanda_pool_totals(records: &[u8], totals: &mut [f64; 3]) -> u64
    ensures { (result, totals.new) ≡ told totals_numbers (placed (pool_totals records.now)) totals.old }
{
    match pool::totals::pool_totals(records) {
        Err(refusal) => refusal_result(refusal),
        Ok(sums) => {
            *totals = totals_numbers(sums);
            ACCEPTED
        }
    }
}
