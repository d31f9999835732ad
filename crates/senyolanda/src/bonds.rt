// Bonds: a bond comes as a kind 2 record.
ghost use Rattle.std.specs.Prelude.{◌≡◌};
ghost use Rattle.refusals.specs.Outcome.{judged};
ghost use Rattle.refusals.specs.Answers.{outcome};
ghost use Rattle.bond.specs.Price.{price as price_at, dv01 as dv01_at, current_yield, zero_coupon_price};
ghost use Rattle.bond.specs.Yield.{yield_to_maturity};
ghost use Rattle.bond.specs.Durations.{macaulay_duration, modified_duration, convexity as convexity_at, price_change, macaulay_at_price, modified_at_price, convexity_at_price};
ghost use Rattle.bond.specs.Codes.{last_code, frequency_at};
ghost use Rattle.refusals.specs.Table.{bad_code};
ghost use Rattle.senyolanda.specs.Told.{coded, told_number};
ghost use Rattle.senyolanda.specs.Bonds.{uncoded_lines, bond_read, of_bond, periods_per_year_of};

use crate::codes::code_within;
use crate::results::{put, refusal_result};
use bond::{Bond, Frequency};
use records::BondRecord;
use refusals::Refusal;

// Lines 1, 7 and 9 of a bond whose frequency nobody knows.
fn judge_uncoded(fields: BondRecord, beside: f64) -> Result<(), Refusal>
    ensures { outcome result ≡ judged (uncoded_lines fields beside) tt }
{
    let bad_maturity = curves::curve::bad_time(fields.maturity);
    bond::bonds::judge_numbers(fields.face, bad_maturity, fields.coupon, beside)
}

// The frequency of a bond that has one number beside it. A code outside its set waits for what else the bond is refused with.
fn frequency_in(fields: BondRecord, beside: f64) -> Result<Frequency, Refusal>
    ensures { outcome result ≡ coded (bad_code last_code fields.frequency) (judged (uncoded_lines fields beside) tt) (frequency_at fields.frequency) }
{
    bond::codes::frequency_of(fields.frequency).or_else(|unknown| judge_uncoded(fields, beside).and(
        Err(unknown),
    ))
}

// The bond of a record that has one number beside it.
#[tactic(auto, unfolding(crate::specs::Bonds::bond_read))]
fn bond_in(bytes: &[u8], beside: f64) -> Result<Bond, Refusal>
    ensures { outcome result ≡ bond_read bytes.now beside }
{
    match records::bond_record::read_bond_uncoded(bytes) {
        Err(refusal) => Err(refusal),
        Ok(fields) => Ok(Bond {
            face: fields.face,
            coupon: fields.coupon,
            maturity: fields.maturity,
            frequency: frequency_in(fields, beside)?,
        }),
    }
}

// The price at a yield.
#[unsafe(no_mangle)]
pub extern "C" fn senyolanda_bond_price(record: &[u8], ytm: f64, price: &mut f64) -> u64
    ensures { (result, price.new) ≡ told_number (of_bond «record».now ytm (price_at ytm)) price.old }
{
    match bond_in(record, ytm) {
        Err(refusal) => refusal_result(refusal),
        Ok(bond) => put(bond::price::price(ytm, bond), price),
    }
}

// What the price gains where the yield falls by a basis point.
#[unsafe(no_mangle)]
pub extern "C" fn senyolanda_bond_dv01(record: &[u8], ytm: f64, dv01: &mut f64) -> u64
    ensures { (result, dv01.new) ≡ told_number (of_bond «record».now ytm (dv01_at ytm)) dv01.old }
{
    match bond_in(record, ytm) {
        Err(refusal) => refusal_result(refusal),
        Ok(bond) => put(bond::price::dv01(ytm, bond), dv01),
    }
}

// The annual coupon over the market price.
#[unsafe(no_mangle)]
pub extern "C" fn senyolanda_bond_current_yield(
    record: &[u8],
    market: f64,
    current: &mut f64,
) -> u64
    ensures { (result, current.new) ≡ told_number (of_bond «record».now market (current_yield market)) current.old }
{
    match bond_in(record, market) {
        Err(refusal) => refusal_result(refusal),
        Ok(bond) => put(bond::price::current_yield(market, bond), current),
    }
}

// The yield at which the bond is worth its market price.
#[unsafe(no_mangle)]
pub extern "C" fn senyolanda_bond_yield_to_maturity(
    record: &[u8],
    market: f64,
    ytm: &mut f64,
) -> u64
    ensures { (result, ytm.new) ≡ told_number (of_bond «record».now market (yield_to_maturity market)) ytm.old }
{
    match bond_in(record, market) {
        Err(refusal) => refusal_result(refusal),
        Ok(bond) => put(bond::yields::yield_to_maturity(market, bond), ytm),
    }
}

#[unsafe(no_mangle)]
pub extern "C" fn senyolanda_bond_macaulay_duration(
    record: &[u8],
    ytm: f64,
    duration: &mut f64,
) -> u64
    ensures { (result, duration.new) ≡ told_number (of_bond «record».now ytm (macaulay_duration ytm)) duration.old }
{
    match bond_in(record, ytm) {
        Err(refusal) => refusal_result(refusal),
        Ok(bond) => put(bond::durations::macaulay_duration(ytm, bond), duration),
    }
}

#[unsafe(no_mangle)]
pub extern "C" fn senyolanda_bond_modified_duration(
    record: &[u8],
    ytm: f64,
    duration: &mut f64,
) -> u64
    ensures { (result, duration.new) ≡ told_number (of_bond «record».now ytm (modified_duration ytm)) duration.old }
{
    match bond_in(record, ytm) {
        Err(refusal) => refusal_result(refusal),
        Ok(bond) => put(bond::durations::modified_duration(ytm, bond), duration),
    }
}

#[unsafe(no_mangle)]
pub extern "C" fn senyolanda_bond_convexity(record: &[u8], ytm: f64, convexity: &mut f64) -> u64
    ensures { (result, convexity.new) ≡ told_number (of_bond «record».now ytm (convexity_at ytm)) convexity.old }
{
    match bond_in(record, ytm) {
        Err(refusal) => refusal_result(refusal),
        Ok(bond) => put(bond::durations::convexity(ytm, bond), convexity),
    }
}

// What part of itself the price changes by where the yield changes by delta, by duration and convexity.
#[unsafe(no_mangle)]
pub extern "C" fn senyolanda_bond_price_change(
    record: &[u8],
    ytm: f64,
    delta: f64,
    change: &mut f64,
) -> u64
    ensures { (result, change.new) ≡ told_number (of_bond «record».now ytm (price_change ytm delta)) change.old }
{
    match bond_in(record, ytm) {
        Err(refusal) => refusal_result(refusal),
        Ok(bond) => put(
            bond::durations::price_change_approximation(ytm, delta, bond),
            change,
        ),
    }
}

// At a market price the yield is asked first.
#[unsafe(no_mangle)]
pub extern "C" fn senyolanda_bond_macaulay_duration_at_price(
    record: &[u8],
    market: f64,
    duration: &mut f64,
) -> u64
    ensures { (result, duration.new) ≡ told_number (of_bond «record».now market (macaulay_at_price market)) duration.old }
{
    match bond_in(record, market) {
        Err(refusal) => refusal_result(refusal),
        Ok(bond) => put(
            bond::durations::macaulay_duration_at_price(market, bond),
            duration,
        ),
    }
}

#[unsafe(no_mangle)]
pub extern "C" fn senyolanda_bond_modified_duration_at_price(
    record: &[u8],
    market: f64,
    duration: &mut f64,
) -> u64
    ensures { (result, duration.new) ≡ told_number (of_bond «record».now market (modified_at_price market)) duration.old }
{
    match bond_in(record, market) {
        Err(refusal) => refusal_result(refusal),
        Ok(bond) => put(
            bond::durations::modified_duration_at_price(market, bond),
            duration,
        ),
    }
}

#[unsafe(no_mangle)]
pub extern "C" fn senyolanda_bond_convexity_at_price(
    record: &[u8],
    market: f64,
    convexity: &mut f64,
) -> u64
    ensures { (result, convexity.new) ≡ told_number (of_bond «record».now market (convexity_at_price market)) convexity.old }
{
    match bond_in(record, market) {
        Err(refusal) => refusal_result(refusal),
        Ok(bond) => put(bond::durations::convexity_at_price(market, bond), convexity),
    }
}

// The price of a bond of face 1 without coupons.
#[unsafe(no_mangle)]
pub extern "C" fn senyolanda_zero_coupon_bond_price(ytm: f64, maturity: f64, price: &mut f64) -> u64
    ensures { (result, price.new) ≡ told_number (zero_coupon_price ytm maturity) price.old }
{
    put(bond::price::zero_coupon_bond_price(ytm, maturity), price)
}

// How many coupons a year a frequency's code stands for.
#[tactic(auto, unfolding(crate::specs::Told::told, crate::specs::Bonds::periods_per_year_of, bond::specs::Codes::frequency_of, refusals::specs::Table::bad_code, refusals::specs::Outcome::judged, refusals::specs::Outcome::first_or))]
#[unsafe(no_mangle)]
pub extern "C" fn senyolanda_periods_per_year(frequency: u32, periods: &mut u32) -> u64
    ensures { (result, periods.new) ≡ told_number (periods_per_year_of frequency) periods.old }
{
    let given = code_within(frequency, 3).and_then(bond::codes::frequency_of);
    put(given.map(bond::bonds::periods_per_year), periods)
}
