// Readers and writers of records, kinds 1 to 5.
#![tactic(auto, unfolding(crate::specs::Told::told, refusals::specs::Table::bad_code, refusals::specs::Table::no_such_date, refusals::specs::Outcome::judged, refusals::specs::Outcome::first_or))]

ghost use Rattle.std.specs.Prelude.{◌≡◌, [], ◌∷◌};
ghost use Rattle.refusals.specs.Outcome.{line, judged};
ghost use Rattle.refusals.specs.Table.{bad_code, no_such_date};
ghost use Rattle.records.specs.Kinds.{read_terms, terms_bytes, read_bond, bond_bytes, read_row, row_bytes, read_swap, swap_bytes, read_dated_swap, dated_swap_bytes};
ghost use Rattle.senyolanda.specs.Told.{always, told};
ghost use Rattle.senyolanda.specs.Loans.{terms_numbers, row_numbers};
ghost use Rattle.senyolanda.specs.Bonds.{bond_numbers};
ghost use Rattle.senyolanda.specs.Dates.{date_of, held_by_record, written_lines};
ghost use Rattle.senyolanda.specs.Swaps.{swap_numbers, dated_swap_numbers};

use crate::codes::code_within;
use crate::date_counts::{DATE_NUMBERS, date_numbers, held_date};
use crate::results::{ACCEPTED, refusal_result};
use records::{BondRecord, DatedSwapRecord, Row, SwapRecord, Terms};
use refusals::Cause;

#[unsafe(no_mangle)]
pub extern "C" fn senyolanda_read_loan(
    record: &[u8],
    principal: &mut f64,
    rate: &mut f64,
    term: &mut u32,
) -> u64
    ensures { (result, (principal.new, rate.new, term.new)) ≡ told terms_numbers (read_terms «record».now) (principal.old, rate.old, term.old) }
{
    match records::terms_record::read_terms(record) {
        Err(refusal) => refusal_result(refusal),
        Ok(terms) => {
            *principal = terms.principal;
            *rate = terms.rate;
            *term = terms.term;
            ACCEPTED
        }
    }
}

#[unsafe(no_mangle)]
pub extern "C" fn senyolanda_write_loan(
    principal: f64,
    rate: f64,
    term: u32,
    record: &mut [u8; records::terms_record::TERMS_SIZE],
) -> u64
    ensures { (result, «record».new) ≡ always (terms_bytes (record { principal = principal; rate = rate; term = term })) }
{
    let terms = Terms {
        principal,
        rate,
        term,
    };
    records::terms_record::write_terms(terms, record);
    ACCEPTED
}

#[unsafe(no_mangle)]
pub extern "C" fn senyolanda_read_bond(
    record: &[u8],
    face: &mut f64,
    coupon: &mut f64,
    maturity: &mut f64,
    frequency: &mut u32,
) -> u64
    ensures { (result, (face.new, coupon.new, maturity.new, frequency.new)) ≡ told bond_numbers (read_bond «record».now) (face.old, coupon.old, maturity.old, frequency.old) }
{
    match records::bond_record::read_bond(record) {
        Err(refusal) => refusal_result(refusal),
        Ok(bond) => {
            *face = bond.face;
            *coupon = bond.coupon;
            *maturity = bond.maturity;
            *frequency = u32::from(bond.frequency);
            ACCEPTED
        }
    }
}

// A frequency code outside 0 to 3 is line 11.
#[unsafe(no_mangle)]
pub extern "C" fn senyolanda_write_bond(
    face: f64,
    coupon: f64,
    maturity: f64,
    frequency: u32,
    record: &mut [u8; records::bond_record::BOND_SIZE],
) -> u64
    ensures { (result, «record».new) ≡ told bond_bytes (judged (line 11 (bad_code 3 frequency) ∷ []) (record { face = face; coupon = coupon; maturity = maturity; frequency = frequency })) «record».old }
{
    match code_within(frequency, 3) {
        Err(refusal) => refusal_result(refusal),
        Ok(frequency) => {
            let bond = BondRecord {
                face,
                coupon,
                maturity,
                frequency,
            };
            records::bond_record::write_bond(bond, record);
            ACCEPTED
        }
    }
}

#[unsafe(no_mangle)]
pub extern "C" fn senyolanda_read_row(
    record: &[u8],
    month: &mut u32,
    payment: &mut f64,
    principal: &mut f64,
    interest: &mut f64,
    balance: &mut f64,
) -> u64
    ensures { (result, (month.new, payment.new, principal.new, interest.new, balance.new)) ≡ told row_numbers (read_row «record».now) (month.old, payment.old, principal.old, interest.old, balance.old) }
{
    match records::row_record::read_row(record) {
        Err(refusal) => refusal_result(refusal),
        Ok(row) => {
            *month = row.month;
            *payment = row.payment;
            *principal = row.principal;
            *interest = row.interest;
            *balance = row.balance;
            ACCEPTED
        }
    }
}

#[unsafe(no_mangle)]
pub extern "C" fn senyolanda_write_row(
    month: u32,
    payment: f64,
    principal: f64,
    interest: f64,
    balance: f64,
    record: &mut [u8; records::row_record::ROW_SIZE],
) -> u64
    ensures { (result, «record».new) ≡ always (row_bytes (record { month = month; payment = payment; principal = principal; interest = interest; balance = balance })) }
{
    let row = Row {
        month,
        payment,
        principal,
        interest,
        balance,
    };
    records::row_record::write_row(row, record);
    ACCEPTED
}

#[unsafe(no_mangle)]
pub extern "C" fn senyolanda_read_swap(
    record: &[u8],
    notional: &mut f64,
    rate: &mut f64,
    tenor: &mut f64,
    frequency: &mut u32,
    day_count: &mut u32,
) -> u64
    ensures { (result, (notional.new, rate.new, tenor.new, frequency.new, day_count.new)) ≡ told swap_numbers (read_swap «record».now) (notional.old, rate.old, tenor.old, frequency.old, day_count.old) }
{
    match records::swap_record::read_swap(record) {
        Err(refusal) => refusal_result(refusal),
        Ok(swap) => {
            *notional = swap.notional;
            *rate = swap.rate;
            *tenor = swap.tenor;
            *frequency = swap.frequency;
            *day_count = u32::from(swap.count);
            ACCEPTED
        }
    }
}

// A day count code outside 0 to 2 is line 11.
#[unsafe(no_mangle)]
pub extern "C" fn senyolanda_write_swap(
    notional: f64,
    rate: f64,
    tenor: f64,
    frequency: u32,
    day_count: u32,
    record: &mut [u8; records::swap_record::SWAP_SIZE],
) -> u64
    ensures { (result, «record».new) ≡ told swap_bytes (judged (line 11 (bad_code 2 day_count) ∷ []) (record { notional = notional; rate = rate; tenor = tenor; frequency = frequency; count = day_count })) «record».old }
{
    match code_within(day_count, 2) {
        Err(refusal) => refusal_result(refusal),
        Ok(count) => {
            let swap = SwapRecord {
                notional,
                rate,
                tenor,
                frequency,
                count,
            };
            records::swap_record::write_swap(swap, record);
            ACCEPTED
        }
    }
}

#[unsafe(no_mangle)]
pub extern "C" fn senyolanda_read_dated_swap(
    record: &[u8],
    notional: &mut f64,
    rate: &mut f64,
    tenor: &mut f64,
    frequency: &mut u32,
    first: &mut [u32; DATE_NUMBERS],
    second: &mut [u32; DATE_NUMBERS],
    day_count: &mut u32,
) -> u64
    ensures { (result, (notional.new, rate.new, tenor.new, frequency.new, first.new, second.new, day_count.new)) ≡ told dated_swap_numbers (read_dated_swap «record».now) (notional.old, rate.old, tenor.old, frequency.old, first.old, second.old, day_count.old) }
{
    match records::dated_swap_record::read_dated_swap(record) {
        Err(refusal) => refusal_result(refusal),
        Ok(swap) => {
            *notional = swap.notional;
            *rate = swap.rate;
            *tenor = swap.tenor;
            *frequency = swap.frequency;
            *first = date_numbers(swap.first);
            *second = date_numbers(swap.second);
            *day_count = u32::from(swap.count);
            ACCEPTED
        }
    }
}

// A day count code outside 0 to 2 is line 11, and a date that the record cannot hold is line 15; any other is written, of the calendar or not.
#[unsafe(no_mangle)]
pub extern "C" fn senyolanda_write_dated_swap(
    notional: f64,
    rate: f64,
    tenor: f64,
    frequency: u32,
    first_year: u32,
    first_month: u32,
    first_day: u32,
    second_year: u32,
    second_month: u32,
    second_day: u32,
    day_count: u32,
    record: &mut [u8; records::dated_swap_record::DATED_SWAP_SIZE],
) -> u64
    ensures { (result, «record».new) ≡ told dated_swap_bytes (judged (written_lines day_count (date_of first_year first_month first_day) (date_of second_year second_month second_day)) (record { notional = notional; rate = rate; tenor = tenor; frequency = frequency; first = date_of first_year first_month first_day; second = date_of second_year second_month second_day; count = day_count })) «record».old }
{
    let first = held_date(first_year, first_month, first_day);
    let second = held_date(second_year, second_month, second_day);
    match (code_within(day_count, 2), first, second) {
        (Err(refusal), _, _) => refusal_result(refusal),
        (Ok(count), Some(first), Some(second)) => {
            let swap = DatedSwapRecord {
                notional,
                rate,
                tenor,
                frequency,
                first,
                second,
                count,
            };
            records::dated_swap_record::write_dated_swap(swap, record);
            ACCEPTED
        }
        _ => refusal_result(refusals::refuse(Cause::Date)),
    }
}
