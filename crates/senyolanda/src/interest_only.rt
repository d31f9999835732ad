// Interest-only loans: so many months of interest alone, then level payments.
ghost use Rattle.std.specs.Prelude.{◌≡◌};
ghost use Rattle.refusals.specs.Outcome.{and_then};
ghost use Rattle.records.specs.declared.Terms.{Terms};
ghost use Rattle.records.specs.Kinds.{read_terms};
ghost use Rattle.mortgage.specs.Kinds.{interest_only};
ghost use Rattle.mortgage.specs.Openings.{kind_opened, kind_opened_with};
ghost use Rattle.mortgage.specs.Rows.{next_row};
ghost use Rattle.mortgage.specs.Draws.{drawn, filled};
ghost use Rattle.mortgage.specs.YearDraws.{drawn_with_years, filled_with_years, summed};
ghost use Rattle.senyolanda.specs.Told.{told};
ghost use Rattle.senyolanda.specs.Loans.{loan_in, loan_numbers, portion_numbers, kind_next_numbers};

use crate::kinds::{NO_INDEX, draw_kind, draw_kind_with_years, next_kind_row, open_kind};
use crate::loans::{AMOUNTS, COUNTS, put_loan};
use crate::results::refusal_result;
use mortgage::kinds::Kind;
use mortgage::opening::open_interest_only_with_payment;
use records::terms_record::read_terms;

// Opens a loan with so many months of interest alone with the worked-out payment.
#[unsafe(no_mangle)]
pub extern "C" fn senyolanda_open_interest_only(
    record: &[u8],
    months: u32,
    counts: &mut [u32; COUNTS],
    amounts: &mut [f64; AMOUNTS],
) -> u64
    ensures { (result, (counts.new, amounts.new)) ≡ told loan_numbers (and_then (read_terms «record».now) (kind_opened (interest_only months))) (counts.old, amounts.old) }
{
    open_kind(
        record,
        Kind::InterestOnly(months),
        &NO_INDEX,
        counts,
        amounts,
    )
}

// Opens it with a given payment.
#[unsafe(no_mangle)]
pub extern "C" fn senyolanda_open_interest_only_with_payment(
    record: &[u8],
    months: u32,
    given: f64,
    counts: &mut [u32; COUNTS],
    amounts: &mut [f64; AMOUNTS],
) -> u64
    ensures { (result, (counts.new, amounts.new)) ≡ told loan_numbers (and_then (read_terms «record».now) (λ (t : Terms). kind_opened_with (interest_only months) t given)) (counts.old, amounts.old) }
{
    match read_terms(record) {
        Err(refusal) => refusal_result(refusal),
        Ok(terms) => {
            let opening = open_interest_only_with_payment(terms, months, given);
            put_loan(opening, counts, amounts)
        }
    }
}

// Writes as many rows as the room holds and the loan still owes.
#[unsafe(no_mangle)]
pub extern "C" fn senyolanda_draw_interest_only(
    months: u32,
    counts: &mut [u32; COUNTS],
    amounts: &mut [f64; AMOUNTS],
    room: &mut [f64],
    written: &mut u32,
    owed: &mut u32,
) -> u64
    ensures owed_after { (result, (counts.new, amounts.new, written.new, owed.new)) ≡ told portion_numbers (drawn (interest_only months) (loan_in counts.old amounts.old) room.old) (counts.old, amounts.old, written.old, owed.old) }
    ensures room_after { room.new ≡ filled (interest_only months) (loan_in counts.old amounts.old) room.old }
{
    draw_kind(
        Kind::InterestOnly(months),
        &NO_INDEX,
        counts,
        amounts,
        room,
        written,
        owed,
    )
}

// The same, and enters them into their years' lines.
#[unsafe(no_mangle)]
pub extern "C" fn senyolanda_draw_interest_only_with_years(
    months: u32,
    counts: &mut [u32; COUNTS],
    amounts: &mut [f64; AMOUNTS],
    room: &mut [f64],
    years: &mut [f64],
    written: &mut u32,
    owed: &mut u32,
) -> u64
    ensures owed_after { (result, (counts.new, amounts.new, written.new, owed.new)) ≡ told portion_numbers (drawn_with_years (interest_only months) (loan_in counts.old amounts.old) room.old years.old) (counts.old, amounts.old, written.old, owed.old) }
    ensures room_after { room.new ≡ filled_with_years (interest_only months) (loan_in counts.old amounts.old) room.old years.old }
    ensures years_after { years.new ≡ summed (interest_only months) (loan_in counts.old amounts.old) room.old years.old }
{
    draw_kind_with_years(
        Kind::InterestOnly(months),
        &NO_INDEX,
        counts,
        amounts,
        room,
        years,
        written,
        owed,
    )
}

// Writes the next row alone, as a kind 3 record.
#[unsafe(no_mangle)]
pub extern "C" fn senyolanda_next_interest_only_row(
    months: u32,
    counts: &mut [u32; COUNTS],
    amounts: &mut [f64; AMOUNTS],
    record: &mut [u8; records::row_record::ROW_SIZE],
    written: &mut u32,
    owed: &mut u32,
) -> u64
    ensures { (result, (counts.new, amounts.new, «record».new, written.new, owed.new)) ≡ told (kind_next_numbers (interest_only months) counts.old amounts.old «record».old) (next_row (interest_only months) (loan_in counts.old amounts.old)) (counts.old, amounts.old, «record».old, written.old, owed.old) }
{
    next_kind_row(
        Kind::InterestOnly(months),
        &NO_INDEX,
        counts,
        amounts,
        record,
        written,
        owed,
    )
}
