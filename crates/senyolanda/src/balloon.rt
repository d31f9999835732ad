// Balloon loans: the level rows of the whole term up to a month that repays the balance.
ghost use Rattle.std.specs.Prelude.{◌≡◌};
ghost use Rattle.refusals.specs.Outcome.{and_then};
ghost use Rattle.records.specs.declared.Terms.{Terms};
ghost use Rattle.records.specs.Kinds.{read_terms};
ghost use Rattle.mortgage.specs.Kinds.{balloon};
ghost use Rattle.mortgage.specs.Openings.{kind_opened, kind_opened_with};
ghost use Rattle.mortgage.specs.Rows.{next_row};
ghost use Rattle.mortgage.specs.Draws.{drawn, filled};
ghost use Rattle.mortgage.specs.YearDraws.{drawn_with_years, filled_with_years, summed, looked_up};
ghost use Rattle.mortgage.specs.Years.{year_places};
ghost use Rattle.senyolanda.specs.Told.{told};
ghost use Rattle.senyolanda.specs.Loans.{loan_in, loan_numbers, portion_numbers, kind_next_numbers};

use crate::kinds::{NO_INDEX, draw_kind, draw_kind_with_years, next_kind_row, open_kind};
use crate::loans::{AMOUNTS, COUNTS, loan_in, put_loan};
use crate::results::{put, refusal_result};
use crate::years::year_places;
use mortgage::kinds::Kind;
use mortgage::opening::open_balloon_with_payment;
use records::terms_record::read_terms;

// Opens a loan with a balloon in a month with the worked-out payment.
#[unsafe(no_mangle)]
pub extern "C" fn senyolanda_open_balloon(
    record: &[u8],
    month: u32,
    counts: &mut [u32; COUNTS],
    amounts: &mut [f64; AMOUNTS],
) -> u64
    ensures { (result, (counts.new, amounts.new)) ≡ told loan_numbers (and_then (read_terms «record».now) (kind_opened (balloon month))) (counts.old, amounts.old) }
{
    open_kind(record, Kind::Balloon(month), &NO_INDEX, counts, amounts)
}

// Opens it with a given payment.
#[unsafe(no_mangle)]
pub extern "C" fn senyolanda_open_balloon_with_payment(
    record: &[u8],
    month: u32,
    given: f64,
    counts: &mut [u32; COUNTS],
    amounts: &mut [f64; AMOUNTS],
) -> u64
    ensures { (result, (counts.new, amounts.new)) ≡ told loan_numbers (and_then (read_terms «record».now) (λ (t : Terms). kind_opened_with (balloon month) t given)) (counts.old, amounts.old) }
{
    match read_terms(record) {
        Err(refusal) => refusal_result(refusal),
        Ok(terms) => {
            let opening = open_balloon_with_payment(terms, month, given);
            put_loan(opening, counts, amounts)
        }
    }
}

// Writes as many rows as the room holds and the loan still owes.
#[unsafe(no_mangle)]
pub extern "C" fn senyolanda_draw_balloon(
    month: u32,
    counts: &mut [u32; COUNTS],
    amounts: &mut [f64; AMOUNTS],
    room: &mut [f64],
    written: &mut u32,
    owed: &mut u32,
) -> u64
    ensures owed_after { (result, (counts.new, amounts.new, written.new, owed.new)) ≡ told portion_numbers (drawn (balloon month) (loan_in counts.old amounts.old) room.old) (counts.old, amounts.old, written.old, owed.old) }
    ensures room_after { room.new ≡ filled (balloon month) (loan_in counts.old amounts.old) room.old }
{
    draw_kind(
        Kind::Balloon(month),
        &NO_INDEX,
        counts,
        amounts,
        room,
        written,
        owed,
    )
}

// The same, and enters them into their years' lines.
#[unsafe(no_mangle)]
pub extern "C" fn senyolanda_draw_balloon_with_years(
    month: u32,
    counts: &mut [u32; COUNTS],
    amounts: &mut [f64; AMOUNTS],
    room: &mut [f64],
    years: &mut [f64],
    written: &mut u32,
    owed: &mut u32,
) -> u64
    ensures owed_after { (result, (counts.new, amounts.new, written.new, owed.new)) ≡ told portion_numbers (drawn_with_years (balloon month) (loan_in counts.old amounts.old) room.old years.old) (counts.old, amounts.old, written.old, owed.old) }
    ensures room_after { room.new ≡ filled_with_years (balloon month) (loan_in counts.old amounts.old) room.old years.old }
    ensures years_after { years.new ≡ summed (balloon month) (loan_in counts.old amounts.old) room.old years.old }
{
    draw_kind_with_years(
        Kind::Balloon(month),
        &NO_INDEX,
        counts,
        amounts,
        room,
        years,
        written,
        owed,
    )
}

// Writes the next row alone, as a kind 3 record.
#[unsafe(no_mangle)]
pub extern "C" fn senyolanda_next_balloon_row(
    month: u32,
    counts: &mut [u32; COUNTS],
    amounts: &mut [f64; AMOUNTS],
    record: &mut [u8; records::row_record::ROW_SIZE],
    written: &mut u32,
    owed: &mut u32,
) -> u64
    ensures { (result, (counts.new, amounts.new, «record».new, written.new, owed.new)) ≡ told (kind_next_numbers (balloon month) counts.old amounts.old «record».old) (next_row (balloon month) (loan_in counts.old amounts.old)) (counts.old, amounts.old, «record».old, written.old, owed.old) }
{
    next_kind_row(
        Kind::Balloon(month),
        &NO_INDEX,
        counts,
        amounts,
        record,
        written,
        owed,
    )
}

// The line of a year, counted from 1.
#[unsafe(no_mangle)]
pub extern "C" fn senyolanda_look_up_balloon_year(
    month: u32,
    counts: &[u32; COUNTS],
    amounts: &[f64; AMOUNTS],
    years: &[f64],
    year: u32,
    line: &mut [f64; mortgage::years::YEAR_WIDTH],
) -> u64
    ensures { (result, line.new) ≡ told year_places (looked_up (balloon month) (loan_in counts.now amounts.now) years.now year) line.old }
{
    let loan = loan_in(counts, amounts);
    let found = mortgage::years::look_up_kind_year(Kind::Balloon(month), loan, years, year);
    put(found.map(year_places), line)
}
