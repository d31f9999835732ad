// Loans of any kind: what the functions of each kind share. The list is read by an adjustable loan alone.
ghost use Rattle.std.specs.Prelude.{◌≡◌};
ghost use Rattle.refusals.specs.Outcome.{and_then};
ghost use Rattle.records.specs.Kinds.{read_terms};
ghost use Rattle.mortgage.specs.Kinds.{way_of};
ghost use Rattle.mortgage.specs.Openings.{kind_opened};
ghost use Rattle.mortgage.specs.Rows.{next_row};
ghost use Rattle.mortgage.specs.Draws.{drawn, filled};
ghost use Rattle.mortgage.specs.YearDraws.{drawn_with_years, filled_with_years, summed};
ghost use Rattle.senyolanda.specs.Told.{told};
ghost use Rattle.senyolanda.specs.Loans.{loan_in, loan_numbers, portion_numbers, kind_next_numbers};

use crate::loans::{AMOUNTS, COUNTS, loan_in, put_loan, put_next, put_portion};
use crate::results::refusal_result;
use mortgage::kinds::Kind;
use records::terms_record::read_terms;

// Stands in for the list where no kind reads one.
pub(crate) const NO_INDEX: [f64; 1] = [0.0];

// Opens a loan of a kind with the worked-out payment.
pub(crate) fn open_kind(
    record: &[u8],
    kind: Kind,
    index: &[f64],
    counts: &mut [u32; COUNTS],
    amounts: &mut [f64; AMOUNTS],
) -> u64
    ensures { (result, (counts.new, amounts.new)) ≡ told loan_numbers (and_then (read_terms «record».now) (kind_opened (way_of kind index.now))) (counts.old, amounts.old) }
{
    match read_terms(record) {
        Err(refusal) => refusal_result(refusal),
        Ok(terms) => {
            let opening = mortgage::opening::open_kind(kind, terms, index);
            put_loan(opening, counts, amounts)
        }
    }
}

// Writes as many rows as the room holds and the loan still owes.
pub(crate) fn draw_kind(
    kind: Kind,
    index: &[f64],
    counts: &mut [u32; COUNTS],
    amounts: &mut [f64; AMOUNTS],
    room: &mut [f64],
    written: &mut u32,
    owed: &mut u32,
) -> u64
    ensures owed_after { (result, (counts.new, amounts.new, written.new, owed.new)) ≡ told portion_numbers (drawn (way_of kind index.now) (loan_in counts.old amounts.old) room.old) (counts.old, amounts.old, written.old, owed.old) }
    ensures room_after { room.new ≡ filled (way_of kind index.now) (loan_in counts.old amounts.old) room.old }
{
    let drawing = mortgage::draws::draw_kind(kind, loan_in(counts, amounts), index, room);
    put_portion(drawing, counts, amounts, written, owed)
}

// The same, and enters them into their years' lines.
pub(crate) fn draw_kind_with_years(
    kind: Kind,
    index: &[f64],
    counts: &mut [u32; COUNTS],
    amounts: &mut [f64; AMOUNTS],
    room: &mut [f64],
    years: &mut [f64],
    written: &mut u32,
    owed: &mut u32,
) -> u64
    ensures owed_after { (result, (counts.new, amounts.new, written.new, owed.new)) ≡ told portion_numbers (drawn_with_years (way_of kind index.now) (loan_in counts.old amounts.old) room.old years.old) (counts.old, amounts.old, written.old, owed.old) }
    ensures room_after { room.new ≡ filled_with_years (way_of kind index.now) (loan_in counts.old amounts.old) room.old years.old }
    ensures years_after { years.new ≡ summed (way_of kind index.now) (loan_in counts.old amounts.old) room.old years.old }
{
    let loan = loan_in(counts, amounts);
    let drawing = mortgage::years::draw_kind_with_years(kind, loan, index, room, years);
    put_portion(drawing, counts, amounts, written, owed)
}

// Writes the next row alone, as a kind 3 record.
pub(crate) fn next_kind_row(
    kind: Kind,
    index: &[f64],
    counts: &mut [u32; COUNTS],
    amounts: &mut [f64; AMOUNTS],
    record: &mut [u8; records::row_record::ROW_SIZE],
    written: &mut u32,
    owed: &mut u32,
) -> u64
    ensures { (result, (counts.new, amounts.new, «record».new, written.new, owed.new)) ≡ told (kind_next_numbers (way_of kind index.now) counts.old amounts.old «record».old) (next_row (way_of kind index.now) (loan_in counts.old amounts.old)) (counts.old, amounts.old, «record».old, written.old, owed.old) }
{
    let next = mortgage::rows::next_kind_row(kind, loan_in(counts, amounts), index);
    put_next(kind, next, counts, amounts, record, written, owed)
}
