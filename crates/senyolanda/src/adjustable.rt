// Adjustable loans: an initial rate and two caps, with a lent list of index rates, year 2's first.
ghost use Rattle.std.specs.Prelude.{◌≡◌};
ghost use Rattle.refusals.specs.Outcome.{and_then};
ghost use Rattle.records.specs.Kinds.{read_terms};
ghost use Rattle.mortgage.specs.Kinds.{adjustable};
ghost use Rattle.mortgage.specs.Openings.{kind_opened};
ghost use Rattle.mortgage.specs.Rows.{next_row};
ghost use Rattle.mortgage.specs.Draws.{drawn, filled};
ghost use Rattle.mortgage.specs.YearDraws.{drawn_with_years, filled_with_years, summed};
ghost use Rattle.senyolanda.specs.Told.{told};
ghost use Rattle.senyolanda.specs.Loans.{adjustment_of, loan_in, loan_numbers, portion_numbers, kind_next_numbers};

use crate::kinds::{draw_kind, draw_kind_with_years, next_kind_row, open_kind};
use crate::loans::{AMOUNTS, COUNTS};
use mortgage::kinds::{Adjustment, Kind};

// The kind that an initial rate and two caps make.
fn kind_of(initial: f64, cap: f64, lifetime: f64) -> Kind
    ensures { result ≡ Kind.Adjustable (adjustment_of initial cap lifetime) }
{
    Kind::Adjustable(Adjustment {
        initial,
        cap,
        lifetime,
    })
}

// Opens a loan whose first year runs at the initial rate, with the worked-out payment.
#[unsafe(no_mangle)]
pub extern "C" fn senyolanda_open_adjustable(
    record: &[u8],
    initial: f64,
    cap: f64,
    lifetime: f64,
    index: &[f64],
    counts: &mut [u32; COUNTS],
    amounts: &mut [f64; AMOUNTS],
) -> u64
    ensures { (result, (counts.new, amounts.new)) ≡ told loan_numbers (and_then (read_terms «record».now) (kind_opened (adjustable (adjustment_of initial cap lifetime) index.now))) (counts.old, amounts.old) }
{
    let kind = kind_of(initial, cap, lifetime);
    open_kind(record, kind, index, counts, amounts)
}

// Writes as many rows as the room holds and the loan still owes.
#[unsafe(no_mangle)]
pub extern "C" fn senyolanda_draw_adjustable(
    initial: f64,
    cap: f64,
    lifetime: f64,
    index: &[f64],
    counts: &mut [u32; COUNTS],
    amounts: &mut [f64; AMOUNTS],
    room: &mut [f64],
    written: &mut u32,
    owed: &mut u32,
) -> u64
    ensures owed_after { (result, (counts.new, amounts.new, written.new, owed.new)) ≡ told portion_numbers (drawn (adjustable (adjustment_of initial cap lifetime) index.now) (loan_in counts.old amounts.old) room.old) (counts.old, amounts.old, written.old, owed.old) }
    ensures room_after { room.new ≡ filled (adjustable (adjustment_of initial cap lifetime) index.now) (loan_in counts.old amounts.old) room.old }
{
    let kind = kind_of(initial, cap, lifetime);
    draw_kind(kind, index, counts, amounts, room, written, owed)
}

// The same, and enters them into their years' lines.
#[unsafe(no_mangle)]
pub extern "C" fn senyolanda_draw_adjustable_with_years(
    initial: f64,
    cap: f64,
    lifetime: f64,
    index: &[f64],
    counts: &mut [u32; COUNTS],
    amounts: &mut [f64; AMOUNTS],
    room: &mut [f64],
    years: &mut [f64],
    written: &mut u32,
    owed: &mut u32,
) -> u64
    ensures owed_after { (result, (counts.new, amounts.new, written.new, owed.new)) ≡ told portion_numbers (drawn_with_years (adjustable (adjustment_of initial cap lifetime) index.now) (loan_in counts.old amounts.old) room.old years.old) (counts.old, amounts.old, written.old, owed.old) }
    ensures room_after { room.new ≡ filled_with_years (adjustable (adjustment_of initial cap lifetime) index.now) (loan_in counts.old amounts.old) room.old years.old }
    ensures years_after { years.new ≡ summed (adjustable (adjustment_of initial cap lifetime) index.now) (loan_in counts.old amounts.old) room.old years.old }
{
    let kind = kind_of(initial, cap, lifetime);
    draw_kind_with_years(kind, index, counts, amounts, room, years, written, owed)
}

// Writes the next row alone, as a kind 3 record.
#[unsafe(no_mangle)]
pub extern "C" fn senyolanda_next_adjustable_row(
    initial: f64,
    cap: f64,
    lifetime: f64,
    index: &[f64],
    counts: &mut [u32; COUNTS],
    amounts: &mut [f64; AMOUNTS],
    record: &mut [u8; records::row_record::ROW_SIZE],
    written: &mut u32,
    owed: &mut u32,
) -> u64
    ensures { (result, (counts.new, amounts.new, «record».new, written.new, owed.new)) ≡ told (kind_next_numbers (adjustable (adjustment_of initial cap lifetime) index.now) counts.old amounts.old «record».old) (next_row (adjustable (adjustment_of initial cap lifetime) index.now) (loan_in counts.old amounts.old)) (counts.old, amounts.old, «record».old, written.old, owed.old) }
{
    let kind = kind_of(initial, cap, lifetime);
    next_kind_row(kind, index, counts, amounts, record, written, owed)
}
