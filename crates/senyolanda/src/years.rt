// Year-end totals: the draw with lent lines beside its rows, and the lookup of a year.
ghost use Rattle.std.specs.Prelude.{◌≡◌};
ghost use Rattle.mortgage.specs.Years.{year_places};
ghost use Rattle.mortgage.specs.Level.{drawn_with_years, filled_with_years, summed, looked_up};
ghost use Rattle.senyolanda.specs.Told.{told};
ghost use Rattle.senyolanda.specs.Loans.{loan_in, portion_numbers};

use crate::loans::{AMOUNTS, COUNTS, loan_in, put_portion};
use crate::results::put;
use mortgage::years::Year;
use refusals::Refusal;

// Writes as many rows as the room holds and the term still owes, and enters them into their years' lines.
#[unsafe(no_mangle)]
pub extern "C" fn senyolanda_draw_with_years(
    counts: &mut [u32; COUNTS],
    amounts: &mut [f64; AMOUNTS],
    room: &mut [f64],
    years: &mut [f64],
    written: &mut u32,
    owed: &mut u32,
) -> u64
    ensures owed_after { (result, (counts.new, amounts.new, written.new, owed.new)) ≡ told portion_numbers (drawn_with_years (loan_in counts.old amounts.old) room.old years.old) (counts.old, amounts.old, written.old, owed.old) }
    ensures room_after { room.new ≡ filled_with_years (loan_in counts.old amounts.old) room.old years.old }
    ensures years_after { years.new ≡ summed (loan_in counts.old amounts.old) room.old years.old }
{
    let drawing = mortgage::years::draw_with_years(loan_in(counts, amounts), room, years);
    put_portion(drawing, counts, amounts, written, owed)
}

// A year's line.
pub(crate) fn year_places(year: Year) -> [f64; mortgage::years::YEAR_WIDTH]
    ensures { result ≡ year_places year }
{
    [year.months, year.interest, year.principal, year.balance]
}

// The line of a year, counted from 1.
#[unsafe(no_mangle)]
pub extern "C" fn senyolanda_look_up_year(
    counts: &[u32; COUNTS],
    amounts: &[f64; AMOUNTS],
    years: &[f64],
    year: u32,
    line: &mut [f64; mortgage::years::YEAR_WIDTH],
) -> u64
    ensures { (result, line.new) ≡ told year_places (looked_up (loan_in counts.now amounts.now) years.now year) line.old }
{
    let found = mortgage::years::look_up_year(loan_in(counts, amounts), years, year);
    put(found.map(year_places), line)
}
