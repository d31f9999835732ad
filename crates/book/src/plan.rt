// How far a book's work goes: the loans before the first that asks for more rows than are left.
ghost use Rattle.std.specs.Prelude.{◌≡◌, ◌+◌, ◌≤◌, ◌<◌};
ghost use Rattle.book.specs.Book.{loan_count, loan_at, asked, asked_by, held, finished, cut_short};

use crate::loans::{asking_at, loan_count};
use mortgage::draws::WIDTH;

// The loans that are finished, the rows that they ask for, and the rows of the loan that is cut short.
#[derive(Clone, Copy)]
pub(crate) struct Plan {
    pub(crate) finished: usize,
    pub(crate) rows: usize,
    pub(crate) cut: u32,
}

// What a room of so many places holds.
pub(crate) fn plan_for(records: &[u8], room: usize) -> Plan
    ensures finished_value { (result.finished ≡ finished records.now room) × (result.rows ≡ asked_by records.now result.finished) × (result.cut ≡ cut_short records.now room) }
    ensures finished_bound { (result.finished ≤ loan_count records.now) × (result.rows + result.cut ≤ held room) × (result.cut ≤ asked (loan_at records.now result.finished)) }
    ensures finished_bound_2 { 0 < result.cut → result.finished < loan_count records.now }
{
    let count = loan_count(records);
    let mut rows: usize = 0;
    let mut left = room / WIDTH;
    let mut i: usize = 0;
    while i < count {
        let asked = asking_at(records, i).rows as usize;
        if left < asked {
            return Plan {
                finished: i,
                rows,
                cut: left as u32,
            };
        }
        rows += asked;
        left -= asked;
        i += 1;
    }
    Plan {
        finished: count,
        rows,
        cut: 0,
    }
}
