// The rows of a book's loans, two loans at once: while one loan is in hand, the next is taken in beside it, and the one with rows left stays in hand.
ghost use Rattle.std.specs.Prelude.{◌≡◌, ◌+◌, ◌*◌, ◌≤◌, ◌<◌, min, length};
ghost use Rattle.std.proofs.lemmas.List.Edits.{sets};
ghost use Rattle.mortgage.specs.Row.{width};
ghost use Rattle.mortgage.specs.Level.{due};
ghost use Rattle.steps.specs.Steps.{laid};
ghost use Rattle.book.specs.Book.{loan_count, loan_at, asked, first_rows, all_rows, asked_by, rows_up_to};
ghost use Rattle.book.specs.inner.Hands.{drawn_out};

use crate::loans::open_at;
use mortgage::Loan;
use mortgage::draws::WIDTH;
use mortgage::pairs::{lay_at, lay_both};
use mortgage::rows::rows_due;

// A loan in hand, where its next row lies, and where the rows of the next loan begin.
#[derive(Clone, Copy)]
struct Hand {
    loan: Loan,
    at: usize,
    end: usize,
}

// A loan with no rows, before the first one is taken in.
fn no_loan() -> Loan
    ensures { due result ≡ 0 }
{
    Loan {
        term: 0,
        rate: 0.0,
        payment: 0.0,
        done: 0,
        balance: 0.0,
    }
}

fn fewer(a: u32, b: u32) -> u32
    ensures { result ≡ min a b }
{
    if a < b { a } else { b }
}

// Takes a loan in beside the one in hand: as many months of both as both have, and the one with rows left stays in hand.
fn take_in(hand: Hand, loan: Loan, room: &mut [f64]) -> Hand
    requires { (hand.at + due hand.loan * width ≤ hand.end) × (hand.end + due loan * width ≤ length room.old) }
    ensures end_value { (result.end ≡ hand.end + due loan * width) × (result.at + due result.loan * width ≤ result.end) }
    ensures loan_after { drawn_out room.new result.at result.loan ≡ drawn_out (drawn_out room.old hand.at hand.loan) hand.end loan }
{
    let first = hand.loan;
    let first_rows = rows_due(first);
    let rows = rows_due(loan);
    let count = fewer(first_rows, rows);
    let pair = lay_both(first, loan, room, hand.at, hand.end, count);
    let laid = count as usize * WIDTH;
    let end = hand.end + rows as usize * WIDTH;
    if count < first_rows {
        let left = pair.first;
        Hand {
            loan: left,
            at: hand.at + laid,
            end,
        }
    } else {
        let left = pair.second;
        Hand {
            loan: left,
            at: hand.end + laid,
            end,
        }
    }
}

// Takes the loan i in, unless it is refused.
fn take_next(records: &[u8], i: usize, hand: Hand, room: &mut [f64]) -> Hand
    requires i_bound { i < loan_count records.now }
    requires width_bound { (hand.at + due hand.loan * width ≤ hand.end) × (hand.end + asked (loan_at records.now i) * width ≤ length room.old) }
    ensures end_value { (result.end ≡ hand.end + asked (loan_at records.now i) * width) × (result.at + due result.loan * width ≤ result.end) }
    ensures loan_after { drawn_out room.new result.at result.loan ≡ sets (drawn_out room.old hand.at hand.loan) hand.end (all_rows (loan_at records.now i)) }
{
    match open_at(records, i) {
        Err(_) => hand,
        Ok(loan) => take_in(hand, loan, room),
    }
}

// The rows of the first loans, whole, from the start of the room.
pub(crate) fn lay_loans(records: &[u8], room: &mut [f64], count: usize)
    requires { (count ≤ loan_count records.now) × (asked_by records.now count * width ≤ length room.old) }
    ensures { room.new ≡ laid width (asked_by records.now count) (rows_up_to records.now count) room.old }
{
    let mut hand = Hand {
        loan: no_loan(),
        at: 0,
        end: 0,
    };
    let mut i: usize = 0;
    while i < count {
        let next = take_next(records, i, hand, room);
        hand = next;
        i += 1;
    }
    let last = hand.loan;
    lay_at(last, room, hand.at, rows_due(last));
}

// The first rows of the loan i, from a place of the room; there is no such loan where none are asked for.
pub(crate) fn lay_first(records: &[u8], i: usize, room: &mut [f64], at: usize, count: u32)
    requires width_in_bounds { (at + count * width ≤ length room.old) × (count ≤ asked (loan_at records.now i)) }
    requires i_bound { 0 < count → i < loan_count records.now }
    ensures { room.new ≡ sets room.old at (first_rows count (loan_at records.now i)) }
{
    if count == 0 {
        return;
    }
    match open_at(records, i) {
        Err(_) => {}
        Ok(loan) => {
            lay_at(loan, room, at, count);
        }
    }
}
