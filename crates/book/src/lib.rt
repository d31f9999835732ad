// Books of loans: kind 1 records end to end, the rows of each loan laid one behind the other into one lent room, two loans drawn at once.
#![tactic(auto)]

ghost use Rattle.std.specs.Prelude.{◌≡◌, ◌+◌, ◌*◌, ◌-◌, ◌≤◌, ◌<◌, min, length};
ghost use Rattle.mortgage.specs.Row.{width};
ghost use Rattle.book.specs.Book.{loan_count, loan_at, asked, asked_by, finished, cut_short, answered, room_after, answers_after, most_loans, bad_book, book_drawn, book_room, book_answers, book_outcome};

use crate::loans::loan_count;
use crate::plan::Plan;
use mortgage::draws::WIDTH;
use records::terms_record::TERMS_SIZE;
use refusals::{Cause, Refusal};

mod answers;
mod hands;
mod loans;
mod plan;

// The most records of a call.
const MOST_LOANS: usize = 256;

// Loans that are finished, refused ones among them; the months written of the one cut short; and the loans not started.
#[derive(Clone, Copy)]
pub struct BookProgress {
    pub finished: u32,
    pub cut: u32,
    pub waiting: u32,
}

// Line 11: a total length that is no multiple of a record's, or more records than a call takes.
fn bad_total(records: &[u8]) -> bool
    ensures { result ≡ bad_book records.now }
{
    if records.len() % TERMS_SIZE != 0 {
        return true;
    }
    MOST_LOANS < loan_count(records)
}

// The loans with an answer: those finished, and the one cut short.
fn loans_answered(plan: Plan) -> usize
    requires { plan.finished ≤ most_loans }
    ensures { result ≡ plan.finished + min plan.cut 1 }
{
    if plan.cut == 0 {
        plan.finished
    } else {
        plan.finished + 1
    }
}

// The answers and the rows of a plan.
fn draw_planned(records: &[u8], plan: Plan, answers: &mut [u32], room: &mut [f64]) -> BookProgress
    requires records_bound { (loan_count records.now ≤ most_loans) × (loan_count records.now ≤ length answers.old) }
    requires finished_value { (plan.finished ≡ finished records.now (length room.old)) × (plan.rows ≡ asked_by records.now plan.finished) × (plan.cut ≡ cut_short records.now (length room.old)) }
    requires finished_bound { (plan.finished ≤ loan_count records.now) × ((plan.rows + plan.cut) * width ≤ length room.old) × (plan.cut ≤ asked (loan_at records.now plan.finished)) }
    requires finished_bound_2 { 0 < plan.cut → plan.finished < loan_count records.now }
    ensures finished_value_2 { (result.finished ≡ plan.finished) × (result.cut ≡ plan.cut) × (result.waiting ≡ loan_count records.now - answered records.now (length room.old)) }
    ensures answers_after { answers.new ≡ answers_after records.now (length room.old) answers.old }
    ensures room_after { room.new ≡ room_after records.now room.old }
{
    let count = loan_count(records);
    let done = loans_answered(plan);
    crate::answers::put_answers(records, answers, done);
    crate::hands::lay_loans(records, room, plan.finished);
    crate::hands::lay_first(records, plan.finished, room, plan.rows * WIDTH, plan.cut);
    BookProgress {
        finished: plan.finished as u32,
        cut: plan.cut,
        waiting: (count - done) as u32,
    }
}

// Draws the loans in order, each whole, as far as the room goes; a loan that is refused has its answer and no rows.
pub fn draw_book(
    records: &[u8],
    answers: &mut [u32],
    room: &mut [f64],
) -> Result<BookProgress, Refusal>
    ensures result_value { book_outcome result ≡ book_drawn records.now (length answers.old) (length room.old) }
    ensures room_after { room.new ≡ book_room records.now answers.old room.old }
    ensures answers_after { answers.new ≡ book_answers records.now answers.old room.old }
{
    if bad_total(records) {
        return Err(refusals::refuse(Cause::Record));
    }
    let count = loan_count(records);
    if answers.len() < count {
        return Err(refusals::refuse(Cause::Room));
    }
    let plan = crate::plan::plan_for(records, room.len());
    if room.len() < WIDTH {
        if plan.finished < count {
            return Err(refusals::refuse(Cause::Room));
        }
    }
    Ok(draw_planned(records, plan, answers, room))
}
