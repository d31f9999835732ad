// Draws: the rows of a loan in hand of any kind, as many as are due and the lent room holds.
ghost use Rattle.std.specs.Prelude.{◌≡◌, ◌+◌, ◌-◌, ◌*◌, ◌<◌, ◌≤◌, length};
ghost use Rattle.std.proofs.lemmas.List.Edits.{sets};
ghost use Rattle.mortgage.specs.Row.{width, places};
ghost use Rattle.mortgage.specs.Kinds.{way_of, adjustable, later_years};
ghost use Rattle.mortgage.specs.Month.{end_month};
ghost use Rattle.steps.specs.Steps.{fitting, laid};
ghost use Rattle.mortgage.specs.Rows.{rows};
ghost use Rattle.refusals.specs.Answers.{outcome};
ghost use Rattle.mortgage.specs.Draws.{draw_lines, portion, drawn, filled};
ghost use Rattle.mortgage.specs.Level.{drawn as level_drawn, filled as level_filled};
ghost use Rattle.mortgage.specs.inner.Coming.{Listed};
ghost use Rattle.mortgage.specs.inner.Laying.{MayDraw, Layable, LaysOn, LaysOf};
ghost use Rattle.refusals.specs.Outcome.{judged};

use crate::Loan;
use crate::kinds::{Adjustment, Course, Kind};
use records::Row;
use refusals::{Cause, Refusal};

// The number of places of a row.
pub const WIDTH: usize = 5;

// What a draw wrote, what it still owes, and the loan to hand into the next one.
#[derive(Clone, Copy)]
pub struct Portion {
    pub written: u32,
    pub owed: u32,
    pub loan: Loan,
}

// Of the rows due, those that so many places hold.
pub(crate) fn rows_within(due: u32, places: usize) -> u32
    ensures { result ≡ fitting due places width }
{
    (due as usize).min(places / WIDTH) as u32
}

// The numbers of a row, from a place of the room.
pub(crate) fn put_row(room: &mut [f64], at: usize, row: Row)
    requires { at + width ≤ length room.old }
    ensures { room.new ≡ sets room.old at (places row) }
{
    room[at..at + WIDTH].copy_from_slice(&[
        row.month as f64,
        row.payment,
        row.principal,
        row.interest,
        row.balance,
    ]);
}

// Rows of ordinary months, at most so many: it stops before a month whose principal a bound changes, and the months done tell how many there are.
// The bounds are ways out of the loop, so that each row waits only for a product and two differences.
#[tactic(auto, unfolding(steps::specs::Steps::stepped, steps::specs::Steps::pieces))]
fn ordinary_rows(loan: Loan, course: Course, room: &mut [f64], most: u32) -> Loan
    requires { (most * width ≤ length room.old) × (course.only ≤ loan.done) × (loan.done + most < course.end) }
    ensures laid { LaysOn course (result.done - loan.done) loan room.old result room.new }
    ensures at_most { (loan.done ≤ result.done) × (result.done ≤ loan.done + most) }
{
    let rate = crate::payment::monthly_rate(loan.rate);
    let mut l = loan;
    for k in 0..most {
        let Some(month) = crate::rows::ordinary_month(l, course, l.balance * rate) else {
            break;
        };
        put_row(room, k as usize * WIDTH, month.row);
        l = month.next;
    }
    l
}

// The next rows on a course, whatever months they are of.
#[tactic(auto, unfolding(steps::specs::Steps::stepped, steps::specs::Steps::pieces))]
fn any_rows(loan: Loan, course: Course, room: &mut [f64], count: u32) -> Loan
    requires { Layable course.end loan count room.old }
    ensures { LaysOn course count loan room.old result room.new }
{
    let mut l = loan;
    for k in 0..count {
        let month = crate::rows::any_month(l, course);
        put_row(room, k as usize * WIDTH, month.row);
        l = month.next;
    }
    l
}

// The next rows behind the months of interest alone: ordinary months in a loop of their own, then what is left. The last month of a loan is no ordinary one.
pub(crate) fn lay_rows(loan: Loan, course: Course, room: &mut [f64], count: u32, most: u32) -> Loan
    requires layable { Layable course.end loan count room.old }
    requires ordinary { (most ≤ count) × (course.only ≤ loan.done) × (loan.done + most < course.end) }
    ensures { LaysOn course count loan room.old result room.new }
{
    let next = ordinary_rows(loan, course, room, most);
    let laid = next.done - loan.done;
    any_rows(
        next,
        course,
        &mut room[laid as usize * WIDTH..],
        count - laid,
    )
}

// The same, with as many ordinary months as there may be.
#[tactic(auto, unfolding(steps::specs::Steps::stepped, steps::specs::Steps::pieces))]
fn lay_stretch(loan: Loan, course: Course, room: &mut [f64], count: u32) -> Loan
    requires layable { Layable course.end loan count room.old }
    requires only_behind { course.only ≤ loan.done }
    ensures { LaysOn course count loan room.old result room.new }
{
    if count == 0 {
        return loan;
    }
    lay_rows(
        loan,
        course,
        room,
        count,
        count.min(course.end - loan.done - 1),
    )
}

// The next rows on a course: those of interest alone, then the others.
fn lay_course(loan: Loan, course: Course, room: &mut [f64], count: u32) -> Loan
    requires { Layable course.end loan count room.old }
    ensures { LaysOn course count loan room.old result room.new }
{
    if course.only <= loan.done {
        return lay_stretch(loan, course, room, count);
    }
    let alone = count.min(course.only - loan.done);
    let next = any_rows(loan, course, room, alone);
    if alone == count {
        return next;
    }
    lay_stretch(
        next,
        course,
        &mut room[alone as usize * WIDTH..],
        count - alone,
    )
}

// The next rows of one year: ordinary months first, here, where the loan goes through no memory from one year to the next, then what is left.
// By way of `lay_stretch` alone a draw year by year takes a twentieth longer.
fn lay_year(loan: Loan, course: Course, room: &mut [f64], count: u32) -> Loan
    requires layable { Layable course.end loan count room.old }
    requires only_behind { (course.only ≤ loan.done) × (0 < count) }
    ensures { LaysOn course count loan room.old result room.new }
{
    let most = count.min(course.end - loan.done - 1);
    let next = ordinary_rows(loan, course, room, most);
    let laid = next.done - loan.done;
    lay_stretch(
        next,
        course,
        &mut room[laid as usize * WIDTH..],
        count - laid,
    )
}

// The next rows of an adjustable loan, year by year: what the next year begins with is worked out before this year's rows, which it does not wait for.
fn lay_years(
    adjustment: Adjustment,
    loan: Loan,
    index: &[f64],
    room: &mut [f64],
    count: u32,
) -> Loan
    requires layable { Layable loan.term loan count room.old }
    requires listed { (loan.term ≤ 1200) × (later_years loan.term ≤ length index.now) }
    ensures { LaysOf (adjustable adjustment index.now) count loan room.old result room.new }
{
    let course = Course {
        only: 0,
        end: loan.term,
    };
    let mut l = loan;
    let mut coming = crate::rates::coming_behind(adjustment, l.rate, l.done, l.term, index);
    let mut k: u32 = 0;
    // A turn goes on to the year's end, or to the last row that is asked for: no range has such steps.
    while k < count {
        let begun = crate::rates::with_coming(l, coming);
        let n = (12 - begun.done % 12).min(count - k);
        coming = crate::rates::coming_behind(
            adjustment,
            begun.rate,
            begun.done + n,
            begun.term,
            index,
        );
        l = lay_year(begun, course, &mut room[k as usize * WIDTH..], n);
        k += n;
    }
    l
}

// The next rows of a loan of any kind.
#[tactic(auto, unfolding(crate::specs::Month::end_month))]
fn lay_kind(kind: Kind, loan: Loan, index: &[f64], room: &mut [f64], count: u32) -> Loan
    requires layable { Layable (end_month (way_of kind index.now) loan) loan count room.old }
    requires listed { (loan.term ≤ 1200) × Listed (way_of kind index.now) loan.term }
    ensures { LaysOf (way_of kind index.now) count loan room.old result room.new }
{
    match kind {
        Kind::Adjustable(adjustment) => lay_years(adjustment, loan, index, room, count),
        _ => {
            let course = crate::kinds::course_of(kind, loan.term);
            lay_course(loan, course, room, count)
        }
    }
}

// The lines of the table that a draw meets: past the end no row is due, so that 3 and 10 are never both there.
#[tactic(auto, unfolding(refusals::specs::Outcome::judged, refusals::specs::Outcome::first_or, refusals::specs::Table::past_end, refusals::specs::Table::no_room, crate::specs::Month::due, crate::specs::Month::end_month))]
fn judge_draw(kind: Kind, loan: Loan, index: &[f64], places: usize) -> Result<(), Refusal>
    ensures { outcome result ≡ judged (draw_lines (way_of kind index.now) loan places) tt }
{
    if refusals::bad_term(loan.term) {
        return Err(refusals::refuse(Cause::Term));
    }
    let end = crate::kinds::course_of(kind, loan.term).end;
    if end < loan.done {
        return Err(refusals::refuse(Cause::PastEnd));
    }
    if end > loan.done && places < WIDTH {
        return Err(refusals::refuse(Cause::Room));
    }
    crate::kinds::judge_kind(kind, loan.term, index)
}

// The rows that are due and that the room holds, once no line has a cause.
#[tactic(auto, unfolding(crate::specs::Draws::portion, crate::specs::Month::due, crate::specs::Month::end_month))]
fn lay_due(kind: Kind, loan: Loan, index: &[f64], room: &mut [f64]) -> Portion
    requires { MayDraw (way_of kind index.now) loan (length room.old) }
    ensures value { result ≡ portion (way_of kind index.now) loan (length room.old) }
    ensures room_after { room.new ≡ laid width result.written (rows (way_of kind index.now) result.written loan) room.old }
{
    let due = crate::rows::kind_rows_due(kind, loan);
    let written = rows_within(due, room.len());
    Portion {
        written,
        owed: due - written,
        loan: lay_kind(kind, loan, index, room, written),
    }
}

// Writes as many rows as the room holds and the loan still owes, and hands the loan back; the list is read by an adjustable loan alone.
#[tactic(auto, using(refusals::proofs::Verdicts::judged_carried), unfolding(crate::specs::Draws::drawn, crate::specs::Draws::filled))]
pub fn draw_kind(
    kind: Kind,
    loan: Loan,
    index: &[f64],
    room: &mut [f64],
) -> Result<Portion, Refusal>
    ensures result_value { outcome result ≡ drawn (way_of kind index.now) loan room.old }
    ensures room_after { room.new ≡ filled (way_of kind index.now) loan room.old }
{
    judge_draw(kind, loan, index, room.len())?;
    Ok(lay_due(kind, loan, index, room))
}

// The same of a level loan.
pub fn draw(loan: Loan, room: &mut [f64]) -> Result<Portion, Refusal>
    ensures result_value { outcome result ≡ level_drawn loan room.old }
    ensures room_after { room.new ≡ level_filled loan room.old }
{
    draw_kind(Kind::Level, loan, &[0.0; 1], room)
}
