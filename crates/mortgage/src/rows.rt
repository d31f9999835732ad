// One row of a loan in hand, by document 01's row rule, on a course of months and of any kind.
ghost use Rattle.std.specs.Prelude.{◌≡◌, ◌+◌, ◌<◌, ◌≤◌, List, Float, IfSome};
ghost use Rattle.std.specs.Float.{binary64};
ghost use Rattle.std.specs.Float.Ieee.{sub};
ghost use Rattle.numbers.specs.Clamps.{raised, lowered};
ghost use Rattle.mortgage.specs.Payment.{monthly_rate};
ghost use Rattle.mortgage.specs.RowRule.{interest_of};
ghost use Rattle.mortgage.specs.Kinds.{way_of, kind_lines};
ghost use Rattle.mortgage.specs.Month.{row_on, next_on, end_month, due, row_of, next_of};
ghost use Rattle.mortgage.specs.inner.Coming.{Listed};
ghost use Rattle.mortgage.specs.Rows.{state_lines, next_row, next_outcome};
ghost use Rattle.refusals.specs.Outcome.{judged};
ghost use Rattle.refusals.specs.Answers.{outcome};
ghost use Rattle.mortgage.specs.Level.{due as level_due, next_row as next_level_row};

use crate::Loan;
use crate::kinds::{Course, Kind};
use records::Row;
use refusals::{Cause, Refusal};

// A row, and the loan in hand after it.
#[derive(Clone, Copy)]
pub struct Month {
    pub row: Row,
    pub next: Loan,
}

// The rows that are still due: none where more months are done than the loan has.
#[tactic(auto, unfolding(crate::specs::Month::due, crate::specs::Month::end_month))]
pub fn kind_rows_due(kind: Kind, loan: Loan) -> u32
    ensures { (index : List Float) → result ≡ due (way_of kind index) loan }
{
    crate::kinds::course_of(kind, loan.term)
        .end
        .saturating_sub(loan.done)
}

pub fn rows_due(loan: Loan) -> u32
    ensures { result ≡ level_due loan }
{
    kind_rows_due(Kind::Level, loan)
}

// The month that these amounts make; `left` is the new balance, and `shown` its column.
fn month_of(loan: Loan, payment: f64, principal: f64, interest: f64, left: f64, shown: f64) -> Month
    requires { loan.done < 4294967295 }
    ensures row_value { result.row ≡ record { month = loan.done + 1; payment = payment; principal = principal; interest = interest; balance = shown } }
    ensures next_value { result.next ≡ record { term = loan.term; rate = loan.rate; payment = loan.payment; done = loan.done + 1; balance = left } }
{
    let month = loan.done + 1;
    let row = Row {
        month,
        payment,
        principal,
        interest,
        balance: shown,
    };
    let next = Loan {
        done: month,
        balance: left,
        ..loan
    };
    Month { row, next }
}

// What of an amount pays principal: raised to 0, then lowered to the balance.
fn principal_within(amount: f64, balance: f64) -> f64
    ensures { result ≡ lowered (raised amount) balance }
{
    numbers::clamps::lower_to(numbers::clamps::raise_to_zero(amount), balance)
}

// A month with this payment and this principal, whose balance's column is raised to 0.
// A balance less 0 is no work to the compiler, and a NaN that signals would be raised by an instruction which hands it on; the sum with 0 makes it a plain one.
fn paying(loan: Loan, payment: f64, principal: f64, interest: f64) -> Month
    requires { loan.done < 4294967295 }
    ensures row_value { result.row ≡ record { month = loan.done + 1; payment = payment; principal = principal; interest = interest; balance = raised (sub binary64 loan.balance principal) } }
    ensures next_value { result.next ≡ record { term = loan.term; rate = loan.rate; payment = loan.payment; done = loan.done + 1; balance = sub binary64 loan.balance principal } }
{
    let left = loan.balance - principal;
    month_of(
        loan,
        payment,
        principal,
        interest,
        left,
        numbers::clamps::raise_to_zero(left + 0.0),
    )
}

// Any month that is due on a course: one of interest alone, the last, or any other.
#[tactic(auto, unfolding(crate::specs::Month::row_on, crate::specs::Month::next_on, crate::specs::Month::interest_alone, crate::specs::Month::last, crate::specs::Month::principal, crate::specs::Month::paid, crate::specs::Month::remaining, crate::specs::RowRule::interest_of, crate::specs::RowRule::principal_of, crate::specs::RowRule::payment_of))]
pub(crate) fn any_month(loan: Loan, course: Course) -> Month
    requires { loan.done < course.end }
    ensures { (result.row ≡ row_on course loan) × (result.next ≡ next_on course loan) }
{
    let interest = loan.balance * crate::payment::monthly_rate(loan.rate);
    if loan.done < course.only {
        return paying(loan, interest, 0.0, interest);
    }
    if loan.done + 1 == course.end {
        return paying(loan, loan.balance + interest, loan.balance, interest);
    }
    let principal = principal_within(loan.payment - interest, loan.balance);
    paying(loan, loan.payment, principal, interest)
}

// A month before the last that pays not interest alone, where neither bound changes its principal, and else none: its new balance is above 0, so the column needs no raising.
pub(crate) fn ordinary_month(loan: Loan, course: Course, interest: f64) -> Option<Month>
    requires only_le_done { (course.only ≤ loan.done) × (loan.done + 1 < course.end) }
    requires interest_value { interest ≡ interest_of (monthly_rate loan.rate) loan.balance }
    ensures { IfSome result (λ month. (month.row ≡ row_on course loan) × (month.next ≡ next_on course loan)) }
{
    let principal = loan.payment - interest;
    if principal > 0.0 && principal < loan.balance {
        let left = loan.balance - principal;
        Some(month_of(loan, loan.payment, principal, interest, left, left))
    } else {
        None
    }
}

// Lines 2, 10 and 16, asked of a state that may be made up.
#[tactic(auto, unfolding(refusals::specs::Outcome::judged, refusals::specs::Outcome::first_or, refusals::specs::Table::past_end, crate::specs::Month::end_month))]
fn judge_state(kind: Kind, loan: Loan, index: &[f64]) -> Result<(), Refusal>
    ensures { outcome result ≡ judged (state_lines (way_of kind index.now) loan) tt }
{
    if refusals::bad_term(loan.term) {
        return Err(refusals::refuse(Cause::Term));
    }
    if crate::kinds::course_of(kind, loan.term).end < loan.done {
        return Err(refusals::refuse(Cause::PastEnd));
    }
    crate::kinds::judge_kind(kind, loan.term, index)
}

// The next month of a loan of any kind, once it is due.
#[tactic(auto, using(crate::proofs::RowLaws::in_force_done), unfolding(crate::specs::Month::row_of, crate::specs::Month::next_of, crate::specs::Month::end_month))]
fn month_due(kind: Kind, loan: Loan, index: &[f64]) -> Month
    requires done_bound { (loan.done < end_month (way_of kind index.now) loan) × (end_month (way_of kind index.now) loan ≤ loan.term) }
    requires listed { Listed (way_of kind index.now) loan.term }
    ensures { (result.row ≡ row_of (way_of kind index.now) loan) × (result.next ≡ next_of (way_of kind index.now) loan) }
{
    let course = crate::kinds::course_of(kind, loan.term);
    any_month(crate::rates::in_force(kind, loan, index), course)
}

// The next row alone of a loan of any kind, from a state that may be made up, or none of a finished loan; the list is read by an adjustable loan alone.
#[tactic(auto, using(refusals::proofs::Verdicts::judged_carried), unfolding(crate::specs::Rows::next_row, crate::specs::Month::due))]
pub fn next_kind_row(kind: Kind, loan: Loan, index: &[f64]) -> Result<Option<Month>, Refusal>
    ensures { next_outcome result ≡ next_row (way_of kind index.now) loan }
{
    judge_state(kind, loan, index)?;
    if kind_rows_due(kind, loan) == 0 {
        return Ok(None);
    }
    Ok(Some(month_due(kind, loan, index)))
}

// The next row alone of a level loan.
pub fn next_row(loan: Loan) -> Result<Option<Month>, Refusal>
    ensures { next_outcome result ≡ next_level_row loan }
{
    next_kind_row(Kind::Level, loan, &[0.0; 1])
}
