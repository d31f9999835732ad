// Total interest, the remaining balance and loan to value.
ghost use Rattle.std.specs.Prelude.{◌≡◌, ◌+◌, ◌≤◌, min};
ghost use Rattle.numbers.specs.Sums.{added_up};
ghost use Rattle.refusals.specs.Answers.{outcome};
ghost use Rattle.mortgage.specs.Level.{end_month};
ghost use Rattle.mortgage.specs.Totals.{interest_at, interest_sum, total_interest, balance_after, remaining_balance, loan_to_value};

use crate::Loan;
use crate::months::rows_of;
use records::Terms;
use refusals::Refusal;

// The interest of the next rows, added left to right from +0.
fn interest_over(loan: Loan, count: u32) -> f64
    requires { loan.done + count ≤ end_month loan }
    ensures { result ≡ added_up (interest_at loan) count }
{
    rows_of(loan, count).fold(0.0, |total, row| total + row.interest)
}

// The interest of the whole term at the worked-out payment, whatever the terms are.
#[tactic(auto, unfolding(crate::specs::Totals::interest_sum, crate::specs::Payment::loan_of, crate::specs::Month::end_month))]
pub(crate) fn interest_sum(terms: Terms) -> f64
    ensures { result ≡ interest_sum terms }
{
    let payment = crate::payment::worked_out(terms);
    interest_over(crate::opening::loan_of(terms, payment), terms.term)
}

#[tactic(auto, using(refusals::proofs::Verdicts::judged_carried), unfolding(crate::specs::Totals::total_interest))]
pub fn total_interest(terms: Terms) -> Result<f64, Refusal>
    ensures { outcome result ≡ total_interest terms }
{
    crate::terms::judge_terms(terms)?;
    Ok(interest_sum(terms))
}

// The balance column after the next rows; after none, the balance in hand.
fn balance_after(loan: Loan, count: u32) -> f64
    requires { loan.done + count ≤ end_month loan }
    ensures { result ≡ balance_after loan count }
{
    rows_of(loan, count).fold(loan.balance, |_, row| row.balance)
}

// The balance after so many months; past the term it is what the last row leaves.
#[tactic(auto, using(refusals::proofs::Verdicts::judged_carried), unfolding(crate::specs::Totals::remaining_balance, crate::specs::Payment::loan_of, crate::specs::Month::end_month))]
pub fn remaining_balance(terms: Terms, months: u32) -> Result<f64, Refusal>
    ensures { outcome result ≡ remaining_balance terms months }
{
    crate::terms::judge_terms(terms)?;
    let loan = crate::opening::loan_of(terms, crate::payment::worked_out(terms));
    Ok(balance_after(loan, months.min(terms.term)))
}

// Loan to value; a value of zero gives +infinity.
#[tactic(auto, using(refusals::proofs::Verdicts::judged_carried), unfolding(crate::specs::Totals::loan_to_value))]
pub fn ltv(terms: Terms, value: f64) -> Result<f64, Refusal>
    ensures { outcome result ≡ loan_to_value terms value }
{
    crate::terms::judge_terms(terms)?;
    if value == 0.0 {
        return Ok(numbers::sizes::infinity());
    }
    Ok(terms.principal / value)
}
