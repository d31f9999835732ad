// Opening a loan: with the worked-out payment or with a given one.
ghost use Rattle.std.specs.Prelude.{◌≡◌, Float, List, ◌-◌};
ghost use Rattle.refusals.specs.Answers.{outcome};
ghost use Rattle.mortgage.specs.Payment.{payment, loan_of, opened_with, opened};
ghost use Rattle.mortgage.specs.Kinds.{interest_only, balloon, way_of};
ghost use Rattle.mortgage.specs.Openings.{starting_terms, paying_terms, kind_opened_with, kind_opened};

use crate::Loan;
use crate::kinds::Kind;
use records::Terms;
use refusals::Refusal;

// The loan in hand before its first month.
#[tactic(auto, unfolding(crate::specs::Payment::loan_of))]
pub(crate) fn loan_of(terms: Terms, payment: f64) -> Loan
    ensures { result ≡ loan_of terms payment }
{
    Loan {
        term: terms.term,
        rate: terms.rate,
        payment,
        done: 0,
        balance: terms.principal,
    }
}

#[tactic(auto, using(refusals::proofs::Verdicts::judged_carried), unfolding(crate::specs::Payment::opened_with))]
pub fn open_with_payment(terms: Terms, payment: f64) -> Result<Loan, Refusal>
    ensures { outcome result ≡ opened_with terms payment }
{
    crate::terms::judge_terms(terms)?;
    Ok(loan_of(terms, payment))
}

#[tactic(auto, unfolding(crate::specs::Payment::opened))]
pub fn open(terms: Terms) -> Result<Loan, Refusal>
    ensures { outcome result ≡ opened terms }
{
    open_with_payment(terms, crate::payment::worked_out(terms))
}

// The terms that a loan of a kind starts with: an adjustable loan's rate is its initial one.
fn starting_terms(kind: Kind, terms: Terms) -> Terms
    ensures { (index : List Float) → result ≡ starting_terms (way_of kind index) terms }
{
    match kind {
        Kind::Adjustable(adjustment) => Terms {
            rate: adjustment.initial,
            ..terms
        },
        _ => terms,
    }
}

// The payment that a loan of a kind works out to, whatever the terms are: an interest-only loan's is for the months behind its first.
fn kind_worked_out(kind: Kind, terms: Terms) -> f64
    ensures { (index : List Float) → result ≡ payment (paying_terms (way_of kind index) terms) }
{
    match kind {
        Kind::InterestOnly(months) => {
            let level = Terms {
                term: terms.term.saturating_sub(months),
                ..terms
            };
            crate::payment::worked_out(level)
        }
        _ => crate::payment::worked_out(starting_terms(kind, terms)),
    }
}

// Opens a loan of any kind with a payment.
#[tactic(auto, using(refusals::proofs::Verdicts::judged_carried, crate::proofs::TermsLaws::terms_first), unfolding(crate::specs::Openings::kind_opened_with))]
fn open_kind_with_payment(
    kind: Kind,
    terms: Terms,
    payment: f64,
    index: &[f64],
) -> Result<Loan, Refusal>
    ensures { outcome result ≡ kind_opened_with (way_of kind index.now) terms payment }
{
    crate::terms::judge_terms(terms)?;
    crate::kinds::judge_kind(kind, terms.term, index)?;
    Ok(loan_of(starting_terms(kind, terms), payment))
}

// Opens a loan of any kind with the worked-out payment; the list is read by an adjustable loan alone.
#[tactic(auto, unfolding(crate::specs::Openings::kind_opened))]
pub fn open_kind(kind: Kind, terms: Terms, index: &[f64]) -> Result<Loan, Refusal>
    ensures { outcome result ≡ kind_opened (way_of kind index.now) terms }
{
    let payment = kind_worked_out(kind, terms);
    open_kind_with_payment(kind, terms, payment, index)
}

// Opens an interest-only loan with the payment of the months behind its first so many.
pub fn open_interest_only_with_payment(
    terms: Terms,
    months: u32,
    payment: f64,
) -> Result<Loan, Refusal>
    ensures { outcome result ≡ kind_opened_with (interest_only months) terms payment }
{
    open_kind_with_payment(Kind::InterestOnly(months), terms, payment, &[0.0; 1])
}

// Opens a balloon loan with a given payment.
pub fn open_balloon_with_payment(terms: Terms, month: u32, payment: f64) -> Result<Loan, Refusal>
    ensures { outcome result ≡ kind_opened_with (balloon month) terms payment }
{
    open_kind_with_payment(Kind::Balloon(month), terms, payment, &[0.0; 1])
}
