// The monthly payment.
ghost use Rattle.std.specs.Prelude.{◌≡◌};
ghost use Rattle.refusals.specs.Answers.{outcome};
ghost use Rattle.mortgage.specs.Payment.{monthly_rate, growth, level_payment, payment_by, payment, monthly_payment};

use records::Terms;
use refusals::Refusal;

// A twelfth of the annual rate.
#[tactic(auto, unfolding(crate::specs::Payment::monthly_rate))]
pub fn monthly_rate(rate: f64) -> f64
    ensures { result ≡ monthly_rate rate }
{
    rate / 12.0
}

#[tactic(auto, unfolding(crate::specs::Payment::level_payment))]
fn level_payment(principal: f64, r: f64, factor: f64) -> f64
    ensures { result ≡ level_payment principal r factor }
{
    principal * r * factor / (factor - 1.0)
}

// The growth of 1 over so many months.
#[tactic(auto, unfolding(crate::specs::Payment::growth))]
pub(crate) fn growth(r: f64, months: u32) -> f64
    ensures { result ≡ growth r months }
{
    elementary::whole_power::whole_power(1.0 + r, months)
}

// The payment over so many months, whose growth is the factor: where nothing grows, equal parts.
#[tactic(auto, unfolding(crate::specs::Payment::equal_part))]
pub(crate) fn payment_by(principal: f64, r: f64, months: u32, factor: f64) -> f64
    ensures { result ≡ payment_by principal r months factor }
{
    if factor == 1.0 {
        return principal / months as f64;
    }
    level_payment(principal, r, factor)
}

// The payment that the terms work out to, whatever they are.
#[tactic(auto, unfolding(crate::specs::Payment::payment))]
pub(crate) fn worked_out(terms: Terms) -> f64
    ensures { result ≡ payment terms }
{
    let r = monthly_rate(terms.rate);
    payment_by(terms.principal, r, terms.term, growth(r, terms.term))
}

#[tactic(auto, using(refusals::proofs::Verdicts::judged_carried), unfolding(crate::specs::Payment::monthly_payment))]
pub fn monthly_payment(terms: Terms) -> Result<f64, Refusal>
    ensures { outcome result ≡ monthly_payment terms }
{
    crate::terms::judge_terms(terms)?;
    Ok(worked_out(terms))
}
