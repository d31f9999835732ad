// Loans: principal, rate and term, and what stands beside them, a second loan among it.
ghost use Rattle.std.specs.Prelude.{◌≤◌};

use records::Terms;
use replaying::{Unanswered, float_at, whole_at, word_at};

const BYTES: usize = 13 * 8;

// A loan's terms, from a word on.
fn terms_at(case: &[u8], from: usize) -> Result<Terms, Unanswered>
    requires { from ≤ 1000 }
{
    Ok(Terms {
        principal: float_at(case, from),
        rate: float_at(case, from + 1),
        term: whole_at(case, from + 2)?,
    })
}

// The month that a new loan breaks even in.
fn breakeven(old: Terms, case: &[u8]) -> Result<u32, Unanswered> {
    let new = terms_at(case, 8)?;
    let elapsed = whole_at(case, 12)?;
    Ok(mortgage::breakeven::refinance_breakeven(old, new, float_at(case, 11), elapsed)?)
}

// A count among the Rust's numbers is a float.
fn of_terms(question: u64, terms: Terms, case: &[u8]) -> Result<f64, Unanswered> {
    Ok(match question {
        201 => mortgage::payment::monthly_payment(terms)?,
        202 => crate::rows::answer(
            terms,
            float_at(case, 8),
            word_at(case, 9),
            word_at(case, 10),
        )?,
        205 => mortgage::totals::total_interest(terms)?,
        206 => mortgage::totals::remaining_balance(terms, whole_at(case, 8)?)?,
        207 => f64::from(mortgage::savings::prepayment_savings(terms, float_at(case, 8))?.months),
        217 => mortgage::savings::prepayment_savings(terms, float_at(case, 8))?.interest,
        208 => f64::from(breakeven(terms, case)?),
        209 => mortgage::totals::ltv(terms, float_at(case, 8))?,
        _ => return replaying::no_answer(),
    })
}

pub(crate) fn answer(question: u64, case: &[u8]) -> Result<f64, Unanswered> {
    if case.len() != BYTES {
        return replaying::no_answer();
    }
    of_terms(question, terms_at(case, 5)?, case)
}
