// Lines 1 and 2 of the table, asked of a loan's terms.
ghost use Rattle.std.specs.Prelude.{◌≡◌};
ghost use Rattle.refusals.specs.Outcome.{judged};
ghost use Rattle.refusals.specs.Answers.{outcome};
ghost use Rattle.mortgage.specs.Terms.{terms_lines};

use records::Terms;
use refusals::{Cause, Refusal};

#[tactic(auto, unfolding(refusals::specs::Outcome::judged, refusals::specs::Outcome::first_or))]
pub fn judge_terms(terms: Terms) -> Result<(), Refusal>
    ensures { outcome result ≡ judged (terms_lines terms) tt }
{
    if refusals::bad_amount(terms.principal) {
        return Err(refusals::refuse(Cause::Amount));
    }
    if refusals::bad_term(terms.term) {
        return Err(refusals::refuse(Cause::Term));
    }
    Ok(())
}
