// When refinancing breaks even.
ghost use Rattle.std.specs.Prelude.{◌≡◌};
ghost use Rattle.refusals.specs.Answers.{outcome};
ghost use Rattle.mortgage.specs.BreakEven.{refinance_breakeven};

use records::Terms;
use refusals::{Cause, Refusal};

// The month by which the new loan's smaller payment has earned the closing cost back; the months elapsed are taken and not read.
#[tactic(auto, unfolding(crate::specs::BreakEven::refinance_breakeven, crate::specs::BreakEven::saving, crate::specs::BreakEven::break_even_month, refusals::specs::Outcome::judged, refusals::specs::Outcome::first_or, refusals::specs::Table::no_break_even))]
pub fn refinance_breakeven(old: Terms, new: Terms, cost: f64, elapsed: u32) -> Result<u32, Refusal>
    ensures { outcome result ≡ refinance_breakeven old new cost elapsed }
{
    if refusals::bad_amount(old.principal) {
        return Err(refusals::refuse_at(Cause::Amount, 0));
    }
    if refusals::bad_amount(new.principal) {
        return Err(refusals::refuse_at(Cause::Amount, 1));
    }
    if refusals::bad_term(old.term) {
        return Err(refusals::refuse_at(Cause::Term, 0));
    }
    if refusals::bad_term(new.term) {
        return Err(refusals::refuse_at(Cause::Term, 1));
    }
    if refusals::bad_number(cost) {
        return Err(refusals::refuse(Cause::Number));
    }
    let saving = crate::payment::worked_out(old) - crate::payment::worked_out(new);
    if saving <= 0.0 {
        return Err(refusals::refuse(Cause::BreakEven));
    }
    let month = numbers::whole::ceiling_to_u32(cost / saving);
    if new.term < month {
        return Err(refusals::refuse(Cause::BreakEven));
    }
    Ok(month)
}
