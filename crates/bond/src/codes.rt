// The code of a coupon frequency in a record: 0 to 3, in the order of the enum.
ghost use Rattle.std.specs.Prelude.{◌≡◌};
ghost use Rattle.refusals.specs.Answers.{outcome};
ghost use Rattle.bond.specs.Codes.{code_of, frequency_of};

use crate::Frequency;
use refusals::{Cause, Refusal};

// The frequency of a code; one outside the set is line 11.
#[tactic(auto, using(refusals::proofs::Verdicts::refused_as), unfolding(crate::specs::Codes::frequency_of, crate::specs::Codes::frequency_at, refusals::specs::Table::bad_code, refusals::specs::Outcome::judged, refusals::specs::Outcome::first_or))]
pub fn frequency_of(code: u8) -> Result<Frequency, Refusal>
    ensures { outcome result ≡ frequency_of code }
{
    match code {
        0 => Ok(Frequency::Annual),
        1 => Ok(Frequency::SemiAnnual),
        2 => Ok(Frequency::Quarterly),
        3 => Ok(Frequency::Monthly),
        _ => Err(refusals::refuse(Cause::Record)),
    }
}

pub fn code_of(frequency: Frequency) -> u8
    ensures { result ≡ code_of frequency }
{
    match frequency {
        Frequency::Annual => 0,
        Frequency::SemiAnnual => 1,
        Frequency::Quarterly => 2,
        Frequency::Monthly => 3,
    }
}
