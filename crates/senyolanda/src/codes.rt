// Codes as C gives them: numbers that are converted before anything is asked of them.
ghost use Rattle.std.specs.Prelude.{◌≡◌, ◌<◌, [], ◌∷◌};
ghost use Rattle.refusals.specs.Outcome.{line, judged};
ghost use Rattle.refusals.specs.Table.{bad_code};
ghost use Rattle.refusals.specs.Answers.{outcome};
ghost use Rattle.swaps.specs.Codes.{day_count_of};

use refusals::{Cause, Refusal};
use swaps::day_counts::DayCount;

// A code from 0 to the last of its set; any other is line 11.
#[tactic(auto, unfolding(refusals::specs::Table::bad_code, refusals::specs::Outcome::judged, refusals::specs::Outcome::first_or))]
pub(crate) fn code_within(code: u32, last: u8) -> Result<u8, Refusal>
    ensures { outcome result ≡ judged (line 11 (bad_code last code) ∷ []) code }
{
    match u8::try_from(code) {
        Ok(given) if given <= last => Ok(given),
        _ => Err(refusals::refuse(Cause::Record)),
    }
}

#[tactic(auto, unfolding(swaps::specs::Codes::day_count_of, refusals::specs::Table::bad_code, refusals::specs::Outcome::judged, refusals::specs::Outcome::first_or))]
pub(crate) fn day_count_of(code: u32) -> Result<DayCount, Refusal>
    ensures { outcome result ≡ day_count_of code }
{
    code_within(code, 2).and_then(swaps::day_counts::day_count_of)
}
