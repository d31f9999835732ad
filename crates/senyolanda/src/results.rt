// The result of a call, and answers put into their lent places. What the exported functions read, and values of several words that they answer with,
// are taken apart by `match`: by `and_then` or `map` such a value goes through memory in pieces of another size, for which a call waits 5 to 20 ns.
ghost use Rattle.std.specs.Prelude.{◌≡◌};
ghost use Rattle.refusals.specs.Answers.{number, outcome};
ghost use Rattle.senyolanda.specs.Told.{refusal_result, told_number};

use refusals::Refusal;

// What a call that was accepted gives.
pub(crate) const ACCEPTED: u64 = 0;

// A refusal's number in the low half, its place in the high half.
pub(crate) fn refusal_result(refusal: Refusal) -> u64
    ensures { result ≡ refusal_result (number refusal.cause) refusal.place }
{
    u64::from(refusal.number()) + 0x1_0000_0000 * u64::from(refusal.place)
}

// The result of a call that answers with a value, and the value in its place.
pub(crate) fn put<T: Copy>(answer: Result<T, Refusal>, place: &mut T) -> u64
    ensures { (result, place.new) ≡ told_number (outcome answer) place.old }
{
    match answer {
        Err(refusal) => refusal_result(refusal),
        Ok(value) => {
            *place = value;
            ACCEPTED
        }
    }
}

// The same of a value in two places.
pub(crate) fn put_two<T: Copy, U: Copy>(
    answer: Result<(T, U), Refusal>,
    first: &mut T,
    second: &mut U,
) -> u64
    ensures { (result, (first.new, second.new)) ≡ told_number (outcome answer) (first.old, second.old) }
{
    match answer {
        Err(refusal) => refusal_result(refusal),
        Ok(values) => {
            (*first, *second) = values;
            ACCEPTED
        }
    }
}

// The result of a call that answers in place.
pub(crate) fn verdict_result(verdict: Result<(), Refusal>) -> u64
    ensures { (result, tt) ≡ told_number (outcome verdict) tt }
{
    verdict.map_or_else(refusal_result, |()| ACCEPTED)
}
