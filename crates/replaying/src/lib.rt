// What the programs share that replay the Rust's answers: the words of a list, whether an answer of ours agrees with the Rust's, and the tally.
// A case begins with how many words follow; then come the question, the result, the Rust's number, how far apart the numbers may lie, and what is asked about.
#![tactic(auto)]

ghost use Rattle.std.specs.Prelude.{◌≡◌, ◌≤◌, length};
ghost use Rattle.refusals.specs.Outcome.{refused};
ghost use Rattle.refusals.specs.Answers.{number};
ghost use Rattle.replaying.specs.Answered.{answered};
ghost use Rattle.replaying.specs.Words.{word_at, float_at, whole_at, first_case};
ghost use Rattle.replaying.specs.Agreement.{agrees, result_of, answer_agrees, counted};
ghost use Rattle.replaying.specs.declared.Unanswered.TheVariants.{Refused};

use refusals::Refusal;
use std::{fmt, io};

// Words of a case: what is asked about stands from 5 on.
pub const QUESTION: usize = 1;

const RESULT: usize = 2;

const NUMBER: usize = 3;

const DISTANCE: usize = 4;

// Why a question has no number for an answer: the library refused it, or it is no question.
#[derive(Clone, Copy, Debug, PartialEq, Eq)]
pub enum Unanswered {
    Refused(Refusal),
    NoQuestion,
}

impl From<Refusal> for Unanswered {
    ghost from_gives = { λ refusal unanswered. unanswered ≡ Refused refusal };

    fn from(refusal: Refusal) -> Unanswered {
        Unanswered::Refused(refusal)
    }
}

// How many cases were replayed, and in how many of them our answer lies apart from the Rust's.
#[derive(Clone, Copy, Default)]
pub struct Tally {
    pub replayed: u64,
    pub apart: u64,
}

impl fmt::Display for Tally {
    fn fmt<W: fmt::Write>(&self, f: &mut fmt::Formatter<W>) -> fmt::Result {
        write!(f, "replayed {}, apart {}", self.replayed, self.apart)
    }
}

// Word k of a list; 0 where the list ends before it.
#[tactic(auto, using(crate::proofs::Words::past_end))]
pub fn word_at(list: &[u8], k: usize) -> u64
    ensures { result ≡ word_at k list.now }
{
    let (words, _) = list.as_chunks::<8>();
    match words.get(k) {
        Some(word) => u64::from_le_bytes(*word),
        None => 0,
    }
}

// The float whose bits are word k.
pub fn float_at(list: &[u8], k: usize) -> f64
    ensures { result ≡ float_at k list.now }
{
    numbers::patterns::float_of(word_at(list, k))
}

// Word k as a whole number of 32 bits, which no question has beyond.
#[tactic(auto, unfolding(crate::specs::Words::whole_at))]
pub fn whole_at(list: &[u8], k: usize) -> Result<u32, Unanswered>
    ensures { answered result ≡ whole_at k list.now }
{
    u32::try_from(word_at(list, k)).map_err(|_| Unanswered::NoQuestion)
}

// How many bytes the first case of a list takes; 0 where the list ends before the case does.
#[tactic(auto, unfolding(crate::specs::Words::first_case))]
pub fn first_case(list: &[u8]) -> usize
    ensures value { result ≡ first_case list.now }
    ensures upper_bound { result ≤ length list.now }
{
    let following = word_at(list, 0);
    if following < (list.len() / 8) as u64 {
        (following as usize + 1) * 8
    } else {
        0
    }
}

// What is no question has no answer, and agrees with nothing.
pub fn no_answer() -> Result<f64, Unanswered>
    ensures { answered result ≡ refused 0 0 }
{
    Err(Unanswered::NoQuestion)
}

// Whether our number agrees with the Rust's: a NaN with a NaN, equal numbers, zeros of either sign among them, and else those whose distance is finite
// and at most what is allowed. So an infinity agrees with itself alone.
#[tactic(auto, using(crate::proofs::Agreeing::float_tests), unfolding(crate::specs::Agreement::agrees))]
pub fn agrees(ours: f64, theirs: f64, allowed: f64) -> bool
    ensures { result ≡ agrees ours theirs allowed }
{
    if ours.is_nan() {
        return theirs.is_nan();
    }
    let distance = (ours - theirs).abs();
    ours == theirs || distance < f64::INFINITY && distance <= allowed
}

// What the library's result says of a refusal: its number in the low half, its place in the high half.
fn result_of(refusal: Refusal) -> u64
    ensures { result ≡ result_of (number refusal.cause) refusal.place }
{
    u64::from(refusal.number()) + 0x1_0000_0000 * u64::from(refusal.place)
}

// Whether our answer agrees with the one that a case holds. A result of 0 was accepted.
#[tactic(auto, unfolding(crate::specs::Agreement::answer_agrees))]
pub fn answer_agrees(ours: Result<f64, Unanswered>, case: &[u8]) -> bool
    ensures { result ≡ answer_agrees (answered ours) case.now }
{
    let result = word_at(case, RESULT);
    match ours {
        Ok(number) => {
            result == 0 && agrees(number, float_at(case, NUMBER), float_at(case, DISTANCE))
        }
        Err(Unanswered::Refused(refusal)) => result == result_of(refusal),
        Err(Unanswered::NoQuestion) => false,
    }
}

// The tally with one case more.
#[tactic(auto, unfolding(crate::specs::Agreement::counted))]
pub fn count_case(tally: Tally, agreed: bool) -> Tally
    ensures { result ≡ counted tally agreed }
{
    Tally {
        replayed: tally.replayed.wrapping_add(1),
        apart: tally.apart.wrapping_add(u64::from(!agreed)),
    }
}

// Writes the tally as a line.
pub fn say(out: &impl Print, tally: Tally) -> io::Result<()> {
    println!(out; "{tally}")
}
