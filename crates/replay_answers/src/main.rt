// Replays the Rust's answers: reads cases from standard input, asks the library each question again, and writes how many were replayed and how many of our
// answers lie apart from the Rust's. A wrong number beyond the distance that its case allows, another refusal, a refusal for a number, a question that is
// unknown and a case of another form all count as apart, so that the line would no longer be the one that stands in `stdout`.
// The list, `stdin`, is made by `differential/run .. --list LISTS` and then `differential/replayed LISTS crates/replay_answers/stdin`. Of draws it has the
// rows, and not what a draw says beside them.
#![tactic(auto)]

mod bonds;
mod curve_lookups;
mod listed;
mod loans;
mod powers;
mod rows;
mod spreads;
mod swap_values;

use refusals::{Cause, Refusal};
use replaying::{QUESTION, Tally, Unanswered};
use std::io;
use std::io::{Cursor, Read};

// Room for the list; a longer one is cut short, and says so by its tally.
const ROOM: usize = 400000;

// A code is one byte, so that a larger word is outside any set.
fn code_at(case: &[u8], k: usize) -> Result<u8, Refusal> {
    u8::try_from(replaying::word_at(case, k)).map_err(|_| refusals::refuse(Cause::Record))
}

// The hundreds of a question say what it is about. Questions go by the list's numbers: each is asked at one place, where the call beside it says what it is.
fn answer(question: u64, case: &[u8]) -> Result<f64, Unanswered> {
    match question / 100 {
        1 => powers::answer(question, case),
        2 => loans::answer(question, case),
        4 => bonds::answer(question, case),
        5 | 6 | 7 => listed::answer(question, case),
        _ => replaying::no_answer(),
    }
}

fn is_agreed(case: &[u8]) -> bool {
    let question = replaying::word_at(case, QUESTION);
    replaying::answer_agrees(answer(question, case), case)
}

// Every case of a list. One that is cut short is apart, and is the last.
fn replay(list: &[u8]) -> Tally {
    let mut tally = Tally::default();
    let mut left = list;
    while !left.is_empty() {
        let size = replaying::first_case(left);
        if size == 0 {
            return replaying::count_case(tally, false);
        }
        let (case, rest) = left.split_at(size);
        tally = replaying::count_case(tally, is_agreed(case));
        left = rest;
    }
    tally
}

fn main(rt: HostRuntime) -> io::Result<()> {
    let mut list = [0u8; ROOM];
    let read = io::copy(
        &mut rt.stdin().take(ROOM as u64),
        &mut Cursor::new(&mut list[..]),
    )?;
    let count = read.min(ROOM as u64) as usize;
    replaying::say(&rt, replay(&list[..count]))
}
