// Questions over lists: eight words of numbers, the counts of four lists, and then the items of each.
ghost use Rattle.std.specs.Prelude.{◌≤◌, IfOk};

use replaying::{Unanswered, word_at};

// The words before the items, and the most items that a list may have.
const HEAD: usize = 17;

const MOST: usize = 64;

// The items from a word on, as many as a list may have; only so many of them as the list counts are looked at.
fn items(case: &[u8], from: usize) -> [f64; MOST]
    requires { from ≤ 1000 }
{
    std::array::from_fn(|k| replaying::float_at(case, from + k))
}

// How many items a list has; with more than a list may have, it is no question.
fn count_at(case: &[u8], k: usize) -> Result<usize, Unanswered>
    ensures { IfOk result (λ count. count ≤ 64) }
{
    let count = word_at(case, k);
    if count > MOST as u64 {
        return Err(Unanswered::NoQuestion);
    }
    Ok(count as usize)
}

// The items of the four lists; a curve alone has two.
fn over(
    question: u64,
    case: &[u8],
    first: &[f64],
    second: &[f64],
    third: &[f64],
    fourth: &[f64],
) -> Result<f64, Unanswered> {
    match question / 100 {
        5 => crate::curve_lookups::answer(question, case, first, second),
        6 => crate::swap_values::answer(question, case, first, second),
        7 => crate::spreads::answer(question, case, first, second, third, fourth),
        _ => replaying::no_answer(),
    }
}

pub(crate) fn answer(question: u64, case: &[u8]) -> Result<f64, Unanswered> {
    let first = count_at(case, 13)?;
    let second = count_at(case, 14)?;
    let third = count_at(case, 15)?;
    let fourth = count_at(case, 16)?;
    let second_from = HEAD + first;
    let third_from = second_from + second;
    let fourth_from = third_from + third;
    if case.len() != (fourth_from + fourth) * 8 {
        return replaying::no_answer();
    }
    let a = items(case, HEAD);
    let b = items(case, second_from);
    let c = items(case, third_from);
    let d = items(case, fourth_from);
    over(
        question,
        case,
        &a[..first],
        &b[..second],
        &c[..third],
        &d[..fourth],
    )
}
