// exp, ln and powers: of x, and of x to the power of y.
use replaying::{Unanswered, float_at};

const BYTES: usize = 7 * 8;

pub(crate) fn answer(question: u64, case: &[u8]) -> Result<f64, Unanswered> {
    if case.len() != BYTES {
        return replaying::no_answer();
    }
    let x = float_at(case, 5);
    match question {
        101 => Ok(elementary::exp::exp(x)),
        103 => Ok(elementary::ln::ln(x)),
        104 | 105 => Ok(elementary::power::power(x, float_at(case, 6))),
        _ => replaying::no_answer(),
    }
}
