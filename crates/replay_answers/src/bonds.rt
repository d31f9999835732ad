// Bonds: face, coupon, maturity and the frequency's code, a yield or a market price, and by how much the yield moves; a
// zero-coupon bond has a yield and a maturity alone.
use bond::Bond;
use replaying::{Unanswered, float_at};

const BYTES: usize = 11 * 8;

fn bond_in(case: &[u8]) -> Result<Bond, Unanswered> {
    Ok(Bond {
        face: float_at(case, 5),
        coupon: float_at(case, 6),
        maturity: float_at(case, 7),
        frequency: bond::codes::frequency_of(crate::code_at(case, 8)?)?,
    })
}

// The same questions at a yield or at a price, anywhere or in document 01's range, have two families.
fn of_bond(question: u64, bond: Bond, at: f64, case: &[u8]) -> Result<f64, Unanswered> {
    Ok(match question {
        401 | 402 => bond::price::price(at, bond)?,
        403 => bond::price::dv01(at, bond)?,
        404 => bond::durations::macaulay_duration(at, bond)?,
        405 => bond::durations::modified_duration(at, bond)?,
        406 => bond::durations::convexity(at, bond)?,
        407 => bond::durations::price_change_approximation(at, float_at(case, 10), bond)?,
        408 | 409 => bond::yields::yield_to_maturity(at, bond)?,
        410 => bond::durations::macaulay_duration_at_price(at, bond)?,
        411 => bond::durations::modified_duration_at_price(at, bond)?,
        412 => bond::durations::convexity_at_price(at, bond)?,
        413 => bond::price::current_yield(at, bond)?,
        _ => return replaying::no_answer(),
    })
}

pub(crate) fn answer(question: u64, case: &[u8]) -> Result<f64, Unanswered> {
    if case.len() != BYTES {
        return replaying::no_answer();
    }
    if question == 414 {
        let price = bond::price::zero_coupon_bond_price(float_at(case, 5), float_at(case, 6))?;
        return Ok(price);
    }
    of_bond(question, bond_in(case)?, float_at(case, 9), case)
}
