// Rows of a loan with a given payment: what stands at one place of a room after a draw.
use records::Terms;
use replaying::Unanswered;

// The most places that a room may have.
const MOST: u64 = 300;

pub(crate) fn answer(
    terms: Terms,
    payment: f64,
    place: u64,
    places: u64,
) -> Result<f64, Unanswered> {
    if places > MOST {
        return replaying::no_answer();
    }
    let mut whole = [0.0; MOST as usize];
    let room = &mut whole[..places as usize];
    let loan = mortgage::opening::open_with_payment(terms, payment)?;
    mortgage::draws::draw(loan, room)?;
    room.get(place as usize)
        .copied()
        .ok_or(Unanswered::NoQuestion)
}
