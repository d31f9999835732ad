// Books of loans: kind 1 records end to end, drawn in one call.
ghost use Rattle.std.specs.Prelude.{◌≡◌, length};
ghost use Rattle.book.specs.Book.{book_drawn, book_room, book_answers};
ghost use Rattle.senyolanda.specs.Told.{told};
ghost use Rattle.senyolanda.specs.Books.{progress_numbers};

use crate::results::{ACCEPTED, refusal_result};

// Draws each loan whole, one behind the other, as far as the room goes.
#[unsafe(no_mangle)]
pub extern "C" fn senyolanda_draw_book(
    records: &[u8],
    answers: &mut [u32],
    room: &mut [f64],
    finished: &mut u32,
    cut: &mut u32,
    waiting: &mut u32,
) -> u64
    ensures waiting_after { (result, (finished.new, cut.new, waiting.new)) ≡ told progress_numbers (book_drawn records.now (length answers.old) (length room.old)) (finished.old, cut.old, waiting.old) }
    ensures room_after { room.new ≡ book_room records.now answers.old room.old }
    ensures answers_after { answers.new ≡ book_answers records.now answers.old room.old }
{
    match book::draw_book(records, answers, room) {
        Err(refusal) => refusal_result(refusal),
        Ok(progress) => {
            *finished = progress.finished;
            *cut = progress.cut;
            *waiting = progress.waiting;
            ACCEPTED
        }
    }
}
