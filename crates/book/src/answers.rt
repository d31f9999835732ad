// The answers of a book's loans.
ghost use Rattle.std.specs.Prelude.{◌≡◌, ◌++◌, ◌≤◌, length, drop};
ghost use Rattle.book.specs.Book.{loan_count, answers_up_to};

use crate::loans::asking_at;

// The answers of the first loans; other places stay.
pub(crate) fn put_answers(records: &[u8], answers: &mut [u32], count: usize)
    requires { (count ≤ loan_count records.now) × (count ≤ length answers.old) }
    ensures { answers.new ≡ answers_up_to records.now count ++ drop count answers.old }
{
    let mut i: usize = 0;
    while i < count {
        answers[i] = asking_at(records, i).answer;
        i += 1;
    }
}
