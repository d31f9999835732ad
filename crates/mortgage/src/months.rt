// The next rows of a loan on its course, one by one.
ghost use Rattle.std.specs.Prelude.{◌≡◌, ◌+◌, ◌≤◌};
ghost use Rattle.std.specs.Iterator.{YieldsFirst, item_count};
ghost use Rattle.mortgage.specs.Kinds.{course_of, level};
ghost use Rattle.mortgage.specs.Level.{end_month};
ghost use Rattle.mortgage.specs.inner.RowsToCome.{rows_to_come};

use crate::Loan;
use crate::kinds::Course;
use records::Row;

// So many rows, the next of them that of the loan in hand.
#[derive(Clone, Copy)]
pub(crate) struct NextRows {
    loan: Loan,
    course: Course,
    left: u32,
    ghost due: { loan.done + left ≤ course.end },
}

impl Iterator for NextRows {
    type Item = Row;

    ghost next_gives = { YieldsFirst (λ s. rows_to_come s.course s.left s.loan) };

    ghost remaining = { item_count (λ s. rows_to_come s.course s.left s.loan) };

    #[tactic(auto, unfolding(crate::specs::inner::RowsToCome::rows_to_come, crate::specs::Month::next_on))]
    fn next(&mut self) -> Option<Row> {
        if self.left == 0 {
            return None;
        }
        let month = crate::rows::any_month(self.loan, self.course);
        self.loan = month.next;
        self.left -= 1;
        Some(month.row)
    }
}

// The next rows of a level loan.
#[tactic(auto, unfolding(crate::specs::Month::end_month))]
pub(crate) fn rows_of(loan: Loan, count: u32) -> NextRows
    requires { loan.done + count ≤ end_month loan }
    ensures { rows_to_come result.course result.left result.loan ≡ rows_to_come (course_of level loan.term) count loan }
{
    NextRows {
        loan,
        course: crate::kinds::level_course(loan.term),
        left: count,
    }
}
