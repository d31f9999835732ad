// Rows at places of a room: one loan's, and two loans' at once.
ghost use Rattle.std.specs.Prelude.{◌≡◌, ◌+◌, ◌-◌, ◌*◌, ◌<◌, ◌≤◌, length};
ghost use Rattle.std.proofs.lemmas.List.Edits.{sets};
ghost use Rattle.mortgage.specs.Row.{width};
ghost use Rattle.mortgage.specs.Level.{end_month, after, rows};
ghost use Rattle.mortgage.specs.Places.{count_at, count_at_both};
ghost use Rattle.mortgage.specs.inner.Laying.{LaysPair};

use crate::Loan;
use crate::draws::{WIDTH, put_row, rows_within};
use crate::kinds::level_course;

// Two loans in hand.
#[derive(Clone, Copy)]
pub struct Pair {
    pub first: Loan,
    pub second: Loan,
}

// Of the rows that are asked for, those that are due and lie between the place and the end.
fn count_at(loan: Loan, asked: u32, at: usize, end: usize) -> u32
    ensures { result ≡ count_at loan asked at end }
{
    rows_within(crate::rows::rows_due(loan), end.saturating_sub(at)).min(asked)
}

// The next rows of a loan, from a place of the room.
fn lay_from(loan: Loan, room: &mut [f64], at: usize, count: u32) -> Loan
    requires { (0 < count) × (at + count * width ≤ length room.old) × (loan.done + count ≤ end_month loan) }
    ensures value { result ≡ after count loan }
    ensures room_after { room.new ≡ sets room.old at (rows count loan) }
{
    let course = level_course(loan.term);
    crate::draws::lay_rows(loan, course, &mut room[at..], count, count - 1)
}

// Rows of ordinary months of two loans at once, fewer than so many of each: it stops before a month whose principal a bound changes, and the months done tell how many there are.
// The two wait for nothing of each other, so that one's product and differences are worked out while the other's are waited for.
#[tactic(auto, unfolding(steps::specs::Steps::stepped, steps::specs::Steps::pieces))]
fn pair_rows(first: Loan, second: Loan, room: &mut [f64], a: usize, b: usize, most: u32) -> Pair
    requires most_nonzero { (0 < most) × (a + most * width ≤ b) × (b + most * width ≤ length room.old) }
    requires most_bound { (first.done + most ≤ end_month first) × (second.done + most ≤ end_month second) }
    ensures laid { LaysPair (result.first.done - first.done) a b first second room.old result.first result.second room.new }
    ensures below { (first.done ≤ result.first.done) × (result.first.done < first.done + most) }
{
    let x_course = level_course(first.term);
    let y_course = level_course(second.term);
    let x_rate = crate::payment::monthly_rate(first.rate);
    let y_rate = crate::payment::monthly_rate(second.rate);
    let mut x = first;
    let mut y = second;
    for k in 0..most - 1 {
        let Some(x_month) = crate::rows::ordinary_month(x, x_course, x.balance * x_rate) else {
            break;
        };
        let Some(y_month) = crate::rows::ordinary_month(y, y_course, y.balance * y_rate) else {
            break;
        };
        let laid = k as usize * WIDTH;
        put_row(room, a + laid, x_month.row);
        put_row(room, b + laid, y_month.row);
        x = x_month.next;
        y = y_month.next;
    }
    Pair {
        first: x,
        second: y,
    }
}

// The next rows of two loans, from two places of the room: ordinary months of both at once, then what is left of each.
fn lay_pair(first: Loan, second: Loan, room: &mut [f64], a: usize, b: usize, count: u32) -> Pair
    requires count_nonzero { (0 < count) × (a + count * width ≤ b) × (b + count * width ≤ length room.old) }
    requires count_bound { (first.done + count ≤ end_month first) × (second.done + count ≤ end_month second) }
    ensures { LaysPair count a b first second room.old result.first result.second room.new }
{
    let next = pair_rows(first, second, room, a, b, count);
    let rows = next.first.done - first.done;
    let laid = rows as usize * WIDTH;
    Pair {
        first: lay_from(next.first, room, a + laid, count - rows),
        second: lay_from(next.second, room, b + laid, count - rows),
    }
}

// The next rows of a loan, from a place of the room: as many of those asked for as are due and the room holds from there.
#[tactic(auto, unfolding(steps::specs::Steps::stepped, steps::specs::Steps::pieces, crate::specs::Month::due))]
pub fn lay_at(loan: Loan, room: &mut [f64], at: usize, asked: u32) -> Loan
    ensures value { result ≡ after (count_at loan asked at (length room.old)) loan }
    ensures room_after { room.new ≡ sets room.old at (rows (count_at loan asked at (length room.old)) loan) }
{
    let count = count_at(loan, asked, at, room.len());
    if count == 0 {
        return loan;
    }
    lay_from(loan, room, at, count)
}

// The next rows of two loans, as many of each, from two places of the room: as many of those asked for as both have due and as lie before the second place and behind it.
#[tactic(auto, unfolding(steps::specs::Steps::stepped, steps::specs::Steps::pieces, crate::specs::Month::due))]
pub fn lay_both(first: Loan, second: Loan, room: &mut [f64], a: usize, b: usize, asked: u32) -> Pair
    ensures first_value { (result.first ≡ after (count_at_both first second asked a b (length room.old)) first) × (result.second ≡ after (count_at_both first second asked a b (length room.old)) second) }
    ensures room_after { room.new ≡ sets (sets room.old a (rows (count_at_both first second asked a b (length room.old)) first)) b (rows (count_at_both first second asked a b (length room.old)) second) }
{
    let of_first = count_at(first, asked, a, b);
    let of_second = count_at(second, asked, b, room.len());
    let count = of_first.min(of_second);
    if count == 0 {
        return Pair { first, second };
    }
    lay_pair(first, second, room, a, b, count)
}
