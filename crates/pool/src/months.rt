// A month of a pool, and the months of a pool in a room, three numbers each.
ghost use Rattle.std.specs.Prelude.{◌≡◌, cond, ◌+◌, ◌≤◌, length};
ghost use Rattle.std.proofs.lemmas.List.Edits.{sets};
ghost use Rattle.std.specs.Float.Ieee.{lt};
ghost use Rattle.numbers.specs.Clamps.{plus_zero};
ghost use Rattle.pool.specs.Months.{plus};
ghost use Rattle.pool.specs.Flows.{month_width, places};
ghost use Rattle.pool.specs.inner.Walk.{month_from};

// The number of places of a month.
pub const WIDTH: usize = 3;

// No loan has more months.
pub(crate) const MOST_MONTHS: usize = 1200;

#[derive(Clone, Copy)]
pub struct Month {
    pub principal: f64,
    pub interest: f64,
    pub prepayment: f64,
}

// Adds a month's numbers to those that lie from a place of the room on.
pub(crate) fn add_month(room: &mut [f64], at: usize, month: Month)
    requires { at + month_width ≤ length room.old }
    ensures { room.new ≡ sets room.old at (places (plus (month_from room.old at) month)) }
{
    room[at] += month.principal;
    room[at + 1] += month.interest;
    room[at + 2] += month.prepayment;
}

// Adds them where a balance is above 0.
pub(crate) fn add_above(room: &mut [f64], at: usize, balance: f64, month: Month)
    requires { at + month_width ≤ length room.old }
    ensures { room.new ≡ sets room.old at (places (cond (lt plus_zero balance) (plus (month_from room.old at) month) (month_from room.old at))) }
{
    if balance > 0.0 {
        add_month(room, at, month);
    }
}
