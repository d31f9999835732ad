// A pool's months into lent room: scheduled principal, interest and prepayment of each.
ghost use Rattle.std.specs.Prelude.{◌≡◌, false, map, ℕ, ◌+◌, ◌*◌, ◌<◌, ◌≤◌, length, get_or, Some, IfOk};
ghost use Rattle.refusals.specs.Answers.{outcome};
ghost use Rattle.refusals.specs.Outcome.{judged};
ghost use Rattle.refusals.specs.Places.{placed};
ghost use Rattle.refusals.specs.Table.{bad_amount, bad_term};
ghost use Rattle.steps.specs.Steps.{laid};
ghost use Rattle.std.specs.Float.{nan};
ghost use Rattle.pool.specs.Speed.{smm};
ghost use Rattle.pool.specs.Loans.{any_of, longest, loans_in, pool_lines};
ghost use Rattle.pool.specs.Flows.{month_width, first_months, cash_flows, flows_into};
ghost use Rattle.pool.specs.inner.Verdict.{verdict_of, lacking};
ghost use Rattle.pool.specs.inner.Walk.{loans_added};

use crate::loans::Loans;
use crate::months::{MOST_MONTHS, WIDTH};
use crate::speed::{Speed, monthly_smm};
use crate::walk::add_loan;
use refusals::Refusal;

// A pool that no line of the table refuses, and its speed.
#[derive(Clone, Copy)]
pub(crate) struct Pool<'a> {
    pub(crate) loans: Loans<'a>,
    pub(crate) speed: Speed,
    pub(crate) history: &'a [f64],
    ghost principals: { any_of (map (λ t. bad_amount t.principal) (loans_in loans.bytes.now)) ≡ false },
    ghost terms: { any_of (map (λ t. bad_term t.term) (loans_in loans.bytes.now)) ≡ false },
}

impl<'a> Pool<'a> {
    // Judges the loans first, line 3 where a room is given.
    pub(crate) fn judged(
        bytes: &'a [u8],
        room: Option<usize>,
        speed: Speed,
        history: &'a [f64],
    ) -> Result<Pool<'a>, Refusal>
        ensures verdict { verdict_of result ≡ placed (judged (pool_lines bytes.now (lacking bytes.now room)) tt) }
        ensures same { IfOk result (λ p. (p.loans.bytes.now ≡ bytes.now) × (p.speed ≡ speed) × (p.history.now ≡ history.now)) }
    {
        let loans = Loans::judged(bytes, room)?;
        Ok(Pool {
            loans,
            speed,
            history,
        })
    }

    // The longest term.
    fn months(self) -> u32
        ensures longest { result ≡ longest (loans_in self.entry.loans.bytes.now) }
        ensures most { result ≤ 1200 }
    {
        self.loans.longest_term()
    }

    // The speed of each month.
    fn set_speeds(self, months: u32, speeds: &mut [f64])
        requires { months ≤ length speeds.old }
        ensures { (k : ℕ) → k < months → get_or speeds.new k nan ≡ smm self.entry.speed self.entry.history.now (k + 1) }
    {
        for k in 0..months {
            speeds[k as usize] = monthly_smm(self.speed, self.history, k + 1);
        }
    }

    // Loan after loan, so that each month's sums grow in the loans' order.
    fn add_loans(self, speeds: &[f64], room: &mut [f64])
        requires { (longest (loans_in self.loans.bytes.now) ≤ length speeds.now) × (longest (loans_in self.loans.bytes.now) * month_width ≤ length room.old) }
        ensures { room.new ≡ loans_added speeds.now (loans_in self.entry.loans.bytes.now) room.old }
    {
        for loan in self.loans {
            add_loan(loan, speeds, room);
        }
    }

    // Writes each month of the longest term, and gives how many there are.
    pub(crate) fn fill(self, room: &mut [f64]) -> u32
        requires { longest (loans_in self.loans.bytes.now) * month_width ≤ length room.old }
        ensures count { result ≡ longest (loans_in self.entry.loans.bytes.now) }
        ensures room_after { room.new ≡ laid month_width result (first_months (loans_in self.entry.loans.bytes.now) self.entry.speed self.entry.history.now result) room.old }
    {
        let months = self.months();
        let mut speeds = [0.0; MOST_MONTHS];
        self.set_speeds(months, &mut speeds);
        room[..months as usize * WIDTH].fill(0.0);
        self.add_loans(&speeds, room);
        months
    }
}

// Writes each month of the longest term, and gives how many there are.
#[tactic(auto, using(crate::proofs::Placing::said_so, crate::proofs::Written::untouched, crate::proofs::Written::written, crate::proofs::Accepted::enough_room), unfolding(crate::specs::Flows::cash_flows, crate::specs::Flows::flows_into))]
pub fn cash_flows(
    bytes: &[u8],
    speed: Speed,
    history: &[f64],
    room: &mut [f64],
) -> Result<u32, Refusal>
    ensures result_value { outcome result ≡ placed (cash_flows bytes.now (length room.old)) }
    ensures room_after { room.new ≡ flows_into bytes.now speed history.now room.old }
{
    let pool = Pool::judged(bytes, Some(room.len()), speed, history)?;
    Ok(pool.fill(room))
}
