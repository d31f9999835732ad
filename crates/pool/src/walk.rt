// A loan's months, added to the months of its pool: the loan is walked once, and its balance is carried from month to month.
ghost use Rattle.std.specs.Prelude.{◌≡◌, false, ◌-◌, ◌*◌, ◌<◌, ◌≤◌, length};
ghost use Rattle.refusals.specs.Table.{bad_amount, bad_term};
ghost use Rattle.mortgage.specs.Payment.{payment, loan_of};
ghost use Rattle.mortgage.specs.Level.{after};
ghost use Rattle.pool.specs.Flows.{month_width};
ghost use Rattle.pool.specs.inner.Walk.{loan_added, walked};

use crate::months::{Month, WIDTH, add_above, add_month};
use mortgage::payment::{monthly_payment, monthly_rate};
use numbers::clamps::{lower_to, raise_to_zero};
use records::Terms;

// Months that were walked, and the balance before the next one.
#[derive(Clone, Copy)]
struct Run {
    count: u32,
    balance: f64,
}

// The first months, up to one whose principal a bound changes: the bounds are ways out of the loop, so that each month waits only for a product and two differences.
fn ordinary_months(terms: Terms, pay: f64, speeds: &[f64], room: &mut [f64]) -> Run
    requires { (pay ≡ payment terms) × (terms.term ≤ length speeds.now) × (terms.term * month_width ≤ length room.old) }
    ensures { (result.count ≤ terms.term) × (result.count < terms.term → result.balance ≡ (after result.count (loan_of terms (payment terms))).balance) × (walked (loan_added terms speeds.now) result.count (terms.term - result.count) room.new ≡ walked (loan_added terms speeds.now) 0 terms.term room.old) }
{
    let rate = monthly_rate(terms.rate);
    let mut balance = terms.principal;
    for k in 0..terms.term {
        let interest = balance * rate;
        let principal = pay - interest;
        if !(balance > 0.0 && principal > 0.0 && principal < balance) {
            return Run { count: k, balance };
        }
        let left = balance - principal;
        let month = Month {
            principal,
            interest,
            prepayment: left * speeds[k as usize],
        };
        add_month(room, k as usize * WIDTH, month);
        balance = left;
    }
    Run {
        count: terms.term,
        balance,
    }
}

// The months that are left, whatever they are.
fn any_months(terms: Terms, pay: f64, run: Run, speeds: &[f64], room: &mut [f64])
    requires pay_value { (pay ≡ payment terms) × (terms.term ≤ length speeds.now) × (terms.term * month_width ≤ length room.old) × (bad_amount terms.principal ≡ false) }
    requires count_le_term { (run.count ≤ terms.term) × (run.count < terms.term → run.balance ≡ (after run.count (loan_of terms (payment terms))).balance) }
    ensures { room.new ≡ walked (loan_added terms speeds.now) run.count (terms.term - run.count) room.old }
{
    let rate = monthly_rate(terms.rate);
    let mut balance = run.balance;
    for k in run.count..terms.term {
        let interest = balance * rate;
        let principal = lower_to(raise_to_zero(pay - interest), balance);
        let kept = balance - principal;
        let month = Month {
            principal,
            interest,
            prepayment: kept * speeds[k as usize],
        };
        add_above(room, k as usize * WIDTH, balance, month);
        balance = kept;
    }
}

// All months of a loan.
pub(crate) fn add_loan(terms: Terms, speeds: &[f64], room: &mut [f64])
    requires { (terms.term ≤ length speeds.now) × (terms.term * month_width ≤ length room.old) × (bad_amount terms.principal ≡ false) × (bad_term terms.term ≡ false) }
    ensures { room.new ≡ walked (loan_added terms speeds.now) 0 terms.term room.old }
{
    let pay = monthly_payment(terms).unwrap();
    let run = ordinary_months(terms, pay, speeds, room);
    any_months(terms, pay, run, speeds, room);
}
