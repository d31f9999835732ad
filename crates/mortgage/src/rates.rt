// The rates of an adjustable loan, and what each of its years begins with.
ghost use Rattle.std.specs.Prelude.{◌≡◌, ◌<◌, ◌≤◌, length};
ghost use Rattle.mortgage.specs.Kinds.{way_of, later_years};
ghost use Rattle.mortgage.specs.Rates.{held_within, not_above, next_rate, in_force};
ghost use Rattle.mortgage.specs.inner.Coming.{coming_behind, with_coming, Listed};

use crate::Loan;
use crate::kinds::{Adjustment, Kind};

// Raised to the lowest if below it, else lowered to the highest if above it.
fn held_within(low: f64, high: f64, x: f64) -> f64
    ensures { result ≡ held_within low high x }
{
    if x < low {
        low
    } else if x > high {
        high
    } else {
        x
    }
}

fn not_above(most: f64, x: f64) -> f64
    ensures { result ≡ not_above most x }
{
    if x > most { most } else { x }
}

// A year's rate: its index rate, held within the cap of the last year's rate, then not above the first rate plus the lifetime cap.
#[tactic(auto, unfolding(crate::specs::Rates::next_rate))]
pub(crate) fn next_rate(adjustment: Adjustment, last: f64, index: f64) -> f64
    ensures { result ≡ next_rate adjustment last index }
{
    let held = held_within(last - adjustment.cap, last + adjustment.cap, index);
    not_above(adjustment.initial + adjustment.lifetime, held)
}

// What a year begins with: its rate, and the growth over the months that are left then. Neither waits for the balance, so that both are worked out while the year before is being laid.
#[derive(Clone, Copy)]
pub(crate) struct Coming {
    pub(crate) rate: f64,
    pub(crate) factor: f64,
}

// What the month behind so many begins with, where it is due and the first of a year after the first.
pub(crate) fn coming_behind(
    adjustment: Adjustment,
    last: f64,
    done: u32,
    term: u32,
    index: &[f64],
) -> Option<Coming>
    requires { later_years term ≤ length index.now }
    ensures { result ≡ coming_behind adjustment last done term index.now }
{
    if done == 0 || done % 12 != 0 || term <= done {
        return None;
    }
    let rate = next_rate(adjustment, last, index[(done / 12 - 1) as usize]);
    let factor = crate::payment::growth(crate::payment::monthly_rate(rate), term - done);
    Some(Coming { rate, factor })
}

// The loan with what is given for its next month: the first of a later year has its own rate, and a payment worked out on balance and months left.
pub(crate) fn with_coming(loan: Loan, coming: Option<Coming>) -> Loan
    requires { loan.done < loan.term }
    ensures { result ≡ with_coming coming loan }
{
    let Some(Coming { rate, factor }) = coming else {
        return loan;
    };
    let r = crate::payment::monthly_rate(rate);
    Loan {
        rate,
        payment: crate::payment::payment_by(loan.balance, r, loan.term - loan.done, factor),
        ..loan
    }
}

// The loan of any kind with what is given for its next month.
#[tactic(auto, using(crate::proofs::KindLaws::coming_given), unfolding(crate::specs::Rates::in_force))]
pub(crate) fn in_force(kind: Kind, loan: Loan, index: &[f64]) -> Loan
    requires { (loan.done < loan.term) × Listed (way_of kind index.now) loan.term }
    ensures { result ≡ in_force (way_of kind index.now) loan }
{
    match kind {
        Kind::Adjustable(adjustment) => with_coming(
            loan,
            coming_behind(adjustment, loan.rate, loan.done, loan.term, index),
        ),
        _ => loan,
    }
}
