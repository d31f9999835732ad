// What paying more each month saves.
ghost use Rattle.std.specs.Prelude.{◌≡◌, ◌+◌, ◌*◌, ◌<◌, ◌-◌, ◌≤◌};
ghost use Rattle.numbers.specs.Clamps.{plus_zero};
ghost use Rattle.refusals.specs.Answers.{outcome};
ghost use Rattle.mortgage.specs.Savings.{paid_down, paid_down_for, saved, prepayment_savings};

use records::Terms;
use refusals::Refusal;

// A loan that is paid down with more than its payment: so far.
#[derive(Clone, Copy)]
pub struct Paydown {
    pub balance: f64,
    pub months: u32,
    pub interest: f64,
}

#[derive(Clone, Copy)]
pub struct Savings {
    pub months: u32,
    pub interest: f64,
}

// One month of paying down: lowered to the balance first and raised to 0 after.
#[tactic(auto, unfolding(crate::specs::Savings::paid_down))]
fn month_down(payment: f64, r: f64, state: Paydown) -> Paydown
    requires { state.months < 4294967295 }
    ensures { result ≡ paid_down payment r state }
{
    let interest = state.balance * r;
    let offered = numbers::clamps::lower_to(payment - interest, state.balance);
    let principal = numbers::clamps::raise_to_zero(offered);
    Paydown {
        balance: state.balance - principal,
        months: state.months + 1,
        interest: state.interest + interest,
    }
}

// Paying down: while the balance is above 0, at most so many months, stopping once it is at or below 1e-6.
#[tactic(auto, unfolding(crate::specs::Savings::paid_down_for, crate::specs::Savings::paid_down))]
fn pay_down(payment: f64, r: f64, principal: f64, most: u32) -> Paydown
    ensures { result ≡ paid_down_for payment r most (record { balance = principal; months = 0; interest = plus_zero }) }
{
    let mut state = Paydown {
        balance: principal,
        months: 0,
        interest: 0.0,
    };
    for _ in 0..most {
        if !(state.balance > 0.0) {
            break;
        }
        state = month_down(payment, r, state);
        if state.balance <= 1e-6 {
            break;
        }
    }
    state
}

// The months and the interest saved, whatever the terms are, for a term of at most 1,200.
#[tactic(auto, unfolding(crate::specs::Savings::saved, crate::specs::Savings::paid_off))]
fn saved_by(terms: Terms, extra: f64) -> Savings
    requires { terms.term ≤ 1200 }
    ensures { result ≡ saved terms extra }
{
    let payment = crate::payment::worked_out(terms) + extra;
    let r = crate::payment::monthly_rate(terms.rate);
    let end = pay_down(payment, r, terms.principal, 2 * terms.term);
    let base = crate::totals::interest_sum(terms);
    Savings {
        months: terms.term.saturating_sub(end.months),
        interest: numbers::clamps::raise_to_zero(base - end.interest),
    }
}

// Months and interest saved by paying so much more each month.
#[tactic(auto, using(refusals::proofs::Verdicts::judged_carried, crate::proofs::PayingDown::accepted_term), unfolding(crate::specs::Savings::prepayment_savings))]
pub fn prepayment_savings(terms: Terms, extra: f64) -> Result<Savings, Refusal>
    ensures { outcome result ≡ prepayment_savings terms extra }
{
    crate::terms::judge_terms(terms)?;
    Ok(saved_by(terms, extra))
}
