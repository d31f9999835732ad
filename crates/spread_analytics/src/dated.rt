// Cash flows as a lent list of dated amounts: a thin layer, which gathers them into two lists of our own and asks the core.
ghost use Rattle.std.specs.Prelude.{◌≡◌, Bool, List, ◌≤◌, length, take, Float, OnOk, IfErr};
ghost use Rattle.refusals.specs.Outcome.{Outcome, refused, judged};
ghost use Rattle.refusals.specs.Answers.{number, outcome};
ghost use Rattle.spread_analytics.specs.Spread.{spread_lines, pv_cash_flows, z_spread, duration_convexity, spread_outcome};
ghost use Rattle.spread_analytics.specs.Dated.{times_of, amounts_of};
ghost use Rattle.spread_analytics.specs.declared.dated.CashFlow.{CashFlow};

use crate::spread::{Sensitivity, Spread, duration_convexity, pv_cash_flows, z_spread};
use crate::units::BasisPoints;
use refusals::{Cause, Refusal};

#[derive(Clone, Copy)]
pub struct CashFlow {
    pub time: f64,
    pub amount: f64,
}

// The flows as two lists, in the first places of room of our own.
#[derive(Clone, Copy)]
struct Lists {
    times: [f64; 1200],
    amounts: [f64; 1200],
    count: usize,
    ghost in_room: { (count ≤ length times) × (count ≤ length amounts) },
}

impl Lists {
    fn times(&self) -> &[f64]
        ensures { result.now ≡ take self.now.count self.now.times }
    {
        &self.times[..self.count]
    }

    fn amounts(&self) -> &[f64]
        ensures { result.now ≡ take self.now.count self.now.amounts }
    {
        &self.amounts[..self.count]
    }
}

// More than 1,200 flows are refused: by the curve's own refusal, and else by line 7.
fn judge_count(count: usize, tenors: &[f64], rates: &[f64]) -> Result<(), Refusal>
    ensures few { OnOk result (count ≤ 1200) }
    ensures many { IfErr result (λ r. (times amounts : List Float) (bad : Bool) → length times ≡ count → length amounts ≡ count
        → ◌≡◌ {A = Outcome Unit} (refused (number r.cause) r.place) (judged (spread_lines times amounts tenors.now rates.now bad) tt)) }
{
    if count <= 1200 {
        return Ok(());
    }
    curves::curve::judge_curve(tenors, rates)?;
    Err(refusals::refuse(Cause::Time))
}

fn gathered(flows: &[CashFlow]) -> Lists
    requires { length flows.now ≤ 1200 }
    ensures times { take result.count result.times ≡ times_of flows.now }
    ensures amounts { take result.count result.amounts ≡ amounts_of flows.now }
{
    let mut lists = Lists {
        times: [0.0; 1200],
        amounts: [0.0; 1200],
        count: flows.len(),
    };
    for (i, flow) in flows.iter().enumerate() {
        lists.times[i] = flow.time;
        lists.amounts[i] = flow.amount;
    }
    lists
}

// The present value of flows over a curve and a spread.
pub fn pv_of(
    flows: &[CashFlow],
    tenors: &[f64],
    rates: &[f64],
    spread: BasisPoints,
) -> Result<f64, Refusal>
    ensures { outcome result ≡ pv_cash_flows (times_of flows.now) (amounts_of flows.now) tenors.now rates.now spread.0 }
{
    judge_count(flows.len(), tenors, rates)?;
    let lists = gathered(flows);
    pv_cash_flows(lists.times(), lists.amounts(), tenors, rates, spread)
}

// The spread at which flows are worth the market price.
pub fn z_spread_of(
    flows: &[CashFlow],
    tenors: &[f64],
    rates: &[f64],
    market: f64,
) -> Result<Spread, Refusal>
    ensures { spread_outcome result ≡ z_spread (times_of flows.now) (amounts_of flows.now) tenors.now rates.now market }
{
    judge_count(flows.len(), tenors, rates)?;
    let lists = gathered(flows);
    z_spread(lists.times(), lists.amounts(), tenors, rates, market)
}

// The duration and convexity of flows.
pub fn duration_convexity_of(
    flows: &[CashFlow],
    tenors: &[f64],
    rates: &[f64],
    spread: BasisPoints,
) -> Result<Sensitivity, Refusal>
    ensures { outcome result ≡ duration_convexity (times_of flows.now) (amounts_of flows.now) tenors.now rates.now spread.0 }
{
    judge_count(flows.len(), tenors, rates)?;
    let lists = gathered(flows);
    duration_convexity(lists.times(), lists.amounts(), tenors, rates, spread)
}
