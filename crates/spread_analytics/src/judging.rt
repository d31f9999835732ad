// The lines of the table that every function over cash flows and a curve asks first.
ghost use Rattle.std.specs.Prelude.{◌≡◌, false, [], ◌∷◌, map, ◌≤◌, length, position};
ghost use Rattle.refusals.specs.Outcome.{alone, judged};
ghost use Rattle.refusals.specs.Answers.{number, outcome};
ghost use Rattle.refusals.specs.Table.{too_many_flows, bad_time, bad_number};
ghost use Rattle.spread_analytics.specs.Spread.{spread_lines};

use curves::each::all_finite;
use refusals::{Cause, Refusal, bad_number, refuse, refuse_at};

fn first_bad(items: &[f64]) -> Option<usize>
    ensures { result ≡ position bad_number items.now }
{
    items.iter().position(|item| bad_number(*item))
}

// One line of a list: a single cause, and then each item that is not finite, at its index.
#[tactic(auto, using(crate::proofs::ItemLine::at_single, crate::proofs::ItemLine::all_finite_accepted, crate::proofs::ItemLine::items_by_position))]
fn judge_items(cause: Cause, single: bool, items: &[f64]) -> Result<(), Refusal>
    requires { single ≡ false → length items.now ≤ 1200 }
    ensures { outcome result ≡ judged ((record { number = number cause; causes = alone single (map bad_number items.now) }) ∷ []) tt }
{
    if single {
        return Err(refuse(cause));
    }
    if all_finite(items) {
        return Ok(());
    }
    match first_bad(items) {
        Some(i) => Err(refuse_at(cause, i)),
        None => Ok(()),
    }
}

// Lines 7 and 9, of the flows.
fn judge_flows(times: &[f64], amounts: &[f64], bad: bool) -> Result<(), Refusal>
    requires { length times.now ≡ length amounts.now }
    ensures { outcome result ≡ judged ((record { number = 7; causes = alone (too_many_flows (length times.now)) (map bad_time times.now) }) ∷ (record { number = 9; causes = alone bad (map bad_number amounts.now) }) ∷ []) tt }
{
    match judge_items(Cause::Time, times.len() > 1200, times) {
        Err(refusal) => Err(refusal),
        Ok(()) => judge_items(Cause::Number, bad, amounts),
    }
}

// Lines 4 to 7 and 9, of the flows, the curve and a market price.
pub(crate) fn judge_spread(
    times: &[f64],
    amounts: &[f64],
    tenors: &[f64],
    rates: &[f64],
    bad: bool,
) -> Result<(), Refusal>
    ensures { outcome result ≡ judged (spread_lines times.now amounts.now tenors.now rates.now bad) tt }
{
    if times.len() != amounts.len() {
        return Err(refuse(Cause::Lengths));
    }
    match curves::curve::judge_curve(tenors, rates) {
        Err(refusal) => Err(refusal),
        Ok(()) => judge_flows(times, amounts, bad),
    }
}
