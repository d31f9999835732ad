// A list of lookups on one yield curve: each time gives way to its answer.
ghost use Rattle.std.specs.Prelude.{◌≡◌};
ghost use Rattle.refusals.specs.Answers.{outcome};
ghost use Rattle.curves.specs.Lists.{each_outcome, each_after};
ghost use Rattle.yield_curve.specs.Linear.{yield_of, discount_of};

use curves::kinds::Kind;
use refusals::Refusal;

// The yield at each time.
#[tactic(auto, unfolding(curves::specs::Kinds::rate_on, curves::specs::Kinds::served_by, curves::specs::Kinds::along, crate::specs::Linear::yield_of))]
pub fn rate_at_each(times: &[f64], rates: &[f64], asked: &mut [f64]) -> Result<(), Refusal>
    ensures { (outcome result ≡ each_outcome times.now rates.now asked.old) × (asked.new ≡ each_after (yield_of times.now rates.now) times.now rates.now asked.old) }
{
    curves::each::rate_at_each(Kind::YieldCurve, times, rates, asked)
}

// The discount factor at each time.
#[tactic(auto, unfolding(curves::specs::Kinds::discount_on, curves::specs::Kinds::discounted, curves::specs::Kinds::rate_on, curves::specs::Kinds::served_by, curves::specs::Kinds::along, crate::specs::Linear::discount_of, crate::specs::Linear::yield_of))]
pub fn discount_factor_at_each(
    times: &[f64],
    rates: &[f64],
    asked: &mut [f64],
) -> Result<(), Refusal>
    ensures { (outcome result ≡ each_outcome times.now rates.now asked.old) × (asked.new ≡ each_after (discount_of times.now rates.now) times.now rates.now asked.old) }
{
    curves::each::discount_factor_at_each(Kind::YieldCurve, times, rates, asked)
}
