// A list of lookups on one discount curve: each time gives way to its answer.
ghost use Rattle.std.specs.Prelude.{◌≡◌};
ghost use Rattle.refusals.specs.Answers.{outcome};
ghost use Rattle.curves.specs.Lists.{each_outcome, each_after};
ghost use Rattle.swaps.specs.Discount.{zero_rate_of, discount_of};

use curves::kinds::Kind;
use refusals::Refusal;

// The zero rate at each time.
pub fn rate_at_each(tenors: &[f64], zeros: &[f64], asked: &mut [f64]) -> Result<(), Refusal>
    ensures { (outcome result ≡ each_outcome tenors.now zeros.now asked.old) × (asked.new ≡ each_after (zero_rate_of tenors.now zeros.now) tenors.now zeros.now asked.old) }
{
    curves::each::rate_at_each(Kind::DiscountCurve, tenors, zeros, asked)
}

// The discount factor at each time.
pub fn discount_factor_at_each(
    tenors: &[f64],
    zeros: &[f64],
    asked: &mut [f64],
) -> Result<(), Refusal>
    ensures { (outcome result ≡ each_outcome tenors.now zeros.now asked.old) × (asked.new ≡ each_after (discount_of tenors.now zeros.now) tenors.now zeros.now asked.old) }
{
    curves::each::discount_factor_at_each(Kind::DiscountCurve, tenors, zeros, asked)
}
