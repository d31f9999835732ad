// Lookups on a curve, one at a time.
ghost use Rattle.std.specs.Prelude.{◌≡◌};
ghost use Rattle.curves.specs.Segments.{Rising};
ghost use Rattle.curves.specs.Kinds.{rate_on, discount_on, exponent_at};

use crate::formulas::along;
use crate::kinds::{Kind, segment_on};
use crate::segments::{ends_of, knot_at, last_knot};
use elementary::exp::exp;

// The rate at a time.
#[tactic(auto, unfolding(crate::specs::Kinds::rate_on, crate::specs::Segments::flat_outside))]
pub fn rate_of(kind: Kind, times: &[f64], rates: &[f64], t: f64) -> f64
    ensures { Rising times.now → result ≡ rate_on kind times.now rates.now t }
{
    if t <= knot_at(times, 0) {
        return knot_at(rates, 0);
    }
    if last_knot(times) <= t {
        return last_knot(rates);
    }
    along(kind, ends_of(times, rates, segment_on(kind, times, t)), t)
}

// What the discount factor at a time is the exp of, by the rate there.
#[tactic(auto, unfolding(crate::specs::Kinds::exponent_at))]
pub fn exponent_at(kind: Kind, rate: f64, t: f64) -> f64
    ensures { result ≡ exponent_at kind rate t }
{
    match kind {
        Kind::DiscountCurve if t <= 0.0 => 0.0,
        Kind::YieldCurve | Kind::DiscountCurve | Kind::SpreadCurve => -rate * t,
    }
}

// The discount factor at a time.
#[tactic(auto, using(crate::proofs::Answers::exp_of_exponent), unfolding(crate::specs::Kinds::discount_on))]
pub fn discount_of(kind: Kind, times: &[f64], rates: &[f64], t: f64) -> f64
    ensures { Rising times.now → result ≡ discount_on kind times.now rates.now t }
{
    exp(exponent_at(kind, rate_of(kind, times, rates, t), t))
}
