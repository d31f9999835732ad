// The three kinds of curve, and the segment that serves a time on each.
ghost use Rattle.std.specs.Prelude.{◌≡◌, map, ℕ, ◌<◌, length, get_or};
ghost use Rattle.curves.specs.Segments.{Rising};
ghost use Rattle.curves.specs.Kinds.{served_by};
ghost use Rattle.curves.specs.inner.Halving.{passes};
ghost use Rattle.curves.specs.inner.Kinds.{rule_of, PastOn};

use crate::ending::Ending;
use crate::halving::{Serving, eight_segments, onward};
use crate::starting::Starting;

#[derive(Clone, Copy)]
pub enum Kind {
    YieldCurve,
    DiscountCurve,
    SpreadCurve,
}

#[tactic(auto, unfolding(crate::specs::Kinds::served_by))]
pub(crate) fn segment_on(kind: Kind, times: &[f64], t: f64) -> usize
    ensures { Rising times.now → result ≡ served_by kind times.now t }
{
    match kind {
        Kind::YieldCurve | Kind::DiscountCurve => crate::ending::segment(times, t),
        Kind::SpreadCurve => crate::starting::segment(times, t),
    }
}

#[tactic(auto, unfolding(crate::specs::Kinds::served_by, crate::specs::inner::Kinds::rule_of, crate::specs::inner::Halving::segment_by))]
pub(crate) fn eight_on(kind: Kind, times: &[f64], asked: &[f64]) -> [usize; 8]
    requires { length asked.now ≡ 8 }
    ensures by_index { (k : ℕ) → k < 8 → 0 < length times.now → get_or result k 0 < length times.now }
    ensures value { Rising times.now → result ≡ map (served_by kind times.now) asked.now }
{
    match kind {
        Kind::YieldCurve | Kind::DiscountCurve => eight_segments::<Ending>(times, asked),
        Kind::SpreadCurve => eight_segments::<Starting>(times, asked),
    }
}

// The segment of a time, gone on to from one whose forerunners the time is past.
#[tactic(auto, unfolding(crate::specs::Kinds::served_by, crate::specs::inner::Kinds::rule_of, crate::specs::inner::Halving::segment_by))]
pub(crate) fn onward_on(kind: Kind, times: &[f64], from: usize, t: f64) -> usize
    ensures { PastOn kind times.now t from → result ≡ served_by kind times.now t }
{
    match kind {
        Kind::YieldCurve | Kind::DiscountCurve => onward::<Ending>(times, from, t),
        Kind::SpreadCurve => onward::<Starting>(times, from, t),
    }
}

// The test of a segment's end, by the kind's rule.
#[tactic(auto, unfolding(crate::specs::inner::Kinds::rule_of))]
pub(crate) fn passes_on(kind: Kind, t: f64, end: f64) -> bool
    ensures { result ≡ passes (rule_of kind) t end }
{
    match kind {
        Kind::YieldCurve | Kind::DiscountCurve => Ending::passes(t, end),
        Kind::SpreadCurve => Starting::passes(t, end),
    }
}
