// The three formulas along a segment, side by side.
ghost use Rattle.std.specs.Prelude.{◌≡◌};
ghost use Rattle.curves.specs.Formulas.{along_yields, along_zeros, along_rates};
ghost use Rattle.curves.specs.Kinds.{along};

use crate::kinds::Kind;
use crate::segments::Ends;

// y0 + w·(y1-y0).
#[tactic(auto, unfolding(crate::specs::Formulas::along_yields))]
fn along_yields(e: Ends, t: f64) -> f64
    ensures { result ≡ along_yields (record { t0 = e.t0; t1 = e.t1; r0 = e.r0; r1 = e.r1 }) t }
{
    e.r0 + (t - e.t0) / (e.t1 - e.t0) * (e.r1 - e.r0)
}

// z0·(1-w) + z1·w.
#[tactic(auto, unfolding(crate::specs::Formulas::along_zeros, crate::specs::Formulas::share))]
fn along_zeros(e: Ends, t: f64) -> f64
    ensures { result ≡ along_zeros (record { t0 = e.t0; t1 = e.t1; r0 = e.r0; r1 = e.r1 }) t }
{
    let w = (t - e.t0) / (e.t1 - e.t0);
    e.r0 * (1.0 - w) + e.r1 * w
}

// r0 + (r1-r0)·(t-t0)/(t1-t0), left to right.
#[tactic(auto, unfolding(crate::specs::Formulas::along_rates))]
fn along_rates(e: Ends, t: f64) -> f64
    ensures { result ≡ along_rates (record { t0 = e.t0; t1 = e.t1; r0 = e.r0; r1 = e.r1 }) t }
{
    e.r0 + (e.r1 - e.r0) * (t - e.t0) / (e.t1 - e.t0)
}

// By the kind of curve.
#[tactic(auto, unfolding(crate::specs::Kinds::along))]
pub fn along(kind: Kind, e: Ends, t: f64) -> f64
    ensures { result ≡ along kind (record { t0 = e.t0; t1 = e.t1; r0 = e.r0; r1 = e.r1 }) t }
{
    match kind {
        Kind::YieldCurve => along_yields(e, t),
        Kind::DiscountCurve => along_zeros(e, t),
        Kind::SpreadCurve => along_rates(e, t),
    }
}
