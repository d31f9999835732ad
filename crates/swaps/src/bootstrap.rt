// The bootstrap: zero rates from par rates, in room of its own for 120 knots, filled one knot at a time.
ghost use Rattle.std.specs.Prelude.{◌≡◌, not, ◌||◌, [], ◌∷◌, map, ◌≤◌, length};
ghost use Rattle.std.specs.Float.Ieee.{lt};
ghost use Rattle.refusals.specs.Outcome.{refused, accepted, judged};
ghost use Rattle.refusals.specs.Answers.{outcome};
ghost use Rattle.refusals.specs.Table.{bad_knot, bad_knots, bad_tenor};
ghost use Rattle.curves.specs.Segments.{Rising};
ghost use Rattle.swaps.specs.Bootstrap.{zeros_up_to, either_of, par_lines};
ghost use Rattle.swaps.specs.Bootstrapped.{curve_of, bootstrapped};

use crate::knots::next_zero;
use curves::curve::{bad_knot_after, bad_knot_count};
use numbers::sizes::infinity;
use refusals::{Cause, Refusal, refuse};

// A discount curve with its knots in front; +0 beyond them.
#[derive(Clone, Copy)]
pub struct DiscountCurve {
    pub tenors: [f64; 120],
    pub zeros: [f64; 120],
    pub knots: usize,
}

// The verdict, and the curve, which has no knot where the verdict refuses.
#[derive(Clone, Copy)]
pub struct Bootstrap {
    pub verdict: Result<(), Refusal>,
    pub curve: DiscountCurve,
}

// Line 6, for a bootstrap also: a tenor of 0 or above 100.
#[tactic(auto, unfolding(refusals::specs::Table::bad_tenor))]
fn bad_tenor(tenor: f64) -> bool
    ensures { result ≡ bad_tenor tenor }
{
    !(tenor > 0.0) || tenor > 100.0
}

fn bad_par(before: f64, tenor: f64, par: f64) -> bool
    ensures { result ≡ ((bad_knot tenor par || not (lt before tenor)) || bad_tenor tenor) }
{
    bad_knot_after(before, tenor, par) || bad_tenor(tenor)
}

// Line 6, at the first bad knot; -infinity stands before the first of all.
#[tactic(auto, using(crate::proofs::ParLines::knot_by_knot))]
fn judge_each(tenors: &[f64], pars: &[f64]) -> Result<(), Refusal>
    requires { (length tenors.now ≡ length pars.now) × (length tenors.now ≤ 120) }
    ensures { outcome result ≡ judged ((record { number = 6; causes = either_of (bad_knots tenors.now pars.now) (map bad_tenor tenors.now) }) ∷ []) tt }
{
    let mut before = -infinity();
    for (i, &tenor) in tenors.iter().enumerate() {
        if bad_par(before, tenor, pars[i]) {
            return Err(Refusal {
                cause: Cause::Knot,
                place: i as u32,
            });
        }
        before = tenor;
    }
    Ok(())
}

// Lines 4, 5 and 6.
fn judge_pars(tenors: &[f64], pars: &[f64]) -> Result<(), Refusal>
    ensures { outcome result ≡ judged (par_lines tenors.now pars.now) tt }
{
    if tenors.len() != pars.len() {
        return Err(refuse(Cause::Lengths));
    }
    if bad_knot_count(tenors.len()) {
        return Err(refuse(Cause::KnotCount));
    }
    judge_each(tenors, pars)
}

// One knot at a time: its tenor, and its zero rate from what stands in front of the two rooms.
#[tactic(auto, unfolding(crate::specs::Bootstrap::zeros_up_to))]
fn solve_knots(tenors: &[f64], pars: &[f64], times: &mut [f64], zeros: &mut [f64])
    requires { (length tenors.now ≡ length pars.now) × (length times.old ≡ length tenors.now) × (length zeros.old ≡ length tenors.now) × Rising tenors.now }
    ensures times_after { times.new ≡ tenors.now }
    ensures zeros_after { zeros.new ≡ zeros_up_to tenors.now pars.now (length tenors.now) }
{
    for (i, par) in pars.iter().enumerate() {
        times[i] = tenors[i];
        let zero = next_zero(&times[..i + 1], &zeros[..i], *par);
        zeros[i] = zero;
    }
}

#[tactic(auto, unfolding(crate::specs::Bootstrapped::curve_of, crate::specs::Bootstrapped::in_room))]
fn no_curve() -> DiscountCurve
    ensures { result ≡ curve_of [] (refused 0 0) }
{
    DiscountCurve {
        tenors: [0.0; 120],
        zeros: [0.0; 120],
        knots: 0,
    }
}

// The curve of lists that are accepted.
fn solved_curve(tenors: &[f64], pars: &[f64]) -> DiscountCurve
    requires { (length tenors.now ≡ length pars.now) × (length tenors.now ≤ 120) × Rising tenors.now }
    ensures { result ≡ curve_of tenors.now (accepted (zeros_up_to tenors.now pars.now (length tenors.now))) }
{
    let knots = tenors.len();
    let mut times = [0.0; 120];
    let mut zeros = [0.0; 120];
    solve_knots(tenors, pars, &mut times[..knots], &mut zeros[..knots]);
    DiscountCurve {
        tenors: times,
        zeros,
        knots,
    }
}

pub fn from_par_rates(tenors: &[f64], pars: &[f64]) -> Bootstrap
    ensures { (outcome result.verdict ≡ judged (par_lines tenors.now pars.now) tt) × (result.curve ≡ bootstrapped tenors.now pars.now) }
{
    match judge_pars(tenors, pars) {
        Err(refusal) => Bootstrap {
            verdict: Err(refusal),
            curve: no_curve(),
        },
        Ok(()) => Bootstrap {
            verdict: Ok(()),
            curve: solved_curve(tenors, pars),
        },
    }
}
