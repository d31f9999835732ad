// The knots of a curve, the ends of a segment, and what is flat outside.
ghost use Rattle.std.specs.Prelude.{◌≡◌, ◌⊎◌, suc, ◌<◌, ◌≤◌, length, cond};
ghost use Rattle.std.specs.Float.{nan};
ghost use Rattle.std.specs.Float.Ieee.{le};
ghost use Rattle.curves.specs.Segments.{knot, last_of};
ghost use Rattle.curves.specs.inner.Kinds.{EndsAre};

// The two times of a segment, and the two rates.
#[derive(Clone, Copy)]
pub struct Ends {
    pub t0: f64,
    pub t1: f64,
    pub r0: f64,
    pub r1: f64,
}

// What is read where there is no knot.
pub fn no_knot() -> f64
    ensures { result ≡ nan }
{
    f64::NAN
}

// The knot i, from 0.
pub fn knot_at(xs: &[f64], i: usize) -> f64
    ensures { result ≡ knot xs.now i }
{
    xs.get(i).copied().unwrap_or(no_knot())
}

// A place from which knots are looked at: the first where there is no such knot.
pub(crate) fn knot_from(xs: &[f64], from: usize) -> usize
    ensures { (result ≤ length xs.now) × (0 < length xs.now → result < length xs.now) × ((result ≡ from) ⊎ (result ≡ 0)) }
{
    if from < xs.len() { from } else { 0 }
}

// The knot after i.
pub fn knot_after(xs: &[f64], i: usize) -> f64
    ensures { result ≡ knot xs.now (suc i) }
{
    if i < xs.len() {
        knot_at(xs, i + 1)
    } else {
        no_knot()
    }
}

pub fn last_knot(xs: &[f64]) -> f64
    ensures { result ≡ last_of xs.now }
{
    xs.last().copied().unwrap_or(no_knot())
}

// The ends of a segment that has both.
pub(crate) fn inner_ends(times: &[f64], rates: &[f64], i: usize) -> Ends
    requires { (suc i < length times.now) × (suc i < length rates.now) }
    ensures { EndsAre times.now rates.now i result.t0 result.t1 result.r0 result.r1 }
{
    Ends {
        t0: times[i],
        t1: times[i + 1],
        r0: rates[i],
        r1: rates[i + 1],
    }
}

pub fn ends_of(times: &[f64], rates: &[f64], i: usize) -> Ends
    ensures { (result.t0 ≡ knot times.now i) × (result.t1 ≡ knot times.now (suc i)) × (result.r0 ≡ knot rates.now i) × (result.r1 ≡ knot rates.now (suc i)) }
{
    if i < times.len() && i + 1 < times.len() && i + 1 < rates.len() {
        return inner_ends(times, rates, i);
    }
    Ends {
        t0: knot_at(times, i),
        t1: knot_after(times, i),
        r0: knot_at(rates, i),
        r1: knot_after(rates, i),
    }
}

// The first and the last knot: their times, and the rates before and after them.
#[derive(Clone, Copy)]
pub(crate) struct Outside {
    pub first: f64,
    pub before: f64,
    pub last: f64,
    pub after: f64,
}

pub(crate) fn outside_of(times: &[f64], rates: &[f64]) -> Outside
    ensures { (result.first ≡ knot times.now 0) × (result.before ≡ knot rates.now 0) × (result.last ≡ last_of times.now) × (result.after ≡ last_of rates.now) }
{
    Outside {
        first: knot_at(times, 0),
        before: knot_at(rates, 0),
        last: last_knot(times),
        after: last_knot(rates),
    }
}

// Flat before the first knot and past the last, and between them what is said; chosen last of all, so that many can be worked out at once.
pub(crate) fn flat(o: Outside, t: f64, between: f64) -> f64
    ensures { result ≡ cond (le t o.first) o.before (cond (le o.last t) o.after between) }
{
    let inner = if o.last <= t { o.after } else { between };
    if t <= o.first { o.before } else { inner }
}
