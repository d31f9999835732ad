// The search for the segment that serves a time, by either rule: found by halving, on times that rise, where nothing but the end is decided by a jump; or gone on to from an earlier one.
ghost use Rattle.std.specs.Prelude.{◌≡◌, map, ℕ, ◌+◌, ◌<◌, length, get_or};
ghost use Rattle.curves.specs.Segments.{Rising};
ghost use Rattle.curves.specs.inner.Halving.{Rule, segment_by, passes, stepped_over, Past};

use crate::segments::knot_from;

// Which segment serves an inner knot.
pub(crate) trait Serving {
    ghost rule: { Rule };

    // Whether the segment that ends there, or one before it, serves t.
    fn passes(t: f64, end: f64) -> bool
        ensures { result ≡ passes rule t end };
}

// Half the knots stepped over, unless the one that far on passes.
fn stepped<S: Serving>(times: &[f64], t: f64, half: usize, base: usize) -> usize
    requires { base + half < length times.now }
    ensures { result ≡ stepped_over (passes S.rule t) times.now half base }
{
    let middle = base + half;
    if S::passes(t, times[middle]) {
        base
    } else {
        middle
    }
}

// The segment of one time. `partition_point` halves likewise, but asks the knot that it comes to once more: it was 4 to 9 % slower.
#[tactic(auto, using(crate::proofs::Halvings::one_lane))]
pub(crate) fn segment<S: Serving>(times: &[f64], t: f64) -> usize
    ensures { Rising times.now → result ≡ segment_by S.rule times.now t }
{
    let mut base = 0;
    let mut count = times.len();
    while count > 1 {
        let half = count / 2;
        base = stepped::<S>(times, t, half, base);
        count -= half;
    }
    base
}

// The segment of a time, gone on to from one whose forerunners the time is past.
#[tactic(auto, using(crate::proofs::Onward::going_on))]
pub(crate) fn onward<S: Serving>(times: &[f64], from: usize, t: f64) -> usize
    ensures { Past S.rule times.now t from → result ≡ segment_by S.rule times.now t }
{
    let last = times.len().saturating_sub(1);
    for i in knot_from(times, from)..last {
        if S::passes(t, times[i + 1]) {
            return i;
        }
    }
    last
}

// The segments of eight times, each turn taken by all of them; whatever the times are, each is that of a knot.
#[tactic(auto, using(crate::proofs::Halvings::eight_lanes))]
pub(crate) fn eight_segments<S: Serving>(times: &[f64], asked: &[f64]) -> [usize; 8]
    requires { length asked.now ≡ 8 }
    ensures by_index { (k : ℕ) → k < 8 → 0 < length times.now → get_or result k 0 < length times.now }
    ensures value { Rising times.now → result ≡ map (segment_by S.rule times.now) asked.now }
{
    let mut bases = [0; 8];
    let mut left = times.len();
    while left > 1 {
        let half = left / 2;
        for j in 0..8 {
            bases[j] = stepped::<S>(times, asked[j], half, bases[j]);
        }
        left -= half;
    }
    bases
}
