// The first segment that a time is not beyond: at an inner knot, the one that ends there.
ghost use Rattle.std.specs.Prelude.{◌≡◌};
ghost use Rattle.curves.specs.Segments.{segment_ending, Rising};
ghost use Rattle.curves.specs.inner.Halving.{ending};

use crate::halving::Serving;

#[derive(Clone, Copy)]
pub(crate) struct Ending;

impl Serving for Ending {
    ghost rule = { ending };

    #[tactic(auto, unfolding(crate::specs::inner::Halving::passes))]
    fn passes(t: f64, end: f64) -> bool {
        t <= end
    }
}

// The segment of one time.
#[tactic(auto, unfolding(crate::specs::inner::Halving::segment_by))]
pub fn segment(times: &[f64], t: f64) -> usize
    ensures { Rising times.now → result ≡ segment_ending times.now t }
{
    crate::halving::segment::<Ending>(times, t)
}
