// The first segment that a time is before the end of: at an inner knot, the one that starts there.
ghost use Rattle.std.specs.Prelude.{◌≡◌};
ghost use Rattle.curves.specs.Segments.{segment_starting, Rising};
ghost use Rattle.curves.specs.inner.Halving.{starting};

use crate::halving::Serving;

#[derive(Clone, Copy)]
pub(crate) struct Starting;

impl Serving for Starting {
    ghost rule = { starting };

    #[tactic(auto, unfolding(crate::specs::inner::Halving::passes))]
    fn passes(t: f64, end: f64) -> bool {
        t < end
    }
}

// The segment of one time.
#[tactic(auto, unfolding(crate::specs::inner::Halving::segment_by))]
pub fn segment(times: &[f64], t: f64) -> usize
    ensures { Rising times.now → result ≡ segment_starting times.now t }
{
    crate::halving::segment::<Starting>(times, t)
}
