// The yield of a bond at a market price.
ghost use Rattle.std.specs.Prelude.{◌≡◌, [], ◌∷◌};
ghost use Rattle.refusals.specs.Outcome.{line, judged};
ghost use Rattle.refusals.specs.Answers.{outcome};
ghost use Rattle.bond.specs.Yield.{error, no_bracket, start_in, with_error, passed, searched, yield_of, yield_to_maturity};

use crate::Bond;
use crate::brent::Search;
use crate::worked::Worked;
use refusals::{Cause, Refusal};

const PASSES: u32 = 200;

impl Worked {
    // The error of a yield: its price less the market's.
    #[tactic(auto, unfolding(crate::specs::Yield::error))]
    fn error(self, market: f64, ytm: f64) -> f64
        ensures { result ≡ error self.bond market ytm }
    {
        self.price_at(ytm) - market
    }

    // The search starts in a bracket.
    #[tactic(auto, unfolding(crate::specs::Yield::start_in))]
    fn start_in(self, market: f64, low: f64, high: f64) -> Search
        ensures { result ≡ start_in self.bond market low high }
    {
        let below = self.error(market, low);
        let above = self.error(market, high);
        Search {
            a: low,
            b: high,
            c: low,
            d: high - low,
            e: high - low,
            fa: below,
            fb: above,
            fc: below,
        }
    }

    #[tactic(auto, unfolding(crate::specs::Yield::with_error))]
    fn with_error(self, market: f64, search: Search) -> Search
        ensures { result ≡ with_error self.bond market search }
    {
        Search {
            fb: self.error(market, search.b),
            ..search
        }
    }

    // A pass from its test on: one price is worked out.
    #[tactic(auto, unfolding(crate::specs::Yield::passed))]
    fn passed(self, market: f64, search: Search) -> Search
        ensures { result ≡ passed self.bond market search }
    {
        self.with_error(market, search.chosen().moved())
    }

    // b, once it is settled or the passes are used up.
    fn searched(self, market: f64, start: Search) -> f64
        ensures { result ≡ searched self.bond market 200 start }
    {
        let mut search = start;
        for _done in 0..PASSES {
            let ready = search.readied();
            if ready.settled() {
                return ready.b;
            }
            search = self.passed(market, ready);
        }
        search.b
    }

    // The yield in the first bracket whose ends do not both err to one side; where the ends of both brackets do, line 12.
    fn yield_in_bracket(self, market: f64) -> Result<f64, Refusal>
        ensures { outcome result ≡ judged (line 12 (no_bracket self.bond market) ∷ []) (yield_of self.bond market) }
    {
        let narrow = self.start_in(market, 0.001, 0.999);
        if !narrow.one_sided() {
            return Ok(self.searched(market, narrow));
        }
        let wide = self.start_in(market, 1e-6, 50.0);
        if wide.one_sided() {
            return Err(refusals::refuse(Cause::Bracket));
        }
        Ok(self.searched(market, wide))
    }
}

pub fn yield_to_maturity(market: f64, bond: Bond) -> Result<f64, Refusal>
    ensures { outcome result ≡ yield_to_maturity market bond }
{
    let worked = Worked::of(bond);
    worked.judge_bond(market)?;
    worked.yield_in_bracket(market)
}
