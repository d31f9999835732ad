// Durations and convexity, at a yield and at a market price.
ghost use Rattle.std.specs.Prelude.{◌≡◌, ℕ, suc, ◌+◌, ◌-◌, ◌*◌, ◌/◌, ◌≤◌, ◌<◌, cond, pos};
ghost use Rattle.std.specs.Float.{binary64};
ghost use Rattle.std.specs.Float.Ieee.{add, mul, div, of_int};
ghost use Rattle.numbers.specs.Literals.{one};
ghost use Rattle.numbers.specs.Sums.{added_up};
ghost use Rattle.refusals.specs.Answers.{outcome};
ghost use Rattle.bond.specs.Bonds.{periods};
ghost use Rattle.bond.specs.inner.Weighted.{weighted_by};
ghost use Rattle.bond.specs.Durations.{worth, weighted_time, macaulay_of, modified_of, weighted_square, convexity_of, change_of};
ghost use Rattle.bond.specs.Durations.{macaulay_duration, modified_duration, convexity, price_change};
ghost use Rattle.bond.specs.Durations.{macaulay_at_price, modified_at_price, convexity_at_price};

use crate::Bond;
use crate::price::next_to_nothing;
use crate::worked::Worked;
use crate::yields::yield_to_maturity;
use elementary::powers::sixteen_powers;
use elementary::whole_power::whole_power;
use refusals::Refusal;

// Where the block of a period ends, or the last period if that comes first.
fn block_end(t: u32, last: u32) -> u32
    requires { t < last }
    ensures { (t < result) × (result ≤ 16 * (t / 16) + 16) × (result ≤ last) }
{
    t + (last - t).min(16 - t % 16)
}

impl Worked {
    // What the flow of the period t is worth: the coupon, with the face in the last period.
    #[tactic(auto, unfolding(crate::specs::Durations::worth, crate::specs::Durations::flow_of))]
    fn flow_worth(self, r: f64, t: u32) -> f64
        ensures { result ≡ worth self.bond r t }
    {
        let power = whole_power(1.0 + r, t);
        if t == self.count {
            return (self.coupon + self.bond.face) / power;
        }
        self.coupon / power
    }

    // What the period t weighs: t·(t+1) in a convexity, t/m in a duration.
    fn weight(self, squares: bool, t: u32) -> f64
        ensures { result ≡ cond squares (mul binary64 (of_int binary64 (pos t)) (add binary64 (of_int binary64 (pos t)) one)) (div binary64 (of_int binary64 (pos t)) self.m) }
    {
        let time = t as f64;
        if squares {
            time * (time + 1.0)
        } else {
            time / self.m
        }
    }

    // The flows from a period on up to another, added to those before. None is the last, and their powers stand in one block of sixteen.
    fn add_flows(self, r: f64, squares: bool, from: u32, to: u32, before: f64) -> f64
        requires { (1 ≤ from) × (from ≤ to) × (to ≤ 16 * (from / 16) + 16) × (to ≤ self.count) × (before ≡ added_up (λ (i : ℕ). weighted_by self.bond r squares (suc i)) (from - 1)) }
        ensures { result ≡ added_up (λ (i : ℕ). weighted_by self.bond r squares (suc i)) (to - 1) }
    {
        let block = from / 16;
        let powers = sixteen_powers(1.0 + r, block);
        let mut sum = before;
        for t in from..to {
            let power = powers[(t - 16 * block) as usize];
            sum = sum + self.weight(squares, t) * (self.coupon / power);
        }
        sum
    }

    // The sum of each period's weight times the worth of its flow, left to right.
    fn weighted_sum(self, r: f64, squares: bool) -> f64
        ensures { result ≡ added_up (λ (i : ℕ). weighted_by self.bond r squares (suc i)) (periods self.bond) }
    {
        if self.count == 0 {
            return 0.0;
        }
        let mut sum = 0.0;
        let mut t: u32 = 1;
        while t < self.count {
            let end = block_end(t, self.count);
            sum = self.add_flows(r, squares, t, end, sum);
            t = end;
        }
        sum + self.weight(squares, t) * self.flow_worth(r, t)
    }

    // The sum of (t/m) times the flow's worth, left to right.
    fn weighted_times(self, r: f64) -> f64
        ensures { result ≡ added_up (λ (i : ℕ). weighted_time self.bond r (suc i)) (periods self.bond) }
    {
        self.weighted_sum(r, false)
    }

    // The sum of t·(t+1) times the flow's worth, left to right.
    fn weighted_squares(self, r: f64) -> f64
        ensures { result ≡ added_up (λ (i : ℕ). weighted_square self.bond r (suc i)) (periods self.bond) }
    {
        self.weighted_sum(r, true)
    }

    // Macaulay's duration, whatever the bond is.
    fn macaulay_at(self, ytm: f64) -> f64
        ensures { result ≡ macaulay_of self.bond ytm }
    {
        let price = self.price_at(ytm);
        if next_to_nothing(price) {
            return 0.0;
        }
        self.weighted_times(self.period_rate(ytm)) / price
    }

    fn modified_at(self, ytm: f64) -> f64
        ensures { result ≡ modified_of self.bond ytm }
    {
        self.macaulay_at(ytm) / (1.0 + self.period_rate(ytm))
    }

    fn convexity_at(self, ytm: f64) -> f64
        ensures { result ≡ convexity_of self.bond ytm }
    {
        let price = self.price_at(ytm);
        if next_to_nothing(price) {
            return 0.0;
        }
        let r = self.period_rate(ytm);
        self.weighted_squares(r) / (price * whole_power(1.0 + r, 2) * self.m * self.m)
    }

    fn change_at(self, ytm: f64, delta: f64) -> f64
        ensures { result ≡ change_of self.bond ytm delta }
    {
        -self.modified_at(ytm) * delta + 0.5 * self.convexity_at(ytm) * delta * delta
    }
}

pub fn macaulay_duration(ytm: f64, bond: Bond) -> Result<f64, Refusal>
    ensures { outcome result ≡ macaulay_duration ytm bond }
{
    let worked = Worked::of(bond);
    worked.judge_bond(ytm)?;
    Ok(worked.macaulay_at(ytm))
}

pub fn modified_duration(ytm: f64, bond: Bond) -> Result<f64, Refusal>
    ensures { outcome result ≡ modified_duration ytm bond }
{
    let worked = Worked::of(bond);
    worked.judge_bond(ytm)?;
    Ok(worked.modified_at(ytm))
}

pub fn convexity(ytm: f64, bond: Bond) -> Result<f64, Refusal>
    ensures { outcome result ≡ convexity ytm bond }
{
    let worked = Worked::of(bond);
    worked.judge_bond(ytm)?;
    Ok(worked.convexity_at(ytm))
}

// What part of itself the price changes by where the yield changes by delta, by duration and convexity.
pub fn price_change_approximation(ytm: f64, delta: f64, bond: Bond) -> Result<f64, Refusal>
    ensures { outcome result ≡ price_change ytm delta bond }
{
    let worked = Worked::of(bond);
    worked.judge_bond(ytm)?;
    Ok(worked.change_at(ytm, delta))
}

// At a market price the yield is asked first; where that is refused, the refusal is the answer.
pub fn macaulay_duration_at_price(market: f64, bond: Bond) -> Result<f64, Refusal>
    ensures { outcome result ≡ macaulay_at_price market bond }
{
    let ytm = yield_to_maturity(market, bond)?;
    macaulay_duration(ytm, bond)
}

pub fn modified_duration_at_price(market: f64, bond: Bond) -> Result<f64, Refusal>
    ensures { outcome result ≡ modified_at_price market bond }
{
    let ytm = yield_to_maturity(market, bond)?;
    modified_duration(ytm, bond)
}

pub fn convexity_at_price(market: f64, bond: Bond) -> Result<f64, Refusal>
    ensures { outcome result ≡ convexity_at_price market bond }
{
    let ytm = yield_to_maturity(market, bond)?;
    convexity(ytm, bond)
}
