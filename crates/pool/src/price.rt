// A pool's price, duration and convexity.
ghost use Rattle.std.specs.Prelude.{◌≡◌, ℕ, ◌*◌, ◌<◌, ◌≤◌, length, get_or};
ghost use Rattle.std.specs.Float.{nan};
ghost use Rattle.numbers.specs.Sums.{added_up};
ghost use Rattle.refusals.specs.Answers.{outcome};
ghost use Rattle.mortgage.specs.Payment.{monthly_rate};
ghost use Rattle.pool.specs.Loans.{loans_in};
ghost use Rattle.refusals.specs.Places.{placed};
ghost use Rattle.pool.specs.Flows.{month_width};
ghost use Rattle.pool.specs.Price.{price_at, duration_for, convexity_for, pool_price, pool_duration, pool_convexity};
ghost use Rattle.pool.specs.inner.Walk.{worth_in};

use crate::flows::Pool;
use crate::months::{MOST_MONTHS, WIDTH};
use crate::speed::Speed;
use elementary::whole_power::whole_power;
use mortgage::payment::monthly_rate;
use refusals::Refusal;

// The bump of a duration and of a convexity.
const BUMP: f64 = 0.0001;

// The months of a room, each over its power of 1 + r, added left to right from +0.
#[tactic(auto, unfolding(numbers::specs::Sums::added_up))]
fn price_over(room: &[f64], months: u32, rate: f64) -> f64
    requires { months * month_width ≤ length room.now }
    ensures { result ≡ added_up (worth_in room.now (monthly_rate rate)) months }
{
    let base = 1.0 + monthly_rate(rate);
    let mut total = 0.0;
    for k in 0..months {
        let at = k as usize * WIDTH;
        let money = room[at] + room[at + 1] + room[at + 2];
        total += money / whole_power(base, k + 1);
    }
    total
}

impl<'a> Pool<'a> {
    // The price at each rate, from one walk.
    fn prices<const N: usize>(self, rates: [f64; N]) -> [f64; N]
        ensures { (k : ℕ) → k < N → get_or result k nan ≡ price_at (loans_in self.entry.loans.bytes.now) self.entry.speed self.entry.history.now (get_or rates.entry k nan) }
    {
        let mut room = [0.0; MOST_MONTHS * WIDTH];
        let months = self.fill(&mut room);
        let mut prices = [0.0; N];
        for (k, &rate) in rates.iter().enumerate() {
            prices[k] = price_over(&room, months, rate);
        }
        prices
    }

    fn price_at(self, rate: f64) -> f64
        ensures { result ≡ price_at (loans_in self.entry.loans.bytes.now) self.entry.speed self.entry.history.now rate }
    {
        let [price] = self.prices([rate]);
        price
    }

    // The duration for any bump.
    #[tactic(auto, unfolding(crate::specs::Price::duration_for))]
    fn duration_for(self, bump: f64, rate: f64) -> f64
        ensures { result ≡ duration_for (loans_in self.entry.loans.bytes.now) self.entry.speed self.entry.history.now bump rate }
    {
        let [price, up, down] = self.prices([rate, rate + bump, rate - bump]);
        if price == 0.0 {
            return 0.0;
        }
        (down - up) / (2.0 * bump * price)
    }

    // The convexity for any bump.
    #[tactic(auto, unfolding(crate::specs::Price::convexity_for))]
    fn convexity_for(self, bump: f64, rate: f64) -> f64
        ensures { result ≡ convexity_for (loans_in self.entry.loans.bytes.now) self.entry.speed self.entry.history.now bump rate }
    {
        let [price, up, down] = self.prices([rate, rate + bump, rate - bump]);
        if price == 0.0 {
            return 0.0;
        }
        (up + down - 2.0 * price) / (bump * bump * price)
    }
}

#[tactic(auto, using(crate::proofs::Placing::said_so), unfolding(crate::specs::Price::pool_price))]
pub fn price(bytes: &[u8], speed: Speed, history: &[f64], rate: f64) -> Result<f64, Refusal>
    ensures { outcome result ≡ placed (pool_price bytes.now speed history.now rate) }
{
    let pool = Pool::judged(bytes, None, speed, history)?;
    Ok(pool.price_at(rate))
}

#[tactic(auto, using(crate::proofs::Placing::said_so), unfolding(crate::specs::Price::pool_duration))]
pub fn duration(bytes: &[u8], speed: Speed, history: &[f64], rate: f64) -> Result<f64, Refusal>
    ensures { outcome result ≡ placed (pool_duration bytes.now speed history.now rate) }
{
    let pool = Pool::judged(bytes, None, speed, history)?;
    Ok(pool.duration_for(BUMP, rate))
}

#[tactic(auto, using(crate::proofs::Placing::said_so), unfolding(crate::specs::Price::pool_convexity))]
pub fn convexity(bytes: &[u8], speed: Speed, history: &[f64], rate: f64) -> Result<f64, Refusal>
    ensures { outcome result ≡ placed (pool_convexity bytes.now speed history.now rate) }
{
    let pool = Pool::judged(bytes, None, speed, history)?;
    Ok(pool.convexity_for(BUMP, rate))
}
