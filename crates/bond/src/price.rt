// The price of a bond at a yield, and what is worked out from prices alone.
ghost use Rattle.std.specs.Prelude.{◌≡◌};
ghost use Rattle.std.specs.Float.Ieee.{lt};
ghost use Rattle.numbers.specs.Literals.{epsilon};
ghost use Rattle.numbers.specs.Sizes.{absolute};
ghost use Rattle.refusals.specs.Answers.{outcome};
ghost use Rattle.bond.specs.Price.{period_rate, undiscounted, discounted, price_of};
ghost use Rattle.bond.specs.Price.{price, dv01, current_yield, zero_coupon_price};

use crate::Bond;
use crate::worked::Worked;
use numbers::sizes::absolute_value;
use refusals::{Cause, Refusal};

impl Worked {
    // The rate of a period.
    #[tactic(auto, unfolding(crate::specs::Price::period_rate))]
    pub(crate) fn period_rate(self, ytm: f64) -> f64
        ensures { result ≡ period_rate self.bond ytm }
    {
        ytm / self.m
    }

    // At no yield the flows are added as they are.
    #[tactic(auto, unfolding(crate::specs::Price::undiscounted))]
    fn undiscounted_price(self) -> f64
        ensures { result ≡ undiscounted self.bond }
    {
        self.coupon * self.count as f64 + self.bond.face
    }

    // The coupons as an annuity, and the face, both discounted.
    #[tactic(auto, unfolding(crate::specs::Price::discounted))]
    fn discounted_price(self, r: f64, discount: f64) -> f64
        ensures { result ≡ discounted self.bond r discount }
    {
        self.coupon * (1.0 - discount) / r + self.bond.face * discount
    }

    // The price at a yield, whatever the bond is.
    #[tactic(auto, unfolding(crate::specs::Price::price_of, crate::specs::Price::discount))]
    pub(crate) fn price_at(self, ytm: f64) -> f64
        ensures { result ≡ price_of self.bond ytm }
    {
        let r = self.period_rate(ytm);
        if absolute_value(r) < 1e-12 {
            return self.undiscounted_price();
        }
        self.discounted_price(
            r,
            elementary::whole_power::negative_power(1.0 + r, self.count),
        )
    }
}

pub fn price(ytm: f64, bond: Bond) -> Result<f64, Refusal>
    ensures { outcome result ≡ price ytm bond }
{
    let worked = Worked::of(bond);
    worked.judge_bond(ytm)?;
    Ok(worked.price_at(ytm))
}

// What the price gains where the yield falls by a basis point.
pub fn dv01(ytm: f64, bond: Bond) -> Result<f64, Refusal>
    ensures { outcome result ≡ dv01 ytm bond }
{
    let worked = Worked::of(bond);
    worked.judge_bond(ytm)?;
    Ok(worked.price_at(ytm - 0.0001) - worked.price_at(ytm))
}

// A price below 2^-52 in size.
pub(crate) fn next_to_nothing(price: f64) -> bool
    ensures { result ≡ lt (absolute price) epsilon }
{
    absolute_value(price) < crate::brent::EPSILON
}

// The annual coupon over the market price, 0 where that is next to nothing.
pub fn current_yield(market: f64, bond: Bond) -> Result<f64, Refusal>
    ensures { outcome result ≡ current_yield market bond }
{
    Worked::of(bond).judge_bond(market)?;
    if next_to_nothing(market) {
        return Ok(0.0);
    }
    Ok(bond.face * bond.coupon / market)
}

// The price of a bond of face 1 without coupons. It has no periods, so line 7 is for a maturity that is not finite alone.
#[tactic(auto, unfolding(crate::specs::Price::zero_coupon_price, refusals::specs::Outcome::judged, refusals::specs::Outcome::first_or, refusals::specs::Table::bad_number))]
pub fn zero_coupon_bond_price(ytm: f64, maturity: f64) -> Result<f64, Refusal>
    ensures { outcome result ≡ zero_coupon_price ytm maturity }
{
    if refusals::bad_number(maturity) {
        return Err(refusals::refuse(Cause::Time));
    }
    if refusals::bad_number(ytm) {
        return Err(refusals::refuse(Cause::Number));
    }
    Ok(elementary::power::power(1.0 + ytm, -maturity))
}
