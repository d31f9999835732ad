// A bond with its numbers worked out once, before it is priced at many yields.
ghost use Rattle.std.specs.Prelude.{◌≡◌};
ghost use Rattle.bond.specs.Bonds.{coupons_a_year, period_coupon, periods};

use crate::Bond;
use crate::bonds::periods_per_year;

// The coupons a year, the coupon of a period, and the number of periods.
#[derive(Clone, Copy)]
pub struct Worked {
    pub bond: Bond,
    pub m: f64,
    pub coupon: f64,
    pub count: u32,
    ghost yearly: { m ≡ coupons_a_year bond },
    ghost paid: { coupon ≡ period_coupon bond },
    ghost counted: { count ≡ periods bond },
}

impl Worked {
    pub(crate) fn of(bond: Bond) -> Worked
        ensures { result.bond ≡ bond }
    {
        let m = coupons_a_year(bond);
        let coupon = period_coupon(bond);
        let count = periods(bond);
        Worked {
            bond,
            m,
            coupon,
            count,
        }
    }
}

// The same as a float.
fn coupons_a_year(bond: Bond) -> f64
    ensures { result ≡ coupons_a_year bond }
{
    periods_per_year(bond.frequency) as f64
}

// The coupon of a period.
#[tactic(auto, unfolding(crate::specs::Bonds::period_coupon))]
fn period_coupon(bond: Bond) -> f64
    ensures { result ≡ period_coupon bond }
{
    bond.face * bond.coupon / coupons_a_year(bond)
}

// The number of periods, to the nearest whole number, halves away from zero.
#[tactic(auto, unfolding(crate::specs::Bonds::periods))]
fn periods(bond: Bond) -> u32
    ensures { result ≡ periods bond }
{
    elementary::whole::usually_whole(bond.maturity * coupons_a_year(bond))
}
