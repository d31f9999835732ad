// A bond's coupon and periods, and the lines of the table that every function over a bond asks first.
ghost use Rattle.std.specs.Prelude.{◌≡◌, true, ◌||◌};
ghost use Rattle.refusals.specs.Outcome.{Outcome, accepted, judged};
ghost use Rattle.refusals.specs.Answers.{outcome};
ghost use Rattle.refusals.specs.Table.{bad_number};
ghost use Rattle.bond.specs.Bonds.{periods_per_year, coupons_a_year, period_coupon, periods, bad_maturity, number_lines, bond_lines};

pub use crate::worked::Worked;
use crate::{Bond, Frequency};
use refusals::{Cause, Refusal};

// How many coupons a year.
pub fn periods_per_year(frequency: Frequency) -> u32
    ensures { result ≡ periods_per_year frequency }
{
    match frequency {
        Frequency::Annual => 1,
        Frequency::SemiAnnual => 2,
        Frequency::Quarterly => 4,
        Frequency::Monthly => 12,
    }
}

// Line 9: a number beside the bond, or its coupon, that is not finite.
fn bad_numbers(coupon: f64, beside: f64) -> bool
    ensures { result ≡ bad_number beside || bad_number coupon }
{
    refusals::bad_number(beside) || refusals::bad_number(coupon)
}

// Lines 1, 7 and 9 of a face, a verdict on the maturity, a coupon, and one number beside them.
#[tactic(auto, unfolding(refusals::specs::Outcome::judged, refusals::specs::Outcome::first_or))]
pub fn judge_numbers(face: f64, bad_maturity: bool, coupon: f64, beside: f64) -> Result<(), Refusal>
    ensures { outcome result ≡ judged (number_lines face bad_maturity coupon beside) tt }
{
    if refusals::bad_amount(face) {
        return Err(refusals::refuse(Cause::Amount));
    }
    if bad_maturity {
        return Err(refusals::refuse(Cause::Time));
    }
    if bad_numbers(coupon, beside) {
        return Err(refusals::refuse(Cause::Number));
    }
    Ok(())
}

impl Worked {
    // Line 7: a maturity that is not finite, or gives more than 1,200 periods.
    #[tactic(auto, unfolding(crate::specs::Bonds::bad_maturity, refusals::specs::Table::bad_time, refusals::specs::Table::too_many_periods))]
    fn bad_maturity(self) -> bool
        ensures { result ≡ bad_maturity self.bond }
    {
        !numbers::sizes::is_finite(self.bond.maturity) || self.count > 1200
    }

    // Whether nothing is wrong with a bond and the number beside it: one sum is finite only where each of its numbers is.
    #[tactic(auto, using(crate::proofs::SumTests::none_wrong))]
    fn all_right(self, beside: f64) -> bool
        ensures { result ≡ true → ◌≡◌ {A = Outcome Unit} (judged (bond_lines self.bond beside) tt) (accepted tt) }
    {
        let bond = self.bond;
        if self.count > 1200 || bond.face < 0.0 {
            return false;
        }
        numbers::sizes::is_finite(bond.face + bond.coupon + bond.maturity + beside)
    }

    // The same lines of a bond, with a yield or a market price beside it.
    pub(crate) fn judge_bond(self, beside: f64) -> Result<(), Refusal>
        ensures { outcome result ≡ judged (bond_lines self.bond beside) tt }
    {
        if self.all_right(beside) {
            return Ok(());
        }
        judge_numbers(
            self.bond.face,
            self.bad_maturity(),
            self.bond.coupon,
            beside,
        )
    }
}
