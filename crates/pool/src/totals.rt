// A pool's balance, weighted coupon and weighted maturity.
ghost use Rattle.std.specs.Prelude.{◌≡◌, pos};
ghost use Rattle.std.specs.Float.{binary64};
ghost use Rattle.std.specs.Float.Ieee.{mul, of_int};
ghost use Rattle.pool.specs.Loans.{loans_in};
ghost use Rattle.refusals.specs.Places.{placed};
ghost use Rattle.refusals.specs.Answers.{outcome};
ghost use Rattle.pool.specs.Totals.{sum_of, balance_of, totals_of, pool_totals};

use crate::loans::Loans;
use refusals::Refusal;

#[derive(Clone, Copy)]
pub struct Totals {
    pub balance: f64,
    pub coupon: f64,
    pub maturity: f64,
}

// The balance, and the coupons and maturities times their balances, added up.
#[tactic(auto, unfolding(crate::specs::Totals::sum_from, crate::specs::Totals::balance_of))]
fn sums(loans: Loans) -> Totals
    ensures { (result.balance ≡ balance_of (loans_in loans.entry.bytes.now)) × (result.coupon ≡ sum_of (λ t. mul binary64 t.rate t.principal) (loans_in loans.entry.bytes.now)) × (result.maturity ≡ sum_of (λ t. mul binary64 (of_int binary64 (pos t.term)) t.principal) (loans_in loans.entry.bytes.now)) }
{
    let mut balance = 0.0;
    let mut coupon = 0.0;
    let mut maturity = 0.0;
    for loan in loans {
        balance += loan.principal;
        coupon += loan.rate * loan.principal;
        maturity += loan.term as f64 * loan.principal;
    }
    Totals {
        balance,
        coupon,
        maturity,
    }
}

// The totals of loans.
#[tactic(auto, unfolding(crate::specs::Totals::totals_of, crate::specs::Totals::balance_of))]
fn totals_of(loans: Loans) -> Totals
    ensures { result ≡ totals_of (loans_in loans.entry.bytes.now) }
{
    let sums = sums(loans);
    if sums.balance == 0.0 {
        return Totals {
            balance: sums.balance,
            coupon: 0.0,
            maturity: 0.0,
        };
    }
    Totals {
        balance: sums.balance,
        coupon: sums.coupon / sums.balance,
        maturity: sums.maturity / sums.balance,
    }
}

#[tactic(auto, using(crate::proofs::Placing::said_so), unfolding(crate::specs::Totals::pool_totals))]
pub fn pool_totals(bytes: &[u8]) -> Result<Totals, Refusal>
    ensures { outcome result ≡ placed (pool_totals bytes.now) }
{
    match Loans::judged(bytes, None) {
        Err(refusal) => Err(refusal),
        Ok(loans) => Ok(totals_of(loans)),
    }
}
