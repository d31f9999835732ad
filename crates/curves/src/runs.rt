// The discount factors at dates that are equally far apart, a run of at most 64 of them at a time.
ghost use Rattle.std.specs.Prelude.{◌≡◌, ℕ, ◌+◌, ◌<◌, ◌≤◌, length};
ghost use Rattle.curves.specs.Segments.{knot, Rising};
ghost use Rattle.curves.specs.Runs.{date_after, FactorsAfter};

use crate::each::discounts_onward;
use crate::kinds::Kind;

// How many of a run are taken: 64 at most, and no more than a u32 counts.
fn taken_of(first: u32, count: usize) -> usize
    ensures { (result ≤ 64) × (first + result < 4294967296) × (count ≤ 64 → first + count < 4294967296 → result ≡ count) }
{
    count.min(64).min((u32::MAX - first) as usize)
}

// The dates after the first ones.
fn put_dates(dt: f64, first: u32, dates: &mut [f64])
    requires { first + length dates.old < 4294967296 }
    ensures { (j : ℕ) → j < length dates.new → knot dates.new j ≡ date_after dt (first + j) }
{
    for (j, date) in dates.iter_mut().enumerate() {
        *date = (first + 1 + j as u32) as f64 * dt;
    }
}

// The discount factors there.
fn put_factors(kind: Kind, dt: f64, times: &[f64], rates: &[f64], first: u32, factors: &mut [f64])
    requires { first + length factors.old < 4294967296 }
    ensures { Rising times.now → FactorsAfter kind dt times.now rates.now first (length factors.new) factors.new }
{
    put_dates(dt, first, factors);
    discounts_onward(kind, times, rates, factors);
}

// So many discount factors of the dates after the first ones.
pub fn factors_after(
    kind: Kind,
    dt: f64,
    times: &[f64],
    rates: &[f64],
    first: u32,
    count: usize,
) -> [f64; 64]
    ensures { (length result ≡ 64) × (Rising times.now → count ≤ 64 → first + count < 4294967296 → FactorsAfter kind dt times.now rates.now first count result) }
{
    let mut factors = [0.0; 64];
    let taken = taken_of(first, count);
    put_factors(kind, dt, times, rates, first, &mut factors[..taken]);
    factors
}
