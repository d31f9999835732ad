// A knot of a bootstrap, solved so that its par swap is worth par. Coupons up to the knot before do not depend on the rate that is tried: they are added once.
// Eight rates are tried at once: those of the next three halvings, whichever way each of them goes.
ghost use Rattle.std.specs.Prelude.{◌≡◌, cond, List, map, ◌+◌, ◌-◌, ◌<◌, ◌≤◌, length, Float};
ghost use Rattle.std.specs.Float.{binary64};
ghost use Rattle.std.specs.Float.Ieee.{add, sub, mul, lt};
ghost use Rattle.numbers.specs.Literals.{one};
ghost use Rattle.numbers.specs.Clamps.{plus_zero};
ghost use Rattle.numbers.specs.Sums.{added_up};
ghost use Rattle.elementary.specs.Ln.{ln};
ghost use Rattle.curves.specs.Segments.{knot, last_of, Rising};
ghost use Rattle.swaps.specs.Bootstrap.{date, coupon_at, par_error, middle, bisected, solved_or};
ghost use Rattle.swaps.specs.inner.Runs.{FactorsAfter};
ghost use Rattle.swaps.specs.inner.Knots.{with_rate, WholeTo, SettledTo, last_at, sum_to, error_of, Ready, EachOf, fork_of};

use crate::trials::{change_each, discounts_with};
use curves::kinds::Kind;
use curves::runs::factors_after;
use curves::segments::last_knot;
use numbers::clamps::lower_to;

// A knot before its rate is tried: its tenor and par rate, its annual dates, how many of them are settled, and the sum of the settled coupons.
#[derive(Clone, Copy)]
pub struct Knot {
    pub tenor: f64,
    pub par: f64,
    pub dates: u32,
    pub settled: u32,
    pub sum: f64,
}

// What the solution lies between.
#[derive(Clone, Copy)]
pub struct Bracket {
    pub lo: f64,
    pub hi: f64,
}

// The annual dates: 0, and then 1, 2, .. lowered to the tenor.
fn date(tenor: f64, k: u32) -> f64
    ensures { result ≡ date tenor k }
{
    if k == 0 {
        0.0
    } else {
        lower_to(k as f64, tenor)
    }
}

// How many dates are at or before the knot before, and before the tenor.
fn settled_dates(tenor: f64, dates: u32, previous: f64) -> u32
    ensures { (result ≤ dates) × SettledTo tenor previous result }
{
    for k in 0..dates {
        let next = date(tenor, k + 1);
        if !(next <= previous) || tenor <= next {
            return k;
        }
    }
    dates
}

// The same, none for the first knot.
fn settled_at(tenors: &[f64], tenor: f64, dates: u32) -> u32
    ensures { (result ≤ dates) × SettledTo tenor (knot tenors.now (length tenors.now - 2)) result × (length tenors.now < 2 → result ≡ 0) }
{
    if tenors.len() < 2 {
        return 0;
    }
    settled_dates(tenor, dates, tenors[tenors.len() - 2])
}

// Coupons after the first ones, whose discount factors are at hand, added one by one.
fn add_coupons(tenor: f64, par: f64, before: f64, first: u32, factors: &[f64]) -> f64
    requires { (first + length factors.now < 4294967296) × WholeTo tenor (first + length factors.now) }
    ensures { (tenors zeros : List Float) → FactorsAfter one tenors zeros first (length factors.now) factors.now → before ≡ added_up (coupon_at tenors zeros tenor par) first
        → result ≡ added_up (coupon_at tenors zeros tenor par) (first + length factors.now) }
{
    let mut sum = before;
    for (j, factor) in factors.iter().enumerate() {
        let k = first + j as u32;
        sum += par * ((k + 1) as f64 - date(tenor, k)) * factor;
    }
    sum
}

// At most 64 coupons after the first ones.
fn add_coupon_run(
    tenors: &[f64],
    zeros: &[f64],
    tenor: f64,
    par: f64,
    sum: f64,
    first: u32,
    count: usize,
) -> f64
    requires { (count ≤ 64) × (first + count < 4294967296) × Rising tenors.now × WholeTo tenor (first + count) × (sum ≡ added_up (coupon_at tenors.now zeros.now tenor par) first) }
    ensures { result ≡ added_up (coupon_at tenors.now zeros.now tenor par) (first + count) }
{
    let factors = factors_after(Kind::DiscountCurve, 1.0, tenors, zeros, first, count);
    add_coupons(tenor, par, sum, first, &factors[..count])
}

// The sum of the coupons at the first dates, all of them whole, 64 at a time.
fn coupon_sum(tenors: &[f64], zeros: &[f64], tenor: f64, par: f64, count: u32) -> f64
    requires { Rising tenors.now × WholeTo tenor count }
    ensures { result ≡ added_up (coupon_at tenors.now zeros.now tenor par) count }
{
    let mut sum = 0.0;
    for k in (0..count).step_by(64) {
        let run = (count - k).min(64);
        sum = add_coupon_run(tenors, zeros, tenor, par, sum, k, run as usize);
    }
    sum
}

// The last knot of the tenors, with its settled coupons added.
fn last_of(tenors: &[f64], earlier: &[f64], par: f64) -> Knot
    requires { (length tenors.now ≡ length earlier.now + 1) × Rising tenors.now }
    ensures { (result.tenor ≡ last_of tenors.now) × (result.par ≡ par) × Ready tenors.now earlier.now result }
{
    let tenor = last_knot(tenors);
    let dates = numbers::whole::ceiling_to_u32(tenor);
    let settled = settled_at(tenors, tenor, dates);
    let sum = coupon_sum(tenors, earlier, tenor, par, settled);
    Knot {
        tenor,
        par,
        dates,
        settled,
        sum,
    }
}

// The sums with the coupon paid at the date after k; the discount factors of the tenor are at hand.
fn add_coupon(
    tenors: &[f64],
    earlier: &[f64],
    knot: Knot,
    rates: [f64; 8],
    lasts: [f64; 8],
    sums: &mut [f64],
    k: u32,
)
    requires { (k < 4294967295) × (length rates ≡ 8) × Rising tenors.now × (lasts ≡ map (last_at tenors.now earlier.now knot) rates) × (sums.old ≡ map (sum_to tenors.now earlier.now knot k) rates) }
    ensures { sums.new ≡ map (sum_to tenors.now earlier.now knot (k + 1)) rates }
{
    let whole = (k + 1) as f64;
    let before = date(knot.tenor, k);
    if whole < knot.tenor {
        let amount = knot.par * (whole - before);
        let factors = discounts_with(tenors, earlier, rates, whole);
        change_each(sums, factors, |sum, factor| sum + amount * factor);
    } else {
        let amount = knot.par * (knot.tenor - before);
        change_each(sums, lasts, |sum, last| sum + amount * last);
    }
}

// What the par swap misses par by, at eight rates.
fn errors_of(tenors: &[f64], earlier: &[f64], knot: Knot, rates: [f64; 8]) -> [f64; 8]
    requires { Ready tenors.now earlier.now knot × (length rates ≡ 8) }
    ensures { result ≡ map (error_of tenors.now earlier.now knot) rates }
{
    let lasts = discounts_with(tenors, earlier, rates, knot.tenor);
    let mut sums = [knot.sum; 8];
    for k in knot.settled..knot.dates {
        add_coupon(tenors, earlier, knot, rates, lasts, &mut sums, k);
    }
    change_each(&mut sums, lasts, |sum, last| sum + last - 1.0);
    sums
}

fn middle(lo: f64, hi: f64) -> f64
    ensures { result ≡ middle lo hi }
{
    0.5 * (lo + hi)
}

// What the next three halvings may try.
fn fork_of(bracket: Bracket) -> [f64; 8]
    ensures { result ≡ fork_of bracket.lo bracket.hi }
{
    let m = middle(bracket.lo, bracket.hi);
    let a = middle(bracket.lo, m);
    let b = middle(m, bracket.hi);
    [
        m,
        a,
        b,
        middle(bracket.lo, a),
        middle(a, m),
        middle(m, b),
        middle(b, bracket.hi),
        m,
    ]
}

// A halving: up where the error in the middle is above 0.
fn half_of(bracket: Bracket, missed: f64) -> Bracket
    ensures { (result.lo ≡ cond (lt plus_zero missed) (middle bracket.lo bracket.hi) bracket.lo) × (result.hi ≡ cond (lt plus_zero missed) bracket.hi (middle bracket.lo bracket.hi)) }
{
    let mid = middle(bracket.lo, bracket.hi);
    if missed > 0.0 {
        return Bracket {
            lo: mid,
            hi: bracket.hi,
        };
    }
    Bracket {
        lo: bracket.lo,
        hi: mid,
    }
}

// Of two, by the way that a halving went.
fn by_way(error: f64, up: f64, down: f64) -> f64
    ensures { result ≡ cond (lt plus_zero error) up down }
{
    if error > 0.0 { up } else { down }
}

// At most 198 halvings, three at a time, stopping below 1e-16 of width.
fn bisect(tenors: &[f64], earlier: &[f64], knot: Knot, start: Bracket) -> f64
    requires { Ready tenors.now earlier.now knot }
    ensures { result ≡ bisected (error_of tenors.now earlier.now knot) 198 start.lo start.hi }
{
    let mut bracket = start;
    for _three in 0..66u32 {
        let errors = errors_of(tenors, earlier, knot, fork_of(bracket));
        let first = errors[0];
        let halves = half_of(bracket, first);
        if halves.hi - halves.lo < 1e-16 {
            return middle(halves.lo, halves.hi);
        }
        let second = by_way(first, errors[2], errors[1]);
        let quarters = half_of(halves, second);
        if quarters.hi - quarters.lo < 1e-16 {
            return middle(quarters.lo, quarters.hi);
        }
        let third = by_way(
            first,
            by_way(second, errors[6], errors[5]),
            by_way(second, errors[4], errors[3]),
        );
        bracket = half_of(quarters, third);
        if bracket.hi - bracket.lo < 1e-16 {
            return middle(bracket.lo, bracket.hi);
        }
    }
    middle(bracket.lo, bracket.hi)
}

// The zero rate of the last of the tenors, beside those before it; no sign change gives ln(1+c).
// The ends -1 and 5 are tried together with what the first two halvings may try.
pub(crate) fn next_zero(tenors: &[f64], earlier: &[f64], par: f64) -> f64
    requires { (length tenors.now ≡ length earlier.now + 1) × Rising tenors.now }
    ensures { result ≡ solved_or (λ (x : Float). par_error tenors.now (with_rate earlier.now x) (last_of tenors.now) par) (ln (add binary64 one par)) }
{
    let knot = last_of(tenors, earlier, par);
    let errors = errors_of(
        tenors,
        earlier,
        knot,
        [-1.0, 5.0, 2.0, 0.5, 3.5, 2.0, 2.0, 2.0],
    );
    if errors[0] < 0.0 || errors[1] > 0.0 {
        return elementary::ln::ln(1.0 + par);
    }
    let halves = half_of(Bracket { lo: -1.0, hi: 5.0 }, errors[2]);
    let quarters = half_of(halves, by_way(errors[2], errors[4], errors[3]));
    bisect(tenors, earlier, knot, quarters)
}
