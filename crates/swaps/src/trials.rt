// The curve of a bootstrap while eight rates of its last knot are tried at once: the zero rates before it, and each rate in hand.
ghost use Rattle.std.specs.Prelude.{◌≡◌, map, suc, length, Float};
ghost use Rattle.curves.specs.Segments.{knot, Rising};
ghost use Rattle.curves.specs.Formulas.{along_zeros};
ghost use Rattle.swaps.specs.Discount.{zero_rate_of, discount_of};
ghost use Rattle.swaps.specs.inner.Knots.{with_rate, EachOf};
ghost use Rattle.swaps.specs.inner.Runs.{exponent_of};

use curves::ending::segment;
use curves::formulas::along;
use curves::kinds::Kind;
use curves::lookups::exponent_at;
use curves::segments::{Ends, knot_after, knot_at, last_knot};

// The rates of the knot i.
fn rates_with(earlier: &[f64], rates: [f64; 8], i: usize) -> [f64; 8]
    requires { length rates ≡ 8 }
    ensures { result ≡ map (λ x. knot (with_rate earlier.now x) i) rates }
{
    if i == earlier.len() {
        return rates;
    }
    [knot_at(earlier, i); 8]
}

// The rates of the knot after i.
fn rates_after(earlier: &[f64], rates: [f64; 8], i: usize) -> [f64; 8]
    requires { length rates ≡ 8 }
    ensures { result ≡ map (λ x. knot (with_rate earlier.now x) (suc i)) rates }
{
    if i < earlier.len() {
        return rates_with(earlier, rates, i + 1);
    }
    [knot_at(earlier, i); 8]
}

// Eight numbers, each of which gives way to what is made of it and of another at its place.
pub(crate) fn change_each<F: Fn(f64, f64) -> f64>(numbers: &mut [f64], others: [f64; 8], made: F)
    requires eight { length numbers.old ≡ 8 }
    requires callable { F.IsAlwaysCallable made }
    ensures { (g : Float → Float → Float) → ((a b r : Float) → F.post made a b r → r ≡ g a b) → EachOf g numbers.old others numbers.new }
{
    for (j, number) in numbers.iter_mut().enumerate() {
        *number = made(*number, others[j]);
    }
}

// The zero rates at a time.
fn zero_rates_with(tenors: &[f64], earlier: &[f64], rates: [f64; 8], t: f64) -> [f64; 8]
    requires { (length rates ≡ 8) × Rising tenors.now }
    ensures { result ≡ map (λ x. zero_rate_of tenors.now (with_rate earlier.now x) t) rates }
{
    if t <= knot_at(tenors, 0) {
        return rates_with(earlier, rates, 0);
    }
    if last_knot(tenors) <= t {
        return rates;
    }
    let i = segment(tenors, t);
    let t0 = knot_at(tenors, i);
    let t1 = knot_after(tenors, i);
    let mut along_each = rates_with(earlier, rates, i);
    let seconds = rates_after(earlier, rates, i);
    change_each(&mut along_each, seconds, |r0, r1| {
        along(Kind::DiscountCurve, Ends { t0, t1, r0, r1 }, t)
    });
    along_each
}

// What the discount factors at a time are the exps of, from the zero rates there.
fn exponents_at(rates: [f64; 8], t: f64) -> [f64; 8]
    requires { length rates ≡ 8 }
    ensures { result ≡ map (λ x. exponent_of x t) rates }
{
    let mut exponents = rates;
    for exponent in exponents.iter_mut() {
        *exponent = exponent_at(Kind::DiscountCurve, *exponent, t);
    }
    exponents
}

// The discount factors at a time.
pub(crate) fn discounts_with(tenors: &[f64], earlier: &[f64], rates: [f64; 8], t: f64) -> [f64; 8]
    requires { (length rates ≡ 8) × Rising tenors.now }
    ensures { result ≡ map (λ x. discount_of tenors.now (with_rate earlier.now x) t) rates }
{
    let mut factors = exponents_at(zero_rates_with(tenors, earlier, rates, t), t);
    elementary::exp::exp_each(&mut factors);
    factors
}
