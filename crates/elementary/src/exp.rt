// exp: the nearest multiple of ln 2 is taken off, then Horner's rule over the rest, times the power of two.
ghost use Rattle.std.specs.Prelude.{◌≡◌, true, cond, map, ℕ, ◌<◌, ◌≤◌, ◌%◌, length, get_or, pos};
ghost use Rattle.std.specs.Float.{nan, binary64};
ghost use Rattle.std.specs.Float.Ieee.{add, sub, neg, of_int};
ghost use Rattle.elementary.specs.Horner.{horner};
ghost use Rattle.elementary.specs.Exp.{inverse_factorial, signed, two_to, reduced, below, halvings, exp};
ghost use Rattle.elementary.specs.inner.Ends.{Inside};

use crate::horner::horner;
use crate::ln2::{INVERSE_LN2, LN2_HIGH, LN2_LOW};

// 1/k! for k from 0 to 13, each rounded once.
const INVERSE_FACTORIALS: [f64; 14] = [
    1.0,
    1.0,
    0.5,
    0.16666666666666666,
    0.041666666666666664,
    0.008333333333333333,
    0.001388888888888889,
    0.0001984126984126984,
    2.48015873015873e-05,
    2.7557319223985893e-06,
    2.755731922398589e-07,
    2.505210838544172e-08,
    2.08767569878681e-09,
    1.6059043836821613e-10,
];

fn series(r: f64) -> f64
    ensures { result ≡ horner inverse_factorial r 0 13 }
{
    horner(&INVERSE_FACTORIALS, r)
}

// x less k times ln 2, in two parts.
fn taken_off(x: f64, k: f64) -> f64
    ensures { result ≡ reduced x k }
{
    (x - k * LN2_HIGH) - k * LN2_LOW
}

fn negated_if(below: bool, y: f64) -> f64
    ensures { result ≡ cond below (neg y) y }
{
    if below { -y } else { y }
}

const TWO_TO_52: f64 = 4503599627370496.0;

// The nearest whole number to a size, halves to even: a float over 2^52 has no digit behind the point.
fn nearest(a: f64) -> f64
    ensures { result ≡ sub binary64 (add binary64 a TWO_TO_52) TWO_TO_52 }
{
    (a + TWO_TO_52) - TWO_TO_52
}

// The size of k, the nearest whole number to x / ln 2, where x passes neither end: where a half was left off, it goes up.
// The sign goes as it comes back, by a test: by `absolute_value` eight at once take 6% more instructions.
fn size_of(x: f64) -> f64
    requires { Inside x }
    ensures { result ≡ of_int binary64 (pos (halvings x)) }
{
    let y = x * INVERSE_LN2;
    let a = negated_if(y < 0.0, y);
    let n = nearest(a);
    if a >= n + 0.5 { n + 1.0 } else { n }
}

// k with its sign.
fn multiple_of(x: f64) -> f64
    requires { Inside x }
    ensures { result ≡ signed (below x) (halvings x) }
{
    negated_if(x * INVERSE_LN2 < 0.0, size_of(x))
}

// 2 to the power k: over 2^52 the last digits of a float are a whole number, here the exponent's field.
fn scale_of(x: f64, k: f64) -> f64
    requires inside { Inside x }
    requires multiple { k ≡ signed (below x) (halvings x) }
    ensures { result ≡ two_to (below x) (halvings x) }
{
    f64::from_bits((k + 4503599627371519.0).to_bits() << 52)
}

// The steps that follow from k.
fn by_multiple(x: f64, k: f64) -> f64
    requires inside { Inside x }
    requires multiple { k ≡ signed (below x) (halvings x) }
    ensures { result ≡ exp x }
{
    series(taken_off(x, k)) * scale_of(x, k)
}

fn between_ends(x: f64) -> f64
    requires { Inside x }
    ensures { result ≡ exp x }
{
    by_multiple(x, multiple_of(x))
}

// The same where it is known whether x / ln 2 is below zero: nothing waits for the test for a half, which is rare.
// A call of `negated_if` would hide from the compiler that -(x·c) is x·(-c): 3% more instructions.
fn on_side<const BELOW: bool>(x: f64) -> f64
    requires inside { Inside x }
    requires side { below x ≡ BELOW }
    ensures { result ≡ exp x }
{
    let y = x * INVERSE_LN2;
    let a = if BELOW { -y } else { y };
    let n = nearest(a);
    if a >= n + 0.5 {
        return between_ends(x);
    }
    let k = if BELOW { -n } else { n };
    by_multiple(x, k)
}

pub fn exp(x: f64) -> f64
    ensures { result ≡ exp x }
{
    if x.is_nan() {
        return x;
    }
    if x > 709.0 {
        return f64::INFINITY;
    }
    if x < -708.0 {
        return 0.0;
    }
    if x * INVERSE_LN2 < 0.0 {
        return on_side::<true>(x);
    }
    on_side::<false>(x)
}

// Whether each is a number between the ends; all are asked alike, so that several are asked at once.
fn all_inside(numbers: &[f64]) -> bool
    ensures { result ≡ true → (k : ℕ) → k < length numbers.now → Inside (get_or numbers.now k nan) }
{
    numbers
        .iter()
        .fold(true, |inside, x| inside & (*x <= 709.0) & (*x >= -708.0))
}

// Each number's exp in its place, one at a time.
fn exp_one_by_one(numbers: &mut [f64])
    ensures { numbers.new ≡ map exp numbers.old }
{
    for x in numbers.iter_mut() {
        *x = exp(*x);
    }
}

// N at once, where each is a number between the ends. In a single loop, eight take 62% more instructions.
fn exp_block<const N: usize>(numbers: &mut [f64])
    requires { length numbers.old ≡ N }
    ensures { numbers.new ≡ map exp numbers.old }
{
    if !all_inside(numbers) {
        exp_one_by_one(numbers);
        return;
    }
    let mut rests = [0.0; N];
    let mut scales = [0.0; N];
    for j in 0..N {
        let x = numbers[j];
        let k = multiple_of(x);
        rests[j] = taken_off(x, k);
        scales[j] = scale_of(x, k);
    }
    for i in 0..N {
        numbers[i] = series(rests[i]) * scales[i];
    }
}

// Whole blocks of sixteen.
fn exp_blocks(numbers: &mut [f64])
    requires { length numbers.old % 16 ≡ 0 }
    ensures { numbers.new ≡ map exp numbers.old }
{
    for k in 0..numbers.len() / 16 {
        let at = 16 * k;
        exp_block::<16>(&mut numbers[at..at + 16]);
    }
}

// Up to sixteen at once, in room for sixteen.
fn exp_few(numbers: &mut [f64])
    requires { length numbers.old ≤ 16 }
    ensures { numbers.new ≡ map exp numbers.old }
{
    let mut room = [0.0; 16];
    let end = numbers.len();
    room[..end].copy_from_slice(numbers);
    exp_block::<16>(&mut room);
    numbers.copy_from_slice(&room[..end]);
}

// Fewer than sixteen: up to four are quicker one by one, and eight, which a search asks for again and again, have a block of their own.
fn exp_last(numbers: &mut [f64])
    requires { length numbers.old ≤ 16 }
    ensures { numbers.new ≡ map exp numbers.old }
{
    if numbers.len() == 8 {
        exp_block::<8>(numbers);
    } else if numbers.len() <= 4 {
        exp_one_by_one(numbers);
    } else {
        exp_few(numbers);
    }
}

// Each number's exp in its place, sixteen at a time.
pub fn exp_each(numbers: &mut [f64])
    ensures { numbers.new ≡ map exp numbers.old }
{
    let end = numbers.len() - numbers.len() % 16;
    let (blocks, last) = numbers.split_at_mut(end);
    exp_blocks(blocks);
    exp_last(last);
}
