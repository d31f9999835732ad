// Sixteen whole powers of one base at once. By repeated squaring an exponent of 16 q + i goes through the steps of i, and then
// through those of q from base^16 on: the steps of i are done once.
ghost use Rattle.std.specs.Prelude.{◌≡◌, map, ◌*◌};
ghost use Rattle.std.specs.Float.{binary64};
ghost use Rattle.std.specs.Float.Ieee.{mul};
ghost use Rattle.elementary.specs.WholePower.{turns};
ghost use Rattle.elementary.specs.Powers.{powers_from};
ghost use Rattle.elementary.specs.inner.Squared.{squared};

// The exponents from 0 to 15.
fn first_sixteen(base: f64) -> [f64; 16]
    ensures { result ≡ powers_from base 0 16 }
{
    let square = base * base;
    let fourth = square * square;
    let eighth = fourth * fourth;
    let p1 = 1.0 * base;
    let p2 = 1.0 * square;
    let p3 = p1 * square;
    let p4 = 1.0 * fourth;
    let p5 = p1 * fourth;
    let p6 = p2 * fourth;
    let p7 = p3 * fourth;
    [
        1.0,
        p1,
        p2,
        p3,
        p4,
        p5,
        p6,
        p7,
        1.0 * eighth,
        p1 * eighth,
        p2 * eighth,
        p3 * eighth,
        p4 * eighth,
        p5 * eighth,
        p6 * eighth,
        p7 * eighth,
    ]
}

fn multiply_each(numbers: &mut [f64], by: f64)
    ensures { numbers.new ≡ map (λ x. mul binary64 x by) numbers.old }
{
    for x in numbers.iter_mut() {
        *x *= by;
    }
}

// Each number times base to the exponent, by repeated squaring from the number on.
fn raise_each(numbers: &mut [f64], base: f64, exponent: u32)
    ensures { numbers.new ≡ map (λ x. turns exponent exponent x base) numbers.old }
{
    let mut square = base;
    let mut left = exponent;
    while left != 0 {
        if left % 2 == 1 {
            multiply_each(numbers, square);
        }
        left /= 2;
        square *= square;
    }
}

fn sixteenth_power(base: f64) -> f64
    ensures { result ≡ squared 4 base }
{
    let square = base * base;
    let fourth = square * square;
    let eighth = fourth * fourth;
    eighth * eighth
}

// base to the sixteen exponents from 16 times the block on.
pub fn sixteen_powers(base: f64, block: u32) -> [f64; 16]
    ensures { result ≡ powers_from base (16 * block) 16 }
{
    let mut powers = first_sixteen(base);
    raise_each(&mut powers, sixteenth_power(base), block);
    powers
}
