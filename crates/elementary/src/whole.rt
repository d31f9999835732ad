// Whole numbers of 32 bits from floats that are usually whole themselves: exponents, and a bond's periods.
ghost use Rattle.std.specs.Prelude.{◌≡◌};
ghost use Rattle.numbers.specs.Whole.{nearest_whole};

use numbers::whole::nearest_whole;

// Over 2^52 the last digits of a float are a whole number: the guess, which stands where it is x itself.
pub fn usually_whole(x: f64) -> u32
    ensures { result ≡ nearest_whole x }
{
    let shifted = x + 4503599627370496.0;
    if shifted > 0.0 {
        let guess = (shifted.to_bits() % 4294967296) as u32;
        if f64::from(guess) == x {
            return guess;
        }
    }
    nearest_whole(x)
}
