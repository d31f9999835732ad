// Whole numbers of 32 bits from floats: a NaN and anything below zero give 0, what is too large 4,294,967,295.
ghost use Rattle.std.specs.Prelude.{◌≡◌};
ghost use Rattle.numbers.specs.Whole.{nearest_whole, ceiling};

const LARGEST: u32 = 4294967295;

// The nearest whole number, halves away from zero: the whole part of 2 x, which is exact, then half of one more.
pub fn nearest_whole(x: f64) -> u32
    ensures { result ≡ nearest_whole x }
{
    if x > 4294967295.0 {
        return LARGEST;
    }
    if x > 0.0 {
        ((std::num::truncating_f64_to_u64(x + x) + 1) / 2) as u32
    } else {
        0
    }
}

// The least whole number that is not below x.
pub fn ceiling_to_u32(x: f64) -> u32
    ensures { result ≡ ceiling x }
{
    if x > 4294967295.0 {
        return LARGEST;
    }
    if x > 0.0 {
        let cut = std::num::truncating_f64_to_u64(x) as u32;
        if (cut as f64) < x { cut + 1 } else { cut }
    } else {
        0
    }
}
