// Floats to and from their bit patterns, at a NaN too: there is one NaN, and it is written 7ff8000000000000.
ghost use Rattle.std.specs.Prelude.{◌≡◌, from_bits, to_bits};
ghost use Rattle.std.specs.Float.{binary64};
ghost use Rattle.std.specs.Float.Ieee.{nan_bits};

// Whether a pattern is a NaN's: above infinity's, the sign left off.
pub fn is_nan(pattern: u64) -> bool
    ensures { result ≡ nan_bits binary64 pattern }
{
    pattern % 0x8000_0000_0000_0000 > 0x7ff0_0000_0000_0000
}

// The float of a pattern.
pub fn float_of(pattern: u64) -> f64
    ensures { result ≡ from_bits binary64 pattern }
{
    if is_nan(pattern) {
        0.0 / 0.0
    } else {
        f64::from_bits(pattern)
    }
}

// The pattern of a float.
pub fn pattern_of(x: f64) -> u64
    ensures { result ≡ to_bits binary64 x }
{
    if x != x {
        0x7ff8_0000_0000_0000
    } else {
        f64::to_bits(x)
    }
}
