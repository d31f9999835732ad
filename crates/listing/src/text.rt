// Text put into lent memory from a place on: each function gives the place behind what it put.
ghost use Rattle.std.specs.Prelude.{◌≡◌, ◌+◌, ◌<◌, ◌≤◌, length};
ghost use Rattle.listing.specs.Digits.{digit as digit_of, decimal};
ghost use Rattle.listing.specs.Listing.{spaced};
ghost use Rattle.listing.specs.inner.Putting.{Put, digits_in};

// A digit below 16: 0 to 9, then a to f.
fn digit(d: u64) -> u8
    requires { d < 16 }
    ensures { result ≡ digit_of d }
{
    if d < 10 { 48 + d as u8 } else { 87 + d as u8 }
}

pub(crate) fn put_text(out: &mut [u8], at: usize, text: &[u8]) -> usize
    requires { at + length text.now ≤ length out.old }
    ensures { Put text.now at out.old result out.new }
{
    let mut i = 0;
    while i < text.len() {
        out[at + i] = text[i];
        i += 1;
    }
    at + i
}

// So many digits of a number, the last one first.
fn put_digits(out: &mut [u8], at: usize, base: u64, count: usize, n: u64) -> usize
    requires { (0 < base) × (base ≤ 16) × (at + count ≤ length out.old) }
    ensures { Put (digits_in base count n) at out.old result out.new }
{
    let mut rest = n;
    let mut left = count;
    while left > 0 {
        left -= 1;
        out[at + left] = digit(rest % base);
        rest = rest / base;
    }
    at + count
}

// How many decimal digits a number has.
fn decimal_size(n: u32) -> usize
    ensures { result ≡ length (decimal n) }
{
    let mut rest = n;
    let mut size = 1;
    while rest >= 10 {
        rest = rest / 10;
        size += 1;
    }
    size
}

pub(crate) fn put_decimal(out: &mut [u8], at: usize, n: u32) -> usize
    requires { at + length (decimal n) ≤ length out.old }
    ensures { Put (decimal n) at out.old result out.new }
{
    put_digits(out, at, 10, decimal_size(n), n as u64)
}

// A space, and a float's pattern as 16 hexadecimal digits.
pub(crate) fn put_spaced(out: &mut [u8], at: usize, x: f64) -> usize
    requires { at + length (spaced x) ≤ length out.old }
    ensures { Put (spaced x) at out.old result out.new }
{
    let next = put_text(out, at, b" ");
    put_digits(out, next, 16, 16, numbers::patterns::pattern_of(x))
}
