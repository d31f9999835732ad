// Fields of a record, the least byte first.
ghost use Rattle.std.specs.Prelude.{◌≡◌, ◌+◌, ◌≤◌, length};
ghost use Rattle.std.proofs.lemmas.List.Edits.{sets};
ghost use Rattle.records.specs.Bytes.{value_of, field, pair_at, whole_at, float_at, pair_bytes, whole_bytes, float_bytes};

use numbers::patterns::{float_of, pattern_of};

// So many bytes, from a place.
fn bytes_at<const N: usize>(bytes: &[u8], at: usize) -> [u8; N]
    requires { at + N ≤ length bytes.now }
    ensures { result ≡ field at N bytes.now }
{
    let mut part = [0; N];
    part.copy_from_slice(&bytes[at..at + N]);
    part
}

// A whole number of two bytes.
pub(crate) fn pair_at(bytes: &[u8], at: usize) -> u16
    requires { at + 2 ≤ length bytes.now }
    ensures { result ≡ pair_at at bytes.now }
{
    u16::from_le_bytes(bytes_at(bytes, at))
}

// A u32.
pub(crate) fn whole_at(bytes: &[u8], at: usize) -> u32
    requires { at + 4 ≤ length bytes.now }
    ensures { result ≡ whole_at at bytes.now }
{
    u32::from_le_bytes(bytes_at(bytes, at))
}

// A float's pattern, as a number.
pub(crate) fn pattern_at(bytes: &[u8], at: usize) -> u64
    requires { at + 8 ≤ length bytes.now }
    ensures { result ≡ value_of (field at 8 bytes.now) }
{
    u64::from_le_bytes(bytes_at(bytes, at))
}

// An f64.
#[tactic(auto, unfolding(crate::specs::Bytes::float_at))]
pub(crate) fn float_at(bytes: &[u8], at: usize) -> f64
    requires { at + 8 ≤ length bytes.now }
    ensures { result ≡ float_at at bytes.now }
{
    float_of(pattern_at(bytes, at))
}

// A whole number in its two places: no other place changes.
pub(crate) fn put_pair(out: &mut [u8], at: usize, n: u16)
    requires { at + 2 ≤ length out.old }
    ensures { out.new ≡ sets out.old at (pair_bytes n) }
{
    out[at..at + 2].copy_from_slice(&n.to_le_bytes());
}

// A u32 in its four places: no other place changes.
pub(crate) fn put_whole(out: &mut [u8], at: usize, n: u32)
    requires { at + 4 ≤ length out.old }
    ensures { out.new ≡ sets out.old at (whole_bytes n) }
{
    out[at..at + 4].copy_from_slice(&n.to_le_bytes());
}

// An f64 in its eight places: no other place changes.
pub(crate) fn put_float(out: &mut [u8], at: usize, x: f64)
    requires { at + 8 ≤ length out.old }
    ensures { out.new ≡ sets out.old at (float_bytes x) }
{
    out[at..at + 8].copy_from_slice(&pattern_of(x).to_le_bytes());
}
