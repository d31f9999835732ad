// The listing of a loan's schedule, from the bytes of its record.
#![tactic(auto)]

ghost use Rattle.std.specs.Prelude.{◌≡◌, ◌++◌, length, drop};
ghost use Rattle.refusals.specs.Answers.{outcome};
ghost use Rattle.listing.specs.Listing.{listed, listed_size, lines_over, listing};

use refusals::Refusal;

mod lines;
mod portions;
mod text;

// Bytes enough for the listing of any loan.
pub const ROOM: usize = 96000;

// Puts the lines of the loan that a kind 1 record opens from the start of the lent memory, and gives their length; a refusal leaves the memory.
pub fn list_loan(bytes: &[u8], out: &mut [u8; ROOM]) -> Result<u32, Refusal>
    ensures result_value { outcome result ≡ listed_size bytes.now }
    ensures out_after { out.new ≡ lines_over (listed bytes.now) out.old }
{
    let terms = records::terms_record::read_terms(bytes)?;
    match mortgage::opening::open(terms) {
        Err(refusal) => Err(refusal),
        Ok(loan) => Ok(portions::put_loan(out, loan) as u32),
    }
}

// Puts the listing of a kind 1 record, or the line that says its refusal, from the start of the lent memory, and gives its length.
pub fn list(bytes: &[u8], out: &mut [u8; ROOM]) -> usize
    ensures value { result ≡ length (listing bytes.now) }
    ensures out_after { out.new ≡ listing bytes.now ++ drop result out.old }
{
    match list_loan(bytes, out) {
        Err(refusal) => lines::put_refused(out, 0, refusal),
        Ok(size) => size as usize,
    }
}
