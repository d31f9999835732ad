// Kind 5, a swap between two dates: 38 bytes. A date that is none is still part of a well-formed record.
ghost use Rattle.std.specs.Prelude.{◌≡◌, ◌+◌, ◌≤◌, refl, length};
ghost use Rattle.std.proofs.lemmas.List.Edits.{sets};
ghost use Rattle.refusals.specs.Answers.{outcome};
ghost use Rattle.records.specs.Kinds.{date_at, date_bytes, dated_swap_layout, read_dated_swap_uncoded, read_dated_swap, dated_swap_bytes};

use crate::record::{Record, read, read_uncoded, write};
use crate::{DatedSwapRecord, fields};
use dates::Date;
use refusals::Refusal;

pub const DATED_SWAP_KIND: u8 = 5;

pub const DATED_SWAP_SIZE: usize = 38;

impl Record for DatedSwapRecord {
    ghost layout = { dated_swap_layout };

    const KIND: u8 = DATED_SWAP_KIND;

    ghost KIND = { 5 };

    const SIZE: usize = DATED_SWAP_SIZE;

    ghost SIZE = { 38 };

    fn held(bytes: &[u8]) -> DatedSwapRecord {
        DatedSwapRecord {
            notional: fields::float_at(bytes, 1),
            rate: fields::float_at(bytes, 9),
            tenor: fields::float_at(bytes, 17),
            frequency: fields::whole_at(bytes, 25),
            first: date_at(bytes, 29),
            second: date_at(bytes, 33),
            count: bytes[37],
        }
    }

    #[tactic(auto, using(refusals::proofs::Causes::or_false), unfolding(refusals::specs::Table::bad_code))]
    fn has_bad_code(&self) -> bool {
        self.count > 2
    }

    fn put(self, out: &mut [u8]) {
        fields::put_float(out, 1, self.notional);
        fields::put_float(out, 9, self.rate);
        fields::put_float(out, 17, self.tenor);
        fields::put_whole(out, 25, self.frequency);
        put_date(out, 29, self.first);
        put_date(out, 33, self.second);
        out[37] = self.count;
    }

    ghost kind_is = { refl };

    ghost size_is = { refl };

    ghost held_again = { λ h. refl };
}

// The swap that the bytes hold, or refusal 11 for another kind or length, or a day count code outside 0 to 2.
#[tactic(auto, unfolding(crate::specs::Kinds::read_dated_swap))]
pub fn read_dated_swap(bytes: &[u8]) -> Result<DatedSwapRecord, Refusal>
    ensures { outcome result ≡ read_dated_swap bytes.now }
{
    read(bytes)
}

// The swap that the bytes hold, whatever its day count's code: refusal 11 is for another kind or length alone.
#[tactic(auto, unfolding(crate::specs::Kinds::read_dated_swap_uncoded))]
pub fn read_dated_swap_uncoded(bytes: &[u8]) -> Result<DatedSwapRecord, Refusal>
    ensures { outcome result ≡ read_dated_swap_uncoded bytes.now }
{
    read_uncoded(bytes)
}

// The record of the swap, in an array of its own length: nothing is refused.
#[tactic(auto, unfolding(crate::specs::Kinds::dated_swap_bytes))]
pub fn write_dated_swap(swap: DatedSwapRecord, out: &mut [u8; DATED_SWAP_SIZE])
    ensures { out.new ≡ dated_swap_bytes swap }
{
    write(swap, out);
}

// A date: its year of two bytes, its month and its day.
fn date_at(bytes: &[u8], at: usize) -> Date
    requires { at + 4 ≤ length bytes.now }
    ensures { result ≡ date_at at bytes.now }
{
    Date {
        year: fields::pair_at(bytes, at),
        month: bytes[at + 2],
        day: bytes[at + 3],
    }
}

// A date in its four places: no other place changes.
fn put_date(out: &mut [u8], at: usize, date: Date)
    requires { at + 4 ≤ length out.old }
    ensures { out.new ≡ sets out.old at (date_bytes date) }
{
    fields::put_pair(out, at, date.year);
    out[at + 2] = date.month;
    out[at + 3] = date.day;
}
