// Kind 4, a swap: 30 bytes.
ghost use Rattle.std.specs.Prelude.{◌≡◌, refl};
ghost use Rattle.refusals.specs.Answers.{outcome};
ghost use Rattle.records.specs.Kinds.{swap_layout, read_swap_uncoded, read_swap, swap_bytes};

use crate::record::{Record, read, read_uncoded, write};
use crate::{SwapRecord, fields};
use refusals::Refusal;

pub const SWAP_KIND: u8 = 4;

pub const SWAP_SIZE: usize = 30;

impl Record for SwapRecord {
    ghost layout = { swap_layout };

    const KIND: u8 = SWAP_KIND;

    ghost KIND = { 4 };

    const SIZE: usize = SWAP_SIZE;

    ghost SIZE = { 30 };

    fn held(bytes: &[u8]) -> SwapRecord {
        SwapRecord {
            notional: fields::float_at(bytes, 1),
            rate: fields::float_at(bytes, 9),
            tenor: fields::float_at(bytes, 17),
            frequency: fields::whole_at(bytes, 25),
            count: bytes[29],
        }
    }

    #[tactic(auto, using(refusals::proofs::Causes::or_false), unfolding(refusals::specs::Table::bad_code))]
    fn has_bad_code(&self) -> bool {
        self.count > 2
    }

    fn put(self, out: &mut [u8]) {
        fields::put_float(out, 1, self.notional);
        fields::put_float(out, 9, self.rate);
        fields::put_float(out, 17, self.tenor);
        fields::put_whole(out, 25, self.frequency);
        out[29] = self.count;
    }

    ghost kind_is = { refl };

    ghost size_is = { refl };

    ghost held_again = { λ h. refl };
}

// The swap that the bytes hold, or refusal 11 for another kind or length, or a day count code outside 0 to 2.
#[tactic(auto, unfolding(crate::specs::Kinds::read_swap))]
pub fn read_swap(bytes: &[u8]) -> Result<SwapRecord, Refusal>
    ensures { outcome result ≡ read_swap bytes.now }
{
    read(bytes)
}

// The swap that the bytes hold, whatever its day count's code: refusal 11 is for another kind or length alone.
#[tactic(auto, unfolding(crate::specs::Kinds::read_swap_uncoded))]
pub fn read_swap_uncoded(bytes: &[u8]) -> Result<SwapRecord, Refusal>
    ensures { outcome result ≡ read_swap_uncoded bytes.now }
{
    read_uncoded(bytes)
}

// The record of the swap, in an array of its own length: nothing is refused.
#[tactic(auto, unfolding(crate::specs::Kinds::swap_bytes))]
pub fn write_swap(swap: SwapRecord, out: &mut [u8; SWAP_SIZE])
    ensures { out.new ≡ swap_bytes swap }
{
    write(swap, out);
}
