// Kind 2, a bond: 26 bytes.
ghost use Rattle.std.specs.Prelude.{◌≡◌, refl};
ghost use Rattle.refusals.specs.Answers.{outcome};
ghost use Rattle.records.specs.Kinds.{bond_layout, read_bond_uncoded, read_bond, bond_bytes};

use crate::record::{Record, read, read_uncoded, write};
use crate::{BondRecord, fields};
use refusals::Refusal;

pub const BOND_KIND: u8 = 2;

pub const BOND_SIZE: usize = 26;

impl Record for BondRecord {
    ghost layout = { bond_layout };

    const KIND: u8 = BOND_KIND;

    ghost KIND = { 2 };

    const SIZE: usize = BOND_SIZE;

    ghost SIZE = { 26 };

    fn held(bytes: &[u8]) -> BondRecord {
        BondRecord {
            face: fields::float_at(bytes, 1),
            coupon: fields::float_at(bytes, 9),
            maturity: fields::float_at(bytes, 17),
            frequency: bytes[25],
        }
    }

    #[tactic(auto, using(refusals::proofs::Causes::or_false), unfolding(refusals::specs::Table::bad_code))]
    fn has_bad_code(&self) -> bool {
        self.frequency > 3
    }

    fn put(self, out: &mut [u8]) {
        fields::put_float(out, 1, self.face);
        fields::put_float(out, 9, self.coupon);
        fields::put_float(out, 17, self.maturity);
        out[25] = self.frequency;
    }

    ghost kind_is = { refl };

    ghost size_is = { refl };

    ghost held_again = { λ h. refl };
}

// The bond that the bytes hold, or refusal 11 for another kind or length, or a frequency code outside 0 to 3.
#[tactic(auto, unfolding(crate::specs::Kinds::read_bond))]
pub fn read_bond(bytes: &[u8]) -> Result<BondRecord, Refusal>
    ensures { outcome result ≡ read_bond bytes.now }
{
    read(bytes)
}

// The bond that the bytes hold, whatever its frequency's code: refusal 11 is for another kind or length alone.
#[tactic(auto, unfolding(crate::specs::Kinds::read_bond_uncoded))]
pub fn read_bond_uncoded(bytes: &[u8]) -> Result<BondRecord, Refusal>
    ensures { outcome result ≡ read_bond_uncoded bytes.now }
{
    read_uncoded(bytes)
}

// The record of the bond, in an array of its own length: nothing is refused.
#[tactic(auto, unfolding(crate::specs::Kinds::bond_bytes))]
pub fn write_bond(bond: BondRecord, out: &mut [u8; BOND_SIZE])
    ensures { out.new ≡ bond_bytes bond }
{
    write(bond, out);
}
