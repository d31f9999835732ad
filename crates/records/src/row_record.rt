// Kind 3, a row of a schedule: 37 bytes.
ghost use Rattle.std.specs.Prelude.{◌≡◌, refl};
ghost use Rattle.refusals.specs.Answers.{outcome};
ghost use Rattle.records.specs.Kinds.{row_layout, read_row, row_bytes};

use crate::record::{Record, read, write};
use crate::{Row, fields};
use refusals::Refusal;

pub const ROW_KIND: u8 = 3;

pub const ROW_SIZE: usize = 37;

impl Record for Row {
    ghost layout = { row_layout };

    const KIND: u8 = ROW_KIND;

    ghost KIND = { 3 };

    const SIZE: usize = ROW_SIZE;

    ghost SIZE = { 37 };

    fn held(bytes: &[u8]) -> Row {
        Row {
            month: fields::whole_at(bytes, 1),
            payment: fields::float_at(bytes, 5),
            principal: fields::float_at(bytes, 13),
            interest: fields::float_at(bytes, 21),
            balance: fields::float_at(bytes, 29),
        }
    }

    fn has_bad_code(&self) -> bool {
        false
    }

    fn put(self, out: &mut [u8]) {
        fields::put_whole(out, 1, self.month);
        fields::put_float(out, 5, self.payment);
        fields::put_float(out, 13, self.principal);
        fields::put_float(out, 21, self.interest);
        fields::put_float(out, 29, self.balance);
    }

    ghost kind_is = { refl };

    ghost size_is = { refl };

    ghost held_again = { λ h. refl };
}

// The row that the bytes hold, or refusal 11 for another kind or length.
#[tactic(auto, unfolding(crate::specs::Kinds::read_row))]
pub fn read_row(bytes: &[u8]) -> Result<Row, Refusal>
    ensures { outcome result ≡ read_row bytes.now }
{
    read(bytes)
}

// The record of the row, in an array of its own length: nothing is refused.
#[tactic(auto, unfolding(crate::specs::Kinds::row_bytes))]
pub fn write_row(row: Row, out: &mut [u8; ROW_SIZE])
    ensures { out.new ≡ row_bytes row }
{
    write(row, out);
}
