// Kind 1, a loan's terms: 21 bytes.
ghost use Rattle.std.specs.Prelude.{◌≡◌, refl};
ghost use Rattle.refusals.specs.Answers.{outcome};
ghost use Rattle.records.specs.Kinds.{terms_layout, read_terms, terms_bytes};

use crate::record::{Record, read, write};
use crate::{Terms, fields};
use refusals::Refusal;

pub const TERMS_KIND: u8 = 1;

pub const TERMS_SIZE: usize = 21;

impl Record for Terms {
    ghost layout = { terms_layout };

    const KIND: u8 = TERMS_KIND;

    ghost KIND = { 1 };

    const SIZE: usize = TERMS_SIZE;

    ghost SIZE = { 21 };

    fn held(bytes: &[u8]) -> Terms {
        Terms {
            principal: fields::float_at(bytes, 1),
            rate: fields::float_at(bytes, 9),
            term: fields::whole_at(bytes, 17),
        }
    }

    fn has_bad_code(&self) -> bool {
        false
    }

    fn put(self, out: &mut [u8]) {
        fields::put_float(out, 1, self.principal);
        fields::put_float(out, 9, self.rate);
        fields::put_whole(out, 17, self.term);
    }

    ghost kind_is = { refl };

    ghost size_is = { refl };

    ghost held_again = { λ h. refl };
}

// The terms that the bytes hold, or refusal 11 for another kind or length.
#[tactic(auto, unfolding(crate::specs::Kinds::read_terms))]
pub fn read_terms(bytes: &[u8]) -> Result<Terms, Refusal>
    ensures { outcome result ≡ read_terms bytes.now }
{
    read(bytes)
}

// The record of the terms, in an array of its own length: nothing is refused.
#[tactic(auto, unfolding(crate::specs::Kinds::terms_bytes))]
pub fn write_terms(terms: Terms, out: &mut [u8; TERMS_SIZE])
    ensures { out.new ≡ terms_bytes terms }
{
    write(terms, out);
}
