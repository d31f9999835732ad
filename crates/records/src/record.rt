// A kind of record: its number, its length and its fields; and the reading and the writing of any of them.
ghost use Rattle.std.specs.Prelude.{◌≡◌, ℕ, [], ◌∷◌, ◌<◌, length};
ghost use Rattle.std.proofs.lemmas.List.Edits.{sets};
ghost use Rattle.refusals.specs.Answers.{outcome};
ghost use Rattle.refusals.specs.Outcome.{line, judged};
ghost use Rattle.refusals.specs.Table.{bad_record};
ghost use Rattle.records.specs.Fields.{HeldByAll, bytes_in_all, any_bad_code};
ghost use Rattle.records.specs.Kinds.{Layout, record_size, record_of, value_in, read_as, read_uncoded};

use refusals::{Cause, Refusal, refuse};

pub(crate) trait Record: Copy {
    ghost layout: { Layout Self };

    // The first byte, and how many bytes there are.
    const KIND: u8;

    ghost KIND: { ℕ };

    const SIZE: usize;

    ghost SIZE: { ℕ };

    // The value of the fields behind the kind, whatever their codes.
    fn held(bytes: &[u8]) -> Self
        requires { length bytes.now ≡ record_size layout }
        ensures { result ≡ value_in layout bytes.now };

    // Whether a code is outside its set.
    fn has_bad_code(&self) -> bool
        ensures { result ≡ any_bad_code layout.fields (layout.held_of self.now) };

    // The fields in their places behind the kind.
    fn put(self, out: &mut [u8])
        requires { length out.old ≡ record_size layout }
        ensures { out.new ≡ sets out.old 1 (bytes_in_all layout.fields (layout.held_of self)) };

    // What a kind must show: number and length are its layout's, and the layout holds a value as it gives it.
    ghost kind_is: { KIND ≡ layout.kind };

    ghost size_is: { SIZE ≡ record_size layout };

    ghost held_again: { (h : HeldByAll layout.fields) → layout.held_of (layout.value_of h) ≡ h };
}

// Line 11: a record of another kind or another length.
#[tactic(auto, unfolding(refusals::specs::Table::bad_record))]
fn bad_record(kind: u8, size: usize, bytes: &[u8]) -> bool
    requires { 0 < size }
    ensures { result ≡ bad_record kind size bytes.now }
{
    bytes.len() != size || bytes[0] != kind
}

fn judge_record<R: Record>(bytes: &[u8]) -> Result<(), Refusal>
    ensures { outcome result ≡ judged (line 11 (bad_record R.layout.kind (record_size R.layout) bytes.now) ∷ []) tt }
{
    if bad_record(R::KIND, R::SIZE, bytes) {
        return Err(refuse(Cause::Record));
    }
    Ok(())
}

// The value of the record, or refusal 11 for another kind or length, or a code outside its set.
pub(crate) fn read<R: Record>(bytes: &[u8]) -> Result<R, Refusal>
    ensures { outcome result ≡ read_as R.layout bytes.now }
{
    judge_record::<R>(bytes)?;
    let value = R::held(bytes);
    if value.has_bad_code() {
        return Err(refuse(Cause::Record));
    }
    Ok(value)
}

// The same whatever its codes: refusal 11 is for another kind or length alone.
pub(crate) fn read_uncoded<R: Record>(bytes: &[u8]) -> Result<R, Refusal>
    ensures { outcome result ≡ read_uncoded R.layout bytes.now }
{
    judge_record::<R>(bytes)?;
    Ok(R::held(bytes))
}

// The record of the value, in as many bytes as it has.
pub(crate) fn write<R: Record>(value: R, out: &mut [u8])
    requires { length out.old ≡ record_size R.layout }
    ensures { out.new ≡ record_of R.layout value }
{
    out[0] = R::KIND;
    value.put(out);
}
