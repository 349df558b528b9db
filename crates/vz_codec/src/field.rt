//! Kinds of fields: single ones, optional ones after a flag, and several in a row.
ghost use Rattle.std.specs.Prelude.{◌≡◌, ◌++◌, length, OnOk, IfOk};
ghost use Rattle.std.specs.List.{flat_map, list_all};
ghost use Rattle.vz_codec.specs.Fields.{Kind, optional, counted};
ghost use Rattle.vz_codec.specs.Giving.{Gives};
ghost use Rattle.vz_codec.specs.Reading.{many_at};

use crate::error::ReadError;
use crate::fault::FileRule;
use crate::reader::Reader;
use crate::writer::Writer;
use std::alloc::AllocError;
use vz_frame::List;

/// A kind of field: how its values are read and written, and which of them fit the format.
pub trait Field {
    type Value: Drop;

    /// How a value is read, which bytes spell it, and whether each number in it is in its range.
    ghost kind: { Self → Kind Self.Value };

    fn read(&self, input: &mut Reader) -> Result<Self::Value, ReadError>
        ensures { Gives (λ x. (x, input.new)) result ((kind self.now).reading input.old) };

    fn write(&self, value: &Self::Value, out: &mut Writer) -> Result<(), AllocError>
        ensures { OnOk result (out.new ≡ out.old ++ (kind self.now).spelling value.now) };

    fn fits(&self, value: &Self::Value) -> bool
        ensures { result ≡ (kind self.now).fitting value.now };
}

/// A flag of one byte, and, after the flag 1, a value.
#[derive(Drop)]
pub struct Optional<F>(pub F);

#[tactic(auto, unfolding(crate::specs::Reading::optional_at, crate::specs::Reading::tagged), using(crate::proofs::Appended::appended))]
impl<F: Field + Drop> Field for Optional<F> {
    type Value = Option<F::Value>;

    ghost kind = { λ o. optional (F.kind o.0) };

    fn read(&self, input: &mut Reader) -> Result<Option<F::Value>, ReadError> {
        if input.u8_within(FileRule::Tag, 0, 1)? == 0 {
            return Ok(None);
        }
        Ok(Some(self.0.read(input)?))
    }

    fn write(&self, value: &Option<F::Value>, out: &mut Writer) -> Result<(), AllocError> {
        match value {
            None => out.u8(0),
            Some(value) => {
                out.u8(1)?;
                self.0.write(value, out)
            }
        }
    }

    fn fits(&self, value: &Option<F::Value>) -> bool {
        match value {
            None => true,
            Some(value) => self.0.fits(value),
        }
    }
}

/// A count of one byte with a greatest value, and then as many values.
#[derive(Drop)]
pub struct Counted<F>(pub u8, pub F);

#[tactic(auto, unfolding(crate::specs::Reading::counted_at), using(crate::proofs::Appended::appended))]
impl<F: Field + Drop> Field for Counted<F> {
    type Value = List<F::Value>;

    ghost kind = { λ c. counted c.0 (F.kind c.1) };

    fn read(&self, input: &mut Reader) -> Result<List<F::Value>, ReadError> {
        let count = input.u8_within(FileRule::Limit, 0, self.0)?;
        let values = read_many(&self.1, usize::from(count), input)?;
        Ok(List::from_vec(values))
    }

    fn write(&self, values: &List<F::Value>, out: &mut Writer) -> Result<(), AllocError> {
        let values = values.as_slice();
        out.u8_count(values.len())?;
        write_many(&self.1, values, out)
    }

    fn fits(&self, values: &List<F::Value>) -> bool {
        let values = values.as_slice();
        values.len() <= usize::from(self.0) && fit_all(&self.1, values)
    }
}

/// Reads `count` values. It first reserves room for no more of them than bytes are left, so that
/// a false count cannot ask for much memory.
pub fn read_many<F: Field>(
    field: &F,
    count: usize,
    input: &mut Reader,
) -> Result<Vec<F::Value>, ReadError>
    ensures given { let read = many_at (F.kind field.now).reading count in
        Gives (λ x. (x.items, input.new)) result (read input.old) }
    ensures all { IfOk result (λ x. length x.items ≡ count) }
{
    let mut values = Vec::with_capacity(input.alloc(), count.min(input.left()))?;

    // A copy of the reader is used while the values are read.
    let mut ahead = input.ahead();
    for _ in 0..count {
        let value = field.read(&mut ahead)?;
        values.push(value)?;
    }
    *input = ahead;
    Ok(values)
}

/// Writes values one after the other, without their count.
pub fn write_many<F: Field>(
    field: &F,
    values: &[F::Value],
    out: &mut Writer,
) -> Result<(), AllocError>
    ensures { OnOk result (out.new ≡ out.old ++ flat_map (F.kind field.now).spelling values.now) }
{
    for value in values {
        field.write(value, out)?;
    }
    Ok(())
}

/// Whether each of these values fits the format.
pub fn fit_all<F: Field>(field: &F, values: &[F::Value]) -> bool
    ensures { result ≡ list_all (F.kind field.now).fitting values.now }
{
    values.iter().all(|value| field.fits(value))
}
