ghost use Rattle.dynamo_ser.specs.Writes.{Writes};
ghost use Rattle.dynamo_de.specs.Answer.{After};
ghost use Rattle.dynamo_de.specs.Meets.{Meets};
ghost use Rattle.dynamo_de.specs.Reading as reading;
ghost use Rattle.dynamo_de.specs.Source.{Text};
ghost use Rattle.dynamo_record.specs.Newtypes.{named_newtype, ReadsAs};

use crate::Shaped;
use dynamo_de::{Deserialize, Deserializer, Reader, Request, Showing};
use dynamo_ser::Serializer;
use std::alloc::Global;

/// Reads the field of a newtype struct.
fn read_content<T: Deserialize, R: Reader>(alloc: Global, reader: R) -> Result<T, R::Error>
    ensures { Meets R.Error.fault (After (reading.read_newtype (R.source reader)) T.reads) result }
{
    match reader.show(Request::NewtypeStruct)? {
        Showing::Newtype(content) => T::deserialize(alloc, content),
        other => Err(other.refused(alloc, "newtype struct")),
    }
}

/// Reads the field of a newtype struct with this name, for
/// `Ok(Count(read_newtype(alloc, deserializer, "Count")?))`.
///
/// # Errors
///
/// Returns the error of reading the field.
pub fn read_newtype<T: Shaped, D: Deserializer>(
    alloc: Global,
    deserializer: D,
    _name: &'static str,
) -> Result<T, D::Error>
    ensures { (own : Text)
        → Meets D.Error.fault (ReadsAs (named_newtype own T.about) (D.source deserializer)) result }
{
    read_content(alloc, deserializer)
}

/// Writes the field of a newtype struct with this name, as in
/// `write_newtype("Count", &self.0, serializer)`.
///
/// # Errors
///
/// Returns the error of writing the field, or the serializer's error.
pub fn write_newtype<T: Shaped, S: Serializer>(
    name: &'static str,
    field: &T,
    serializer: S,
) -> Result<S::Ok, S::Error>
    ensures { Writes S.Error.fault (T.wants field.now) (S.outcome serializer)
        ((named_newtype name.now T.about).tells field.now) result }
{
    serializer.serialize_newtype_struct(name, field)
}

/// Reads the field of a transparent struct, for `match read_transparent(alloc, deserializer) { .. }`
/// with the arms `Ok(field) => Ok(Count(field))` and `Err(error) => Err(error)`.
///
/// # Errors
///
/// Returns the error of reading the field.
pub fn read_transparent<T: Shaped, D: Deserializer>(
    alloc: Global,
    deserializer: D,
) -> Result<T, D::Error>
    ensures { Meets D.Error.fault (ReadsAs T.about (D.source deserializer)) result }
{
    T::deserialize(alloc, deserializer)
}

/// Writes the field of a transparent struct, as in `write_transparent(&self.0, serializer)`.
///
/// # Errors
///
/// Returns the error of writing the field, or the serializer's error.
pub fn write_transparent<T: Shaped, S: Serializer>(
    field: &T,
    serializer: S,
) -> Result<S::Ok, S::Error>
    ensures { Writes S.Error.fault (T.wants field.now) (S.outcome serializer)
        (T.about.tells field.now) result }
{
    field.serialize(serializer)
}
