ghost use Rattle.std.specs.Prelude.{◌≡◌, ◌++◌, [], codes};
ghost use Rattle.dynamo_ser.specs.Datum as datum;
ghost use Rattle.dynamo_ser.specs.Writes.{Writes};
ghost use Rattle.dynamo_de.specs.Meets.{Meets};
ghost use Rattle.dynamo_shape.specs.Conforms.{conforms};
ghost use Rattle.dynamo_shape.specs.Shape.{tuple_struct};
ghost use Rattle.dynamo_record.specs.Fields.{shapes_of};
ghost use Rattle.dynamo_record.specs.TupleStructs.{AboutTupleStruct, tuple_struct_reads};
ghost use Rattle.dynamo_record.specs.TupleStructs.{with_fields};

use crate::content::read_fields;
use crate::{FieldList, RefList};
use dynamo_de::{Deserializer, Request};
use dynamo_ser::{SerializeTupleStruct, Serializer};
use std::alloc::Global;

/// A tuple struct of several fields, by its description: the list of their types.
pub trait TupleStruct: Sized + Drop {
    /// The types of the fields, as `(Field<u64>, Field<String>)`: a [`FieldList`]. Only reading
    /// asks for that bound, so that all else is checked without the traits of the fields.
    type Fields;

    // The name of the struct, and the fields of a value.
    ghost about: { AboutTupleStruct Self Self.Fields };

    /// Returns the name of the struct.
    fn name() -> &'static str
        ensures { result.now ≡ about.name };

    /// Returns what reading expects, as `tuple struct Point`.
    fn expecting() -> &'static str
        ensures { result.now ≡ codes "tuple struct " ++ about.name };

    /// Returns the number of fields.
    fn count() -> usize
        ensures { result ≡ about.list.count };

    /// Returns the struct of these fields.
    fn make(fields: Self::Fields) -> Self
        ensures { about.parts result ≡ fields };
}

/// Reads a tuple struct by its description. It is the body of `deserialize`.
///
/// # Errors
///
/// Returns the first error of a field.
///
/// Returns an error with a message for a list that is too short, and for data that aren't a list.
///
/// Returns the error for out of memory if memory runs out.
pub fn read_tuple_struct<R: TupleStruct, D: Deserializer>(
    alloc: Global,
    deserializer: D,
) -> Result<R, D::Error>
where
    R::Fields: FieldList + Drop,
    ensures { Meets D.Error.fault
        (tuple_struct_reads (with_fields R.about R.Fields.about) (D.source deserializer)) result }
{
    match read_fields(alloc, Request::TupleStruct, deserializer, R::expecting()) {
        Ok(fields) => Ok(R::make(fields)),
        Err(error) => Err(error),
    }
}

/// Writes a tuple struct by its description. It is the body of `serialize`.
///
/// # Errors
///
/// Returns the first error of a field, or the serializer's error.
pub fn write_tuple_struct<R: TupleStruct, W: RefList, S: Serializer>(
    serializer: S,
    fields: &W,
) -> Result<S::Ok, S::Error>
    ensures { Writes S.Error.fault ⊥ (S.outcome serializer)
        (datum.tuple_struct R.about.name (datum.elements_of (W.told fields.now []))) result }
{
    let mut builder = serializer.serialize_tuple_struct(R::name(), R::count())?;
    fields.write_elements::<S, S::SerializeTupleStruct>(&mut builder)?;
    builder.end()
}

/// Promises that the datum of a tuple struct conforms to its shape. It is the body of `conforms`.
pub fn tuple_struct_conforms<R: TupleStruct, W: RefList>(fields: &W)
    ensures { conforms (tuple_struct R.about.name (shapes_of (W.shapes [])))
        (datum.tuple_struct R.about.name (datum.elements_of (W.told fields.now []))) }
{
    fields.conform()
}
