ghost use Rattle.std.specs.Prelude.{◌≡◌, Some, [], map};
ghost use Rattle.dynamo_ser.specs.Datum as datum;
ghost use Rattle.dynamo_ser.specs.Writes.{Writes};
ghost use Rattle.dynamo_shape.specs.Conforms.{conforms};
ghost use Rattle.dynamo_shape.specs.Shape as shape;
ghost use Rattle.dynamo_record.specs.Enums.{enum_shape};
ghost use Rattle.dynamo_record.specs.Fields.{shapes_of, field_shapes, named_fields};
ghost use Rattle.dynamo_record.specs.Names.{first_name, names_from};
ghost use Rattle.dynamo_record.specs.Variants.{tag, content_at};

use crate::{Enumeration, NamedFields, RefList, Shaped};
use dynamo_ser::{Serialize, SerializeStructVariant, SerializeTupleVariant, Serializer};

/// The name with this index, or an empty one after the last.
fn name_at(names: &'static [&'static str], place: usize) -> &'static str
    ensures { result.now ≡ first_name (names_from place (map (λ n. n.now) names.now)) }
{
    match names.get(place) {
        Some(name) => *name,
        None => "",
    }
}

/// Writes the unit variant with this index.
///
/// # Errors
///
/// Returns the serializer's error.
pub fn write_unit<T: Enumeration, S: Serializer>(
    serializer: S,
    index: u32,
) -> Result<S::Ok, S::Error>
    ensures { S.outcome serializer (datum.unit_variant (tag T.about.name T.about.names index))
        result }
{
    let variant = name_at(T::names(), index as usize);
    serializer.serialize_unit_variant(T::name(), index, variant)
}

/// Writes the newtype variant with this index.
///
/// # Errors
///
/// Returns the error of the value, or the serializer's error.
pub fn write_one<T: Enumeration, V: Serialize, S: Serializer>(
    serializer: S,
    index: u32,
    value: &V,
) -> Result<S::Ok, S::Error>
    ensures { Writes S.Error.fault (V.wants value.now) (S.outcome serializer)
        (datum.newtype_variant (tag T.about.name T.about.names index) (V.tells value.now)) result }
{
    let variant = name_at(T::names(), index as usize);
    serializer.serialize_newtype_variant(T::name(), index, variant, value)
}

/// Writes the tuple variant with this index.
///
/// # Errors
///
/// Returns the first error of a field, or the serializer's error.
pub fn write_several<T: Enumeration, W: RefList, S: Serializer>(
    serializer: S,
    index: u32,
    fields: &W,
) -> Result<S::Ok, S::Error>
    ensures { S.outcome serializer
        (datum.tuple_variant (tag T.about.name T.about.names index)
        (datum.elements_of (W.told fields.now []))) result }
{
    let variant = name_at(T::names(), index as usize);
    let mut builder = serializer.serialize_tuple_variant(T::name(), index, variant, 0)?;
    fields.write_elements::<S, S::SerializeTupleVariant>(&mut builder)?;
    builder.end()
}

/// Writes the struct variant with this index.
///
/// # Errors
///
/// Returns the first error of a field, or the serializer's error.
pub fn write_struct<T: Enumeration, N: NamedFields, W: RefList, S: Serializer>(
    serializer: S,
    index: u32,
    fields: &W,
) -> Result<S::Ok, S::Error>
    ensures { S.outcome serializer
        (datum.struct_variant (tag T.about.name T.about.names index)
        (named_fields N.names (W.absences []) (W.told fields.now []))) result }
{
    let variant = name_at(T::names(), index as usize);
    let names = N::names();
    let mut builder = serializer.serialize_struct_variant(T::name(), index, variant, names.len())?;
    fields.write_fields::<S, S::SerializeStructVariant>(names, &mut builder)?;
    builder.end()
}

/// Promises that the unit variant with this index conforms to the enum's shape.
pub fn unit_conforms<T: Enumeration>(index: u32)
    requires { content_at index (T.about.list.contents []) ≡ Some shape.nothing }
    ensures { conforms (enum_shape T.about)
        (datum.unit_variant (tag T.about.name T.about.names index)) }
{}

/// Promises that the newtype variant with this index conforms to the enum's shape.
pub fn one_conforms<T: Enumeration, V: Shaped>(index: u32, value: &V)
    requires { content_at index (T.about.list.contents []) ≡ Some (shape.one V.about.shape) }
    ensures { conforms (enum_shape T.about)
        (datum.newtype_variant (tag T.about.name T.about.names index) (V.about.tells value.now)) }
{
    value.conforms();
}

/// Promises that the tuple variant with this index conforms to the enum's shape.
pub fn several_conform<T: Enumeration, W: RefList>(index: u32, fields: &W)
    requires { content_at index (T.about.list.contents [])
        ≡ Some (shape.several (shapes_of (W.shapes []))) }
    ensures { conforms (enum_shape T.about)
        (datum.tuple_variant (tag T.about.name T.about.names index)
        (datum.elements_of (W.told fields.now []))) }
{
    fields.conform();
}

/// Promises that the struct variant with this index conforms to the enum's shape.
pub fn named_conform<T: Enumeration, N: NamedFields, W: RefList>(index: u32, fields: &W)
    requires { content_at index (T.about.list.contents [])
        ≡ Some (shape.named (field_shapes N.names (W.shapes []) (N.Fields.about.defaults []))) }
    ensures { conforms (enum_shape T.about)
        (datum.struct_variant (tag T.about.name T.about.names index)
        (named_fields N.names (N.Fields.about.defaults []) (W.told fields.now []))) }
{
    fields.conform();
}
