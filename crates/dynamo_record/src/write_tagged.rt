ghost use Rattle.std.specs.Prelude.{◌≡◌, ◌<◌, [], map};
ghost use Rattle.dynamo_ser.specs.Datum as datum;
ghost use Rattle.dynamo_shape.specs.Conforms.{conforms, tagged_struct};
ghost use Rattle.dynamo_shape.specs.Shape.{no_field_shapes};
ghost use Rattle.dynamo_record.specs.Fields.{field_shapes, named_fields};
ghost use Rattle.dynamo_record.specs.TaggedEnums.{tagged_shape, tagged_structs};
ghost use Rattle.dynamo_record.specs.TaggedLists.{struct_at};
ghost use Rattle.dynamo_record.specs.UnitEnums.{name_at};

use crate::variant_names::name_at;
use crate::{NamedFields, Record, RefList, TaggedEnum};
use dynamo_ser::{SerializeStruct, Serializer};
use dynamo_value::Text;

/// Writes the struct of this name with the tag and these fields after it.
fn write_behind<T: TaggedEnum, W: RefList, S: Serializer>(
    serializer: S,
    index: u32,
    name: &'static str,
    names: &'static [&'static str],
    fields: &W,
) -> Result<S::Ok, S::Error>
    ensures { S.outcome serializer
        (tagged_struct T.about.tag (name_at T.about.names index) name.now
        (named_fields (map (λ n. n.now) names.now) (W.absences []) (W.told fields.now []))) result }
{
    let variant = name_at(T::names(), index as usize);
    let mut builder = serializer.serialize_struct(name, names.len() + 1)?;
    builder.serialize_field(T::tag(), &Text::new(variant))?;
    fields.write_fields::<S, S::SerializeStruct>(names, &mut builder)?;
    builder.end()
}

/// Writes the unit variant with this index of an internally tagged enum.
///
/// # Errors
///
/// Returns the serializer's error.
pub fn write_tagged_unit<T: TaggedEnum, S: Serializer>(
    serializer: S,
    index: u32,
) -> Result<S::Ok, S::Error>
    ensures { S.outcome serializer
        (tagged_struct T.about.tag (name_at T.about.names index) T.about.name datum.no_fields)
        result }
{
    let variant = name_at(T::names(), index as usize);
    let mut builder = serializer.serialize_struct(T::name(), 1)?;
    builder.serialize_field(T::tag(), &Text::new(variant))?;
    builder.end()
}

/// Writes the struct variant with this index of an internally tagged enum.
///
/// # Errors
///
/// Returns the first error of a field, or the serializer's error.
pub fn write_tagged_struct<T: TaggedEnum, N: NamedFields, W: RefList, S: Serializer>(
    serializer: S,
    index: u32,
    fields: &W,
) -> Result<S::Ok, S::Error>
    ensures { S.outcome serializer
        (tagged_struct T.about.tag (name_at T.about.names index) T.about.name
        (named_fields N.names (W.absences []) (W.told fields.now []))) result }
{
    write_behind::<T, W, S>(serializer, index, T::name(), N::names(), fields)
}

/// Writes the newtype variant with this index of an internally tagged enum: the struct in it, of
/// which these are the fields.
///
/// # Errors
///
/// Returns the first error of a field, or the serializer's error.
pub fn write_tagged_inner<T: TaggedEnum, R: Record, W: RefList, S: Serializer>(
    serializer: S,
    index: u32,
    fields: &W,
) -> Result<S::Ok, S::Error>
    ensures { S.outcome serializer
        (tagged_struct T.about.tag (name_at T.about.names index) R.about.name
        (named_fields R.about.names (W.absences []) (W.told fields.now []))) result }
{
    write_behind::<T, W, S>(serializer, index, R::name(), R::names(), fields)
}

/// Promises that the unit variant with this index conforms to the shape of the enum.
pub fn tagged_unit_conforms<T: TaggedEnum>(index: u32)
    requires { (index < T.about.list.count)
        × (struct_at index (tagged_structs T.about) ≡ (T.about.name, no_field_shapes)) }
    ensures { conforms (tagged_shape T.about)
        (tagged_struct T.about.tag (name_at T.about.names index) T.about.name datum.no_fields) }
{}

/// Promises that the struct variant with this index conforms to the shape of the enum.
pub fn tagged_struct_conforms<T: TaggedEnum, N: NamedFields, W: RefList>(index: u32, fields: &W)
    requires { (index < T.about.list.count)
        × (struct_at index (tagged_structs T.about)
        ≡ (T.about.name, field_shapes N.names (W.shapes []) (N.Fields.about.defaults []))) }
    ensures { conforms (tagged_shape T.about)
        (tagged_struct T.about.tag (name_at T.about.names index) T.about.name
        (named_fields N.names (N.Fields.about.defaults []) (W.told fields.now []))) }
{
    fields.conform();
}

/// Promises that the newtype variant with this index conforms to the shape of the enum.
pub fn tagged_inner_conforms<T: TaggedEnum, R: Record, W: RefList>(index: u32, fields: &W)
    requires { (index < T.about.list.count)
        × (struct_at index (tagged_structs T.about)
        ≡ (R.about.name, field_shapes R.about.names (W.shapes []) (R.about.list.defaults []))) }
    ensures { conforms (tagged_shape T.about)
        (tagged_struct T.about.tag (name_at T.about.names index) R.about.name
        (named_fields R.about.names (R.about.list.defaults []) (W.told fields.now []))) }
{
    fields.conform();
}
