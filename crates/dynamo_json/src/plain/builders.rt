ghost use Rattle.std.specs.Prelude.{◌≡◌};
ghost use Rattle.serde_json.specs.Data as json;
ghost use Rattle.serde_json.specs.View.{view};
ghost use Rattle.dynamo_write.specs.Held.{held_entries};
ghost use Rattle.dynamo_write.specs.Target.{parts_before};
ghost use Rattle.dynamo_json.specs.Plain.{members_of};
ghost use Rattle.dynamo_json.specs.PlainValues.{plain_values, answers, refuses};

use super::serializer::Serializer;
use dynamo_value::{Error, Result};
use dynamo_write::{ListOf, MapOf, StructOf, StructVariantOf, Target, TupleVariantOf};
use serde_json::{Map, Value};
use std::alloc::Global;

/// The builder of an array, for sequences, tuples and tuple structs.
pub type SerializerSeq = ListOf<Serializer>;

/// The builder of a map's object.
pub type SerializerMap = MapOf<Serializer>;

/// The builder of a struct's object.
pub type SerializerStruct = StructOf<Serializer>;

/// The builder of a tuple variant: an object of one member, from the variant's name to an array.
pub type SerializerTupleVariant<'a> = TupleVariantOf<'a, Serializer>;

/// The builder of a struct variant: an object of one member, from the variant's name to the object
/// of its fields.
pub type SerializerStructVariant<'a> = StructVariantOf<'a, Serializer>;

impl Target for Serializer {
    type Map = Map<String, Value>;

    ghost about = { plain_values };

    ghost members = { λ m. held_entries view m.entries };

    ghost over = { λ alloc. record { alloc = alloc } };

    ghost answers = { λ s d v is. answers d v is };

    ghost refuses = { λ s d e is. refuses d e is };

    fn over(alloc: Global) -> Serializer {
        Serializer::new(alloc)
    }

    fn kept(value: Value) -> Value {
        value
    }

    fn list(values: Vec<Value>) -> Value
        ensures { view result ≡ json.array (parts_before plain_values values.items json.no_items) }
    {
        Value::Array(values)
    }

    fn no_members(alloc: Global) -> Map<String, Value> {
        Map::new(alloc)
    }

    fn insert(map: &mut Map<String, Value>, key: String, value: Value) -> Result<()> {
        match map.insert(key, value) {
            Ok(_) => Ok(()),
            Err(error) => Err(Error::from(error)),
        }
    }

    fn map(map: Map<String, Value>) -> Value
        ensures { view result ≡ json.object (members_of (held_entries view map.entries)) }
    {
        Value::Object(map)
    }
}
