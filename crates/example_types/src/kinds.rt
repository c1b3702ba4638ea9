//! Types of the forms that a struct can have, written by hand as a user would write them.
ghost use Rattle.std.specs.Prelude.{codes, string_bytes};
ghost use Rattle.serde_dynamo.specs.Datum as datum;

use serde_dynamo::ser::{
    Serialize, SerializeMap, SerializeStruct, SerializeTupleStruct, Serializer,
};

/// `struct Empty {}`.
#[derive(Clone, Copy, PartialEq, Eq, Hash)]
pub struct Empty {}

impl Serialize for Empty {
    ghost tells = { λ _. datum.struct (codes "Empty") datum.no_fields };

    fn serialize<S: Serializer>(&self, serializer: S) -> Result<S::Ok, S::Error> {
        serializer.serialize_struct("Empty", 0)?.end()
    }
}

/// A value that writes as a map without entries.
#[derive(Clone, Copy, PartialEq, Eq, Hash)]
pub struct EmptyMap {}

impl Serialize for EmptyMap {
    ghost tells = { λ _. datum.map datum.no_pairs };

    fn serialize<S: Serializer>(&self, serializer: S) -> Result<S::Ok, S::Error> {
        serializer.serialize_map(Some(0))?.end()
    }
}

/// `struct Pair(String, String)`, a tuple struct.
#[derive(Drop, PartialEq, Eq, Hash)]
pub struct Pair(pub String, pub String);

impl Serialize for Pair {
    ghost tells = { λ p. datum.tuple_struct (codes "Pair")
        (datum.element (datum.string (string_bytes p.0))
        (datum.element (datum.string (string_bytes p.1)) datum.no_elements)) };

    fn serialize<S: Serializer>(&self, serializer: S) -> Result<S::Ok, S::Error> {
        let mut state = serializer.serialize_tuple_struct("Pair", 2)?;
        state.serialize_field(&self.0)?;
        state.serialize_field(&self.1)?;
        state.end()
    }
}

/// A struct that writes its field `a` twice.
#[derive(Drop)]
pub struct Twice<T, U> {
    /// The first value of the field.
    pub first: T,
    /// The second value of the field.
    pub second: U,
}

impl<T: Serialize, U: Serialize> Serialize for Twice<T, U> {
    ghost tells = { λ t. datum.struct (codes "Twice")
        (datum.field (codes "a") (T.tells t.first)
        (datum.field (codes "a") (U.tells t.second) datum.no_fields)) };

    fn serialize<S: Serializer>(&self, serializer: S) -> Result<S::Ok, S::Error> {
        let mut state = serializer.serialize_struct("Twice", 2)?;
        state.serialize_field("a", &self.first)?;
        state.serialize_field("a", &self.second)?;
        state.end()
    }
}
