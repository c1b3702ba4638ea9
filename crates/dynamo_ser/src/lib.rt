//! The writing side of serde's data model.
//!
//! To write values of a type, implement [`Serialize`] with the calls of [`Serializer`] and its
//! seven builders, as in serde. To write a serializer, implement [`Outcomes`], the calls of
//! [`Serializer`] for scalars, and the few methods of [`ListBuilder`], [`SerializeMap`] and
//! [`StructBuilder`]. The calls that take a `&T` come with them.
//!
//! These types are written here: booleans, integers, `char`, `String`, `Text`, `Bytes`, `ByteBuf`,
//! options, boxes, references, `Vec`, tuples of two to four elements, `HashMap`, `BTreeMap`,
//! `HashSet` and `BTreeSet`. A list is written as one of DynamoDB's sets by [`string_set`],
//! [`number_set`] and [`binary_set`], or by the wrappers [`StringSet`], [`NumberSet`] and
//! [`BinarySet`].
//!
//! A `serde_json::Value` is written as serde_json does: null as a unit, a whole number as a `u64`,
//! or as an `i64` if it is negative, an array as a sequence, an object as a map in the order of its
//! keys. This data model has no floats, so a float is refused with the message
//! `JSON floats are not supported`.
//!
//! An `AttributeValue` is written as its DynamoDB JSON: a map of one entry, whose key is the prefix
//! of its kind, as in `{"S": "Hello"}`. A number is written as its string, a byte string as its
//! base64 string, a set as a sequence. An `Item` is written as the map of its attributes.
#![tactic(auto)]

pub mod binary_set;
mod impls;
mod list_builder;
mod map_key;
pub mod number_set;
mod outcomes;
mod serialize;
mod serialize_map;
mod serializer;
pub mod string_set;
mod struct_builder;

pub use binary_set::BinarySet;
pub use dynamo_value::serde_error::Error;
pub use dynamo_value::{Integer, IntegerKind};
pub use list_builder::{
    ListBuilder, SerializeSeq, SerializeTuple, SerializeTupleStruct, SerializeTupleVariant,
};
pub use number_set::NumberSet;
pub use outcomes::Outcomes;
pub use serialize::Serialize;
pub use serialize_map::SerializeMap;
pub use serializer::{Serializer, Wrapper};
pub use string_set::StringSet;
pub use struct_builder::{SerializeStruct, SerializeStructVariant, StructBuilder};
