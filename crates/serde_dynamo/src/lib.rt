//! Typed values as DynamoDB attribute values and items, and as DynamoDB JSON.
//!
//! [DynamoDB] is an AWS database of items: maps from attribute names to attribute values.
//! **serde_dynamo** converts between items and values of your own types. It is a port of the Rust
//! crate of this name, and each call is proved to do what its contract says.
//!
//! # Quick start
//!
//! A type that derives serde's traits is written and read by the crate `dynamo_serde`. `alloc` is
//! the allocator, from `rt.alloc()`.
//!
//! ```rust
//! use serde::{Deserialize, Serialize};
//! use serde_dynamo::AttributeValue;
//!
//! #[derive(Debug, Drop, Serialize, Deserialize)]
//! struct User {
//!     id: String,
//!     name: String,
//!     age: u8,
//! }
//!
//! let id = String::from_str(alloc, "fSsgVtal8TpP")?;
//! let name = String::from_str(alloc, "Arthur Dent")?;
//! let item = dynamo_serde::to_item(alloc, &User { id, name, age: 42 })?;
//! assert!(rt; matches!(item.get("age"), Some(AttributeValue::N(age)) if age.as_str() == "42"));
//!
//! let user: User = dynamo_serde::from_item(alloc, item)?;
//! assert_eq!(rt; user.age, 42);
//! ```
//!
//! # To and from items
//!
//! [`to_item`] writes a value as an item and [`to_attribute_value`] as an attribute value.
//! [`from_item`] and [`from_attribute_value`] read them, [`from_items`] reads a list of items, and
//! [`from_item_ref`] borrows its item. Writing takes every type that implements [`ser::Serialize`],
//! reading every type that implements [`de::Deserialize`]: those below and types of your own.
//!
//! ```rust
//! use serde_dynamo::samples::User;
//! use serde_dynamo::{Items, from_item_ref, from_items, to_item};
//!
//! let id = String::from_str(alloc, "fSsgVtal8TpP")?;
//! let name = String::from_str(alloc, "Arthur Dent")?;
//! let item = to_item(alloc, &User { id, name, age: 42 })?;
//! let user: User = from_item_ref(alloc, &item)?;
//! assert_eq!(rt; user.name.as_str(), "Arthur Dent");
//!
//! // A list of items, as a query returns it:
//! let items = Items::from(vec![in alloc; item.into_inner()]?);
//! let users: Vec<User> = from_items(alloc, items)?;
//! assert_eq!(rt; users.len(), 1);
//! ```
//!
//! | Rust | Attribute value |
//! |---|---|
//! | `bool` | `Bool` |
//! | `i8` to `i128`, `u8` to `u128` | `N` |
//! | `char`, `String`, [`Text`] | `S` |
//! | [`ByteBuf`], [`Bytes`] | `B` |
//! | `()`, `None` | `Null(true)` |
//! | `Some(content)`, `Box`, `&T` | the content |
//! | `Vec`, `BTreeSet`, `HashSet`, tuples of two to four | `L` |
//! | [`StringSet`], [`NumberSet`], [`BinarySet`] | `Ss`, `Ns`, `Bs` |
//! | `HashMap`, `BTreeMap`, structs | `M` |
//! | `serde_json::Value` without floats | its own kind |
//! | [`AttributeValue`], [`Item`] | its DynamoDB JSON, as an `M` |
//!
//! # Your own types
//!
//! | Way | What you write | What is proved |
//! |---|---|---|
//! | derive | `#[derive(Serialize, Deserialize)]` | each call returns and is safe |
//! | describe | what `dynamo_derive` prints for your declaration | what was stored reads back |
//! | by hand | `impl Serialize`, `impl Deserialize` | each does what you state of it |
//!
//! **Derive** for floats and for attributes that no description has, such as `flatten`. Such a type
//! is for the calls of `dynamo_serde`, which have the names of the calls here. What it writes and
//! reads is only tested.
//!
//! ```rust
//! use serde::{Deserialize, Serialize};
//! use serde_dynamo::DynamoJson;
//!
//! #[derive(Drop, Serialize, Deserialize)]
//! #[serde(rename_all = "camelCase")]
//! struct Reading {
//!     sensor_id: u32,
//!     celsius: f64,
//!     #[serde(skip_serializing_if = "Option::is_none")]
//!     note: Option<String>,
//! }
//!
//! let reading = Reading { sensor_id: 7, celsius: 21.5, note: None };
//! let item = dynamo_serde::to_item(alloc, &reading)?;
//! assert_eq!(
//!     rt;
//!     item.to_json_text(alloc)?.as_str(),
//!     r#"{"celsius":{"N":"21.5"},"sensorId":{"N":"7"}}"#
//! );
//! ```
//!
//! **Describe** a type to have the promise that its values read back, without a proof of your own.
//! The program `dynamo_derive` reads the declaration and prints the implementations. The documents
//! of `dynamo_record` show them for a struct, and [`samples`] has three such types. The promise is
//! [`reread`]'s, for shapes that are clear: `dynamo_shape` defines which are. One with an option in
//! an option isn't.
//!
//! ```rust
//! use serde_dynamo::samples::Event;
//! use serde_dynamo::{AttributeValue, reread};
//!
//! let event = Event::Structy { one: 1, two: 2 };
//! let (written, _json, back) = reread(alloc, &event)?;
//! assert!(rt; matches!(written, AttributeValue::M(_)));
//! assert_eq!(rt; back, event);
//! ```
//!
//! **By hand** as in serde, if a type is written in a way of its own. The ghost members say what
//! the implementation does, and the checker proves it.
//!
//! ```rust
//! ghost use Rattle.dynamo_de.specs.Answer.{Gives};
//! ghost use Rattle.dynamo_de.specs.Reading.{read_integer};
//! ghost use Rattle.dynamo_ser.specs.Datum as datum;
//! ghost use Rattle.dynamo_value.specs.Integer as integers;
//!
//! use serde_dynamo::de::{Deserialize, Deserializer};
//! use serde_dynamo::ser::{Serialize, Serializer};
//! use serde_dynamo::{from_attribute_value, to_attribute_value};
//! use std::alloc::Global;
//!
//! #[derive(Drop)]
//! struct Celsius(i16);
//!
//! impl Serialize for Celsius {
//!     ghost tells = { λ c. datum.integer datum.i16 c.0 };
//!
//!     fn serialize<S: Serializer>(&self, serializer: S) -> Result<S::Ok, S::Error> {
//!         serializer.serialize_i16(self.0)
//!     }
//! }
//!
//! impl Deserialize for Celsius {
//!     ghost reads = { λ s. Gives (λ c. c.0) (read_integer integers.i16 s) };
//!
//!     fn deserialize<D: Deserializer>(alloc: Global, from: D) -> Result<Celsius, D::Error> {
//!         Ok(Celsius(i16::deserialize(alloc, from)?))
//!     }
//! }
//!
//! let value = to_attribute_value(alloc, &Celsius(-40))?;
//! assert_eq!(rt; from_attribute_value::<Celsius>(alloc, value)?.0, -40);
//! ```
//!
//! # Sets
//!
//! A `Vec`, a `BTreeSet` and a `HashSet` are written as lists, the sets in ascending order. The
//! wrappers [`StringSet`], [`NumberSet`] and [`BinarySet`] write them as sets, and they read from a
//! set as from a list. A described field has the type `InStringSet<T>` of `dynamo_record` for a
//! `Vec<T>`, or `AsStringSet<BTreeSet<T>>` for a set, and so for numbers and byte strings. A
//! derived field says `#[serde(with = "dynamo_serde::string_set")]`, or `number_set` or
//! `binary_set`.
//!
//! ```rust
//! use serde_dynamo::{AttributeValue, NumberSet, to_attribute_value};
//!
//! let numbers = vec![in alloc; 3u8, 5]?;
//! let value = to_attribute_value(alloc, NumberSet(numbers))?;
//! assert!(rt; matches!(value, AttributeValue::Ns(_)));
//! ```
//!
//! # Bytes
//!
//! A `Vec<u8>` is written as a list of numbers, as in serde. [`ByteBuf`] and [`Bytes`] are byte
//! strings. A derived field says `#[serde(with = "dynamo_serde::bytes")]`.
//!
//! ```rust
//! use serde_dynamo::{AttributeValue, Bytes, to_attribute_value};
//!
//! let bytes = Vec::from_slice(alloc, &[1, 2])?;
//! assert!(rt; matches!(to_attribute_value(alloc, &bytes)?, AttributeValue::L(_)));
//! let bytes = Bytes::new(bytes.as_slice());
//! assert!(rt; matches!(to_attribute_value(alloc, &bytes)?, AttributeValue::B(_)));
//! ```
//!
//! # Enums
//!
//! A unit variant is the string of its name. Any other variant is a map of one entry, from its name
//! to its content. With `#[serde(tag = "..")]` a described or derived enum is the map of its
//! variant's fields, with the variant's name under the tag. Derived enums have serde's other forms,
//! too, by `content` and `untagged`.
//!
//! ```rust
//! use serde_dynamo::samples::Event;
//! use serde_dynamo::{DynamoJson, to_attribute_value};
//!
//! for (event, text) in [
//!     (Event::Unit, r#"{"S":"Unit"}"#),
//!     (Event::Newtype(7), r#"{"M":{"Newtype":{"N":"7"}}}"#),
//!     (Event::Tuple(7, 8), r#"{"M":{"Tuple":{"L":[{"N":"7"},{"N":"8"}]}}}"#),
//! ] {
//!     let value = to_attribute_value(alloc, &event)?;
//!     assert_eq!(rt; value.to_json_text(alloc)?.as_str(), text);
//! }
//! ```
//!
//! # Numbers
//!
//! DynamoDB sends numbers as strings, so [`AttributeValue::N`] holds a string. Reading it as an
//! integer fails if the type doesn't hold the number. Floats are only for derived types. To keep a
//! number that no type holds, keep its [`AttributeValue`].
//!
//! ```rust
//! use serde_dynamo::{AttributeValue, from_attribute_value};
//!
//! let value = AttributeValue::N(String::from_str(alloc, "256")?);
//! let Err(error) = from_attribute_value::<u8>(alloc, value) else {
//!     anyhow::bail!("no u8 is 256");
//! };
//! assert_eq!(
//!     rt;
//!     error.to_string(alloc)?.as_str(),
//!     "Failed to parse '256' as an integer: number too large to fit in target type"
//! );
//! ```
//!
//! # Errors
//!
//! Each call returns a [`Result`] with an [`Error`], whose [`kind`](Error::kind) is an
//! [`ErrorImpl`]. It prints its message, and `?` carries it into `anyhow::Error`, or into an error
//! of your own with a `From`. Reading a map returns the first error in the order of the bytes of
//! the keys.
//!
//! ```rust
//! use serde_dynamo::samples::User;
//! use serde_dynamo::{Item, from_item};
//!
//! let Err(error) = from_item::<User>(alloc, Item::new(alloc)) else {
//!     anyhow::bail!("an empty item is no user");
//! };
//! assert_eq!(rt; error.to_string(alloc)?.as_str(), "missing field `id`");
//! ```
//!
//! [`from_item_located`], [`to_item_located`] and their namesakes return an error with its
//! [`Place`], and are otherwise the same calls:
//!
//! ```rust
//! use serde_dynamo::samples::User;
//! use serde_dynamo::{DynamoJson, Item, from_item_located};
//!
//! let text = r#"{"id": {"S": "a"}, "name": {"S": "b"}, "age": {"S": "42"}}"#;
//! let item = Item::from_json_text(alloc, text)?;
//! let Err(error) = from_item_located::<User>(alloc, item) else {
//!     anyhow::bail!("an age isn't a string");
//! };
//! assert_eq!(rt; error.to_string(alloc)?.as_str(), "age: Expected num");
//! ```
//!
//! [`DynamoJsonLocated`] does the same when DynamoDB JSON is read:
//!
//! ```rust
//! use serde_dynamo::{DynamoJsonLocated, Item};
//!
//! let text = r#"{"id": {"S": "a"}, "tags": {"L": [{"S": "new"}, {"X": "hot"}]}}"#;
//! let Err(error) = Item::from_json_text_located(alloc, text) else {
//!     anyhow::bail!("X is no data type descriptor");
//! };
//! assert_eq!(
//!     rt;
//!     error.to_string(alloc)?.as_str(),
//!     "tags[1]: The key 'X' is not a known DynamoDB prefix"
//! );
//! ```
//!
//! # Out of memory
//!
//! If memory runs out, no call panics or aborts. A call that allocates takes the allocator and
//! returns [`ErrorImpl::OutOfMemory`]. A call of std returns an `AllocError`, which `?` turns into
//! the same, and so does `clone`.
//!
//! ```rust
//! use serde_dynamo::{Error, ErrorImpl};
//! use std::alloc::AllocError;
//!
//! let error = Error::from(AllocError);
//! assert!(rt; *error.kind() == ErrorImpl::OutOfMemory);
//! ```
//!
//! # JSON
//!
//! [`DynamoJson`] converts attribute values and items to and from DynamoDB JSON, as a
//! `serde_json::Value` or as text. [`to_json_value`] writes any value as plain JSON. A
//! `serde_json::Value` is a value as any other: it is written and read by the calls above, too.
//!
//! ```rust
//! use serde_dynamo::samples::User;
//! use serde_dynamo::{DynamoJson, Item, from_item, to_json_value};
//!
//! let text = r#"{"id": {"S": "a1"}, "name": {"S": "Ford"}, "age": {"N": "42"}}"#;
//! let user: User = from_item(alloc, Item::from_json_text(alloc, text)?)?;
//! let json = to_json_value(alloc, &user)?;
//! assert_eq!(rt; json.to_string(alloc)?.as_str(), r#"{"age":42,"id":"a1","name":"Ford"}"#);
//! ```
//!
//! For values without byte strings, sets and integers of more than 64 bits, writing directly gives
//! the same as writing through plain JSON: the law [`laws::square`].
//!
//! # Tables
//!
//! The crate `table_typed` has tables in memory of values of one type, for a service and its tests.
//! `table_typed_store` keeps the same in a database file. The key is one attribute of the item, or
//! two.
//!
//! ```rust
//! use serde::{Deserialize, Serialize};
//! use serde_dynamo::{Item, Result};
//! use std::alloc::{AllocError, Global};
//! use table_memory::{KeyAttribute, KeyKind, KeySchema};
//! use table_typed::{AsItem, Keyed, TypedTable};
//!
//! #[derive(Drop, Serialize, Deserialize)]
//! struct Room {
//!     number: u16,
//!     beds: u8,
//! }
//!
//! impl AsItem for Room {
//!     fn to_item(&self, alloc: Global) -> Result<Item> {
//!         dynamo_serde::to_item(alloc, self)
//!     }
//!
//!     fn read_item(alloc: Global, item: &Item) -> Result<Room> {
//!         dynamo_serde::read_item(alloc, item)
//!     }
//! }
//!
//! impl Keyed for Room {
//!     fn key_schema(alloc: Global) -> Result<KeySchema, AllocError> {
//!         let name = String::from_str(alloc, "number")?;
//!         let partition = KeyAttribute { name, kind: KeyKind::N };
//!         Ok(KeySchema { partition, sort: None })
//!     }
//! }
//!
//! let mut rooms = TypedTable::new(alloc)?;
//! let key = rooms.put(&Room { number: 101, beds: 2 })?;
//! assert!(rt; matches!(rooms.get(&key)?, Some(room) if room.beds == 2));
//! ```
//!
//! [DynamoDB]: https://aws.amazon.com/dynamodb/
#![tactic(auto)]

pub mod binary_set;
pub mod de;
pub mod laws;
pub mod number_set;
mod rereading;
pub mod samples;
pub mod ser;
pub mod string_set;

pub use dynamo_json::{
    DynamoJson, TextError, is_without_floats, to_attribute_value_via_json, to_json_value,
};
pub use dynamo_leaf::{
    DeserializerBytes, DeserializerMapKey, DeserializerNumber, DeserializerSeqBytes,
    DeserializerSeqNumbers, DeserializerSeqStrings, StringDeserializer, is_float_text,
};
pub use dynamo_place::{
    DynamoJsonLocated, LocatedError, Place, Step, from_attribute_value_located, from_item_located,
    from_item_ref_located, from_items_located, to_attribute_value_located, to_item_located,
};
pub use dynamo_read::{
    Deserializer, DeserializerEnum, DeserializerMap, DeserializerSeq, DeserializerVariant,
    LentDeserializer, from_attribute_value, from_item, from_item_ref, from_items,
};
pub use dynamo_record::{Shaped, ShapedKey};
pub use dynamo_ser::{BinarySet, NumberSet, StringSet};
pub use dynamo_value::{
    AttributeValue, ByteBuf, Bytes, Error, ErrorImpl, Item, Items, Result, Text,
};
pub use dynamo_write::{
    Serializer, SerializerMap, SerializerSeq, SerializerStruct, SerializerStructVariant,
    SerializerTupleVariant, to_attribute_value, to_item,
};
pub use rereading::{reread, reread_clear, stored};
