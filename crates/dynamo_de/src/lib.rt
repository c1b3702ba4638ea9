//! The reading side of serde's data model.
//!
//! To read values of a type, implement [`Deserialize`] with the requests of [`Deserializer`], a
//! [`Visitor`] and the four accesses, as in serde. To write a deserializer, implement [`Reader`],
//! whose methods know nothing of visitors. The requests of [`Deserializer`] come with them.
//!
//! A `serde_json::Value` reads all data that JSON has: a unit and `None` as null, whole numbers of
//! 64 bits, a map as an object. Any other number, a float among them, and a byte string are refused
//! with a message.
//!
//! An `AttributeValue` reads its DynamoDB JSON: a map of one entry, whose key is the prefix of its
//! kind, as in `{"S": "Hello"}`. An `Item` reads a map of these. Data of any other form is refused
//! with the messages of DynamoDB JSON. For a map with several entries the message is the one for
//! several keys, or that of an entry that is wrong by itself: which one isn't promised.
#![tactic(auto)]

mod access;
mod deserialize;
mod deserializer;
mod ignored_any;
mod impls;
mod kind;
mod number_text;
mod reader;
mod reader_access;
mod request;
pub mod set;
mod showing;
mod taken;
mod visitor;

pub use access::{EnumAccess, MapAccess, SeqAccess, VariantAccess};
pub use deserialize::{Deserialize, DeserializeSeed, TypeSeed};
pub use deserializer::Deserializer;
pub use dynamo_value::serde_error::Error;
pub use dynamo_value::{Integer, IntegerKind};
pub use ignored_any::IgnoredAny;
pub use kind::Kind;
pub use number_text::{is_float_text, parse_i64, parse_u64, read_integer};
pub use reader::Reader;
pub use reader_access::{ReaderEnumAccess, ReaderMapAccess, ReaderSeqAccess, ReaderVariantAccess};
pub use request::Request;
pub use showing::{Inside, Showing, Surface};
pub use taken::{elements_of, entries_of, identifier_of, invalid_type};
pub use visitor::Visitor;
