//! The traits of reading, as serde's `de`. They have a module of their own, since `Deserializer`
//! and `Error` are also the names of types.

pub use dynamo_de::{
    Deserialize, DeserializeSeed, Deserializer, EnumAccess, Error, IgnoredAny, Inside, Integer,
    IntegerKind, Kind, MapAccess, Reader, ReaderEnumAccess, ReaderMapAccess, ReaderSeqAccess,
    ReaderVariantAccess, Request, SeqAccess, Showing, Surface, TypeSeed, VariantAccess, Visitor,
    elements_of, entries_of, identifier_of, invalid_type,
};
