//! The traits of writing, as serde's `ser`. They have a module of their own, since `Serializer` and
//! `Error` are also the names of types.

pub use dynamo_ser::{
    Error, Integer, IntegerKind, ListBuilder, Outcomes, Serialize, SerializeMap, SerializeSeq,
    SerializeStruct, SerializeStructVariant, SerializeTuple, SerializeTupleStruct,
    SerializeTupleVariant, Serializer, StructBuilder, Wrapper,
};
