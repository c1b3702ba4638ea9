ghost use Rattle.std.specs.Prelude.{◌≡◌, MatchResult};
ghost use Rattle.dynamo_value.specs.Av as av;
ghost use Rattle.dynamo_value.specs.Fault.{out_of_memory};
ghost use Rattle.dynamo_value.specs.Kind.{fault_of};
ghost use Rattle.dynamo_value.specs.View.{view};
ghost use Rattle.dynamo_write.specs.Answers.{AnswersDatum, refused};
ghost use Rattle.dynamo_write.specs.Held.{allocator_of};

use crate::{
    SerializerMap, SerializerSeq, SerializerStruct, SerializerStructVariant,
    SerializerTupleVariant, Target, set,
};
use dynamo_ser::{Outcomes, Wrapper};
use dynamo_value::{AttributeValue, Error, Integer, Result};
use std::alloc::Global;

/// The serializer of attribute values.
///
/// | Data | Attribute value |
/// |---|---|
/// | `bool` | `Bool` |
/// | integers | `N` |
/// | `char`, strings, unit variants | `S` |
/// | byte strings | `B` |
/// | `None`, `()`, unit structs | `Null(true)` |
/// | `Some(content)`, newtype structs | the content |
/// | sequences, tuples, tuple structs | `L` |
/// | newtype structs of a set's symbol | `Ss`, `Ns` or `Bs` |
/// | maps, structs | `M` |
/// | other variants | `M` of one entry, from the variant's name to its content |
///
/// [`to_attribute_value`](crate::to_attribute_value) lists the errors.
///
/// # Examples
///
/// ```rust
/// use serde_dynamo::ser::Serialize;
/// use serde_dynamo::{AttributeValue, Serializer};
///
/// let value = true.serialize(Serializer::new(alloc))?;
/// assert_eq!(rt; value, AttributeValue::Bool(true));
/// ```
#[derive(Clone, Copy)]
pub struct Serializer {
    alloc: Global,
}

impl Serializer {
    /// Returns the serializer whose attribute values are allocated in `alloc`.
    pub fn new(alloc: Global) -> Serializer
        ensures { allocator_of result ≡ alloc }
    {
        Serializer { alloc }
    }

    // A string.
    fn string(self, text: &str) -> Result<AttributeValue>
        ensures { MatchResult result (λ a. view a ≡ av.S text.now)
            (λ e. fault_of e ≡ out_of_memory) }
    {
        Ok(AttributeValue::S(String::from_str(self.alloc, text)?))
    }
}

impl Outcomes for Serializer {
    type Ok = AttributeValue;

    type Error = Error;

    ghost outcome = { λ s d r. AnswersDatum d r };

    ghost refusal = { λ s text e is. refused text e is };

    fn alloc(&self) -> Global {
        self.alloc
    }
}

impl dynamo_ser::Serializer for Serializer {
    type SerializeSeq = SerializerSeq;

    type SerializeTuple = SerializerSeq;

    type SerializeTupleStruct = SerializerSeq;

    type SerializeTupleVariant = SerializerTupleVariant<'static>;

    type SerializeMap = SerializerMap;

    type SerializeStruct = SerializerStruct;

    type SerializeStructVariant = SerializerStructVariant<'static>;

    ghost content = { λ s w. s };

    fn content_serializer(&self, _wrapper: Wrapper) -> Result<Serializer> {
        Ok(*self)
    }

    fn wrap(self, wrapper: Wrapper, written: AttributeValue) -> Result<AttributeValue> {
        match wrapper {
            Wrapper::Option => Ok(written),
            Wrapper::NewtypeStruct(name) => set::named(self.alloc, name, written),
            Wrapper::NewtypeVariant(_, _, variant) => {
                Serializer::one_member(self.alloc, variant, written)
            }
        }
    }

    fn serialize_bool(self, v: bool) -> Result<AttributeValue> {
        Ok(AttributeValue::Bool(v))
    }

    fn serialize_integer(self, v: Integer) -> Result<AttributeValue> {
        Ok(AttributeValue::N(v.decimal(self.alloc)?))
    }

    fn serialize_char(self, v: char) -> Result<AttributeValue> {
        Ok(AttributeValue::S(v.to_string(self.alloc)?))
    }

    fn serialize_str(self, v: &str) -> Result<AttributeValue> {
        self.string(v)
    }

    fn serialize_bytes(self, v: &[u8]) -> Result<AttributeValue> {
        Ok(AttributeValue::B(v.to_vec(self.alloc)?))
    }

    fn serialize_none(self) -> Result<AttributeValue> {
        Ok(AttributeValue::Null(true))
    }

    fn serialize_unit(self) -> Result<AttributeValue> {
        Ok(AttributeValue::Null(true))
    }

    fn serialize_unit_struct(self, _name: &'static str) -> Result<AttributeValue> {
        Ok(AttributeValue::Null(true))
    }

    fn serialize_unit_variant(
        self,
        _name: &'static str,
        _index: u32,
        variant: &'static str,
    ) -> Result<AttributeValue> {
        self.string(variant)
    }

    fn serialize_seq(self, len: Option<usize>) -> Result<SerializerSeq> {
        Ok(SerializerSeq::new(self.alloc, len))
    }

    fn serialize_tuple(self, len: usize) -> Result<SerializerSeq> {
        Ok(SerializerSeq::new(self.alloc, Some(len)))
    }

    fn serialize_tuple_struct(self, _name: &'static str, len: usize) -> Result<SerializerSeq> {
        Ok(SerializerSeq::new(self.alloc, Some(len)))
    }

    fn serialize_tuple_variant(
        self,
        _name: &'static str,
        _index: u32,
        variant: &'static str,
        len: usize,
    ) -> Result<SerializerTupleVariant<'static>> {
        Ok(SerializerTupleVariant::new(self.alloc, variant, len))
    }

    fn serialize_map(self, len: Option<usize>) -> Result<SerializerMap> {
        Ok(SerializerMap::new(self.alloc, len))
    }

    fn serialize_struct(self, _name: &'static str, len: usize) -> Result<SerializerStruct> {
        Ok(SerializerStruct::new(self.alloc, len))
    }

    fn serialize_struct_variant(
        self,
        _name: &'static str,
        _index: u32,
        variant: &'static str,
        len: usize,
    ) -> Result<SerializerStructVariant<'static>> {
        Ok(SerializerStructVariant::new(self.alloc, variant, len))
    }
}
