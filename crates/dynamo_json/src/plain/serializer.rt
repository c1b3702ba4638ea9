ghost use Rattle.std.specs.Prelude.{MatchResult, ◌≡◌, map};
ghost use Rattle.serde_json.specs.Data as json;
ghost use Rattle.serde_json.specs.View.{view, items_of};
ghost use Rattle.dynamo_value.specs.Fault.{out_of_memory};
ghost use Rattle.dynamo_value.specs.Kind.{fault_of};
ghost use Rattle.dynamo_json.specs.Plain.{byte_number};
ghost use Rattle.dynamo_json.specs.PlainAnswers.{AnswersPlain, refused};

use super::builders::{
    SerializerMap, SerializerSeq, SerializerStruct, SerializerStructVariant, SerializerTupleVariant,
};
use super::numbers;
use dynamo_ser::{Outcomes, Wrapper};
use dynamo_value::{Error, Integer, Result};
use dynamo_write::Target;
use serde_json::Value;
use std::alloc::Global;

/// The serializer of plain JSON.
#[derive(Clone, Copy)]
pub struct Serializer {
    alloc: Global,
}

impl Serializer {
    /// Returns the serializer whose JSON values are allocated in `alloc`.
    pub fn new(alloc: Global) -> Serializer
        ensures { result.alloc ≡ alloc }
    {
        Serializer { alloc }
    }

    fn string(self, text: &str) -> Result<Value>
        ensures { MatchResult result (λ v. view v ≡ json.string text.now)
            (λ e. fault_of e ≡ out_of_memory) }
    {
        Ok(Value::String(String::from_str(self.alloc, text)?))
    }

    // The array of the bytes' numbers.
    fn numbers(self, bytes: &[u8]) -> Result<Value>
        ensures { MatchResult result
            (λ v. view v ≡ json.array (items_of (map byte_number bytes.now)))
            (λ e. fault_of e ≡ out_of_memory) }
    {
        let mut numbers = Vec::with_capacity(self.alloc, bytes.len())?;
        for byte in bytes {
            numbers.push(Value::from(*byte))?;
        }
        Ok(Value::Array(numbers))
    }
}

impl Outcomes for Serializer {
    type Ok = Value;

    type Error = Error;

    ghost outcome = { λ s d r. AnswersPlain d r };

    ghost refusal = { λ s text e is. refused text e is };

    fn alloc(&self) -> Global {
        self.alloc
    }
}

impl dynamo_ser::Serializer for Serializer {
    type SerializeSeq = SerializerSeq;

    type SerializeTuple = SerializerSeq;

    type SerializeTupleStruct = SerializerSeq;

    type SerializeTupleVariant = SerializerTupleVariant<'static>;

    type SerializeMap = SerializerMap;

    type SerializeStruct = SerializerStruct;

    type SerializeStructVariant = SerializerStructVariant<'static>;

    ghost content = { λ s w. s };

    fn content_serializer(&self, _wrapper: Wrapper) -> Result<Serializer> {
        Ok(*self)
    }

    fn wrap(self, wrapper: Wrapper, written: Value) -> Result<Value> {
        match wrapper {
            Wrapper::Option => Ok(written),
            Wrapper::NewtypeStruct(_) => Ok(written),
            Wrapper::NewtypeVariant(_, _, variant) => {
                Serializer::one_member(self.alloc, variant, written)
            }
        }
    }

    fn serialize_bool(self, v: bool) -> Result<Value> {
        Ok(Value::Bool(v))
    }

    fn serialize_integer(self, v: Integer) -> Result<Value> {
        match v {
            Integer::I8(v) => Ok(numbers::signed(i64::from(v))),
            Integer::I16(v) => Ok(numbers::signed(i64::from(v))),
            Integer::I32(v) => Ok(numbers::signed(i64::from(v))),
            Integer::I64(v) => Ok(numbers::signed(v)),
            Integer::I128(v) => numbers::wide_signed(self.alloc, v),
            Integer::U8(v) => Ok(numbers::unsigned(u64::from(v))),
            Integer::U16(v) => Ok(numbers::unsigned(u64::from(v))),
            Integer::U32(v) => Ok(numbers::unsigned(u64::from(v))),
            Integer::U64(v) => Ok(numbers::unsigned(v)),
            Integer::U128(v) => numbers::wide_unsigned(self.alloc, v),
        }
    }

    fn serialize_char(self, v: char) -> Result<Value> {
        Ok(Value::String(v.to_string(self.alloc)?))
    }

    fn serialize_str(self, v: &str) -> Result<Value> {
        self.string(v)
    }

    fn serialize_bytes(self, v: &[u8]) -> Result<Value> {
        self.numbers(v)
    }

    fn serialize_none(self) -> Result<Value> {
        Ok(Value::Null)
    }

    fn serialize_unit(self) -> Result<Value> {
        Ok(Value::Null)
    }

    fn serialize_unit_struct(self, _name: &'static str) -> Result<Value> {
        Ok(Value::Null)
    }

    fn serialize_unit_variant(
        self,
        _name: &'static str,
        _index: u32,
        variant: &'static str,
    ) -> Result<Value> {
        self.string(variant)
    }

    fn serialize_seq(self, len: Option<usize>) -> Result<SerializerSeq> {
        Ok(SerializerSeq::new(self.alloc, len))
    }

    fn serialize_tuple(self, len: usize) -> Result<SerializerSeq> {
        Ok(SerializerSeq::new(self.alloc, Some(len)))
    }

    fn serialize_tuple_struct(self, _name: &'static str, len: usize) -> Result<SerializerSeq> {
        Ok(SerializerSeq::new(self.alloc, Some(len)))
    }

    fn serialize_tuple_variant(
        self,
        _name: &'static str,
        _index: u32,
        variant: &'static str,
        len: usize,
    ) -> Result<SerializerTupleVariant<'static>> {
        Ok(SerializerTupleVariant::new(self.alloc, variant, len))
    }

    fn serialize_map(self, len: Option<usize>) -> Result<SerializerMap> {
        Ok(SerializerMap::new(self.alloc, len))
    }

    fn serialize_struct(self, _name: &'static str, len: usize) -> Result<SerializerStruct> {
        Ok(SerializerStruct::new(self.alloc, len))
    }

    fn serialize_struct_variant(
        self,
        _name: &'static str,
        _index: u32,
        variant: &'static str,
        len: usize,
    ) -> Result<SerializerStructVariant<'static>> {
        Ok(SerializerStructVariant::new(self.alloc, variant, len))
    }
}
