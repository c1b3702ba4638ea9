ghost use Rattle.std.specs.Prelude.{◌≡◌, Ok, IsErr, MatchResult, option_map, string_bytes};
ghost use Rattle.dynamo_value.specs.Fault.{out_of_memory};
ghost use Rattle.dynamo_value.specs.Kind.{fault_of};
ghost use Rattle.dynamo_ser.specs.Writes.{WritesKey, refused_key};

use crate::{
    ListBuilder, Outcomes, SerializeMap, SerializeSeq, SerializeStruct, SerializeStructVariant,
    SerializeTuple, SerializeTupleStruct, SerializeTupleVariant, Serializer, StructBuilder,
    Wrapper,
};
use dynamo_value::{Error, ErrorImpl, Integer, Result};
use std::alloc::{AllocError, Global};

/// The serializer of map keys: it writes a key as a string, and refuses any other with
/// [`ErrorImpl::KeyMustBeAString`].
#[derive(Clone, Copy)]
pub struct MapKeySerializer {
    alloc: Global,
}

impl MapKeySerializer {
    /// Returns the serializer.
    pub fn new(alloc: Global) -> MapKeySerializer {
        MapKeySerializer { alloc }
    }
}

// The error for a key that isn't written as a string.
fn no_key() -> Error
    ensures { result ≡ ErrorImpl.KeyMustBeAString }
{
    Error::from(ErrorImpl::KeyMustBeAString)
}

// A key that is written, or the error for out of memory.
fn written(text: Result<String, AllocError>) -> Result<String>
    ensures { MatchResult result (λ key. text ≡ Ok key) (λ e. fault_of e ≡ out_of_memory) }
{
    Ok(text?)
}

impl Outcomes for MapKeySerializer {
    type Ok = String;

    type Error = Error;

    ghost outcome = { λ s d r. WritesKey d r };

    ghost refusal = { λ s text e h. refused_key text e h };

    fn alloc(&self) -> Global {
        self.alloc
    }
}

impl Serializer for MapKeySerializer {
    type SerializeSeq = NoKey;

    type SerializeTuple = NoKey;

    type SerializeTupleStruct = NoKey;

    type SerializeTupleVariant = NoKey;

    type SerializeMap = NoKey;

    type SerializeStruct = NoKey;

    type SerializeStructVariant = NoKey;

    ghost content = { λ s w. s };

    fn content_serializer(&self, wrapper: Wrapper) -> Result<MapKeySerializer> {
        match wrapper {
            Wrapper::NewtypeStruct(_) => Ok(*self),
            _ => Err(no_key()),
        }
    }

    fn wrap(self, wrapper: Wrapper, written: String) -> Result<String> {
        match wrapper {
            Wrapper::NewtypeStruct(_) => Ok(written),
            _ => Err(no_key()),
        }
    }

    fn serialize_bool(self, v: bool) -> Result<String> {
        let text = if v { "true" } else { "false" };
        written(String::from_str(self.alloc, text))
    }

    fn serialize_integer(self, v: Integer) -> Result<String> {
        written(v.decimal(self.alloc))
    }

    fn serialize_char(self, v: char) -> Result<String> {
        written(v.to_string(self.alloc))
    }

    fn serialize_str(self, v: &str) -> Result<String> {
        written(String::from_str(self.alloc, v))
    }

    fn serialize_bytes(self, _v: &[u8]) -> Result<String> {
        Err(no_key())
    }

    fn serialize_none(self) -> Result<String> {
        Err(no_key())
    }

    fn serialize_unit(self) -> Result<String> {
        Err(no_key())
    }

    fn serialize_unit_struct(self, _name: &'static str) -> Result<String> {
        Err(no_key())
    }

    fn serialize_unit_variant(
        self,
        _name: &'static str,
        _index: u32,
        variant: &'static str,
    ) -> Result<String> {
        written(String::from_str(self.alloc, variant))
    }

    fn serialize_seq(self, _len: Option<usize>) -> Result<NoKey> {
        Err(no_key())
    }

    fn serialize_tuple(self, _len: usize) -> Result<NoKey> {
        Err(no_key())
    }

    fn serialize_tuple_struct(self, _name: &'static str, _len: usize) -> Result<NoKey> {
        Err(no_key())
    }

    fn serialize_tuple_variant(
        self,
        _name: &'static str,
        _index: u32,
        _variant: &'static str,
        _len: usize,
    ) -> Result<NoKey> {
        Err(no_key())
    }

    fn serialize_map(self, _len: Option<usize>) -> Result<NoKey> {
        Err(no_key())
    }

    fn serialize_struct(self, _name: &'static str, _len: usize) -> Result<NoKey> {
        Err(no_key())
    }

    fn serialize_struct_variant(
        self,
        _name: &'static str,
        _index: u32,
        _variant: &'static str,
        _len: usize,
    ) -> Result<NoKey> {
        Err(no_key())
    }
}

/// The builder of what can't be a key. The serializer never returns one. If one is made, it refuses
/// all that it is given.
#[derive(Drop)]
pub struct NoKey {
    alloc: Global,
    next_key: Option<String>,
}

impl ListBuilder<MapKeySerializer> for NoKey {
    type Ok = String;

    type Error = Error;

    ghost gives = { λ b pieces r. IsErr r };

    ghost writer = { λ b. record { alloc = b.alloc } };

    fn element_serializer(&self) -> MapKeySerializer {
        MapKeySerializer { alloc: self.alloc }
    }

    fn push_element(&mut self, _written: String) -> Result<()> {
        Err(no_key())
    }

    fn finish(self) -> Result<String> {
        Err(no_key())
    }
}

impl SerializeSeq<MapKeySerializer> for NoKey {}

impl SerializeTuple<MapKeySerializer> for NoKey {}

impl SerializeTupleStruct<MapKeySerializer> for NoKey {}

impl SerializeTupleVariant<MapKeySerializer> for NoKey {}

impl SerializeMap<MapKeySerializer> for NoKey {
    type Ok = String;

    type Error = Error;

    ghost gives = { λ b pieces r. IsErr r };

    ghost pending = { λ b. option_map string_bytes b.next_key };

    ghost writer = { λ b. record { alloc = b.alloc } };

    fn alloc(&self) -> Global {
        self.alloc
    }

    fn refused(&self, error: Error) -> Error {
        error
    }

    fn has_key(&self) -> bool {
        self.next_key.is_some()
    }

    fn set_key(&mut self, key: String) {
        self.next_key = Some(key);
    }

    fn take_key(&mut self) -> Option<String> {
        self.next_key.take()
    }

    fn value_serializer(&self) -> MapKeySerializer {
        MapKeySerializer { alloc: self.alloc }
    }

    fn push_entry(&mut self, _key: String, _written: String) -> Result<()> {
        Err(no_key())
    }

    fn end(self) -> Result<String> {
        Err(no_key())
    }
}

impl StructBuilder<MapKeySerializer> for NoKey {
    type Ok = String;

    type Error = Error;

    ghost gives = { λ b pieces r. IsErr r };

    ghost writer = { λ b. record { alloc = b.alloc } };

    fn field_serializer(&self) -> MapKeySerializer {
        MapKeySerializer { alloc: self.alloc }
    }

    fn push_field(&mut self, _key: &'static str, _written: String) -> Result<()> {
        Err(no_key())
    }

    fn finish(self) -> Result<String> {
        Err(no_key())
    }
}

impl SerializeStruct<MapKeySerializer> for NoKey {}

impl SerializeStructVariant<MapKeySerializer> for NoKey {}
