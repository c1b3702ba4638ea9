ghost use Rattle.std.specs.Prelude.{◌≡◌, Result, Ok, MatchResult, pos, None};
ghost use Rattle.dynamo_value.specs.IntegerTypes.{kind_of, number_of, type_of};
ghost use Rattle.dynamo_ser.specs.Datum as datum;
ghost use Rattle.dynamo_ser.specs.Datum.{Datum, variant};
ghost use Rattle.dynamo_ser.specs.Pieces.{Begins, BeginsContent};
ghost use Rattle.dynamo_ser.specs.Wrapped.{wrapped};
ghost use Rattle.dynamo_ser.specs.Writes.{Writes};

use crate::{
    Outcomes, Serialize, SerializeMap, SerializeSeq, SerializeStruct, SerializeStructVariant,
    SerializeTuple, SerializeTupleStruct, SerializeTupleVariant,
};
use dynamo_value::Integer;

/// What wraps a content.
#[derive(Clone, Copy)]
pub enum Wrapper {
    /// `Some(content)`.
    Option,

    /// `struct Name(content)`: the struct's name.
    NewtypeStruct(&'static str),

    /// `Variant(content)` of an enum: the enum's name, the variant's index and the variant's name.
    NewtypeVariant(&'static str, u32, &'static str),
}

/// A serializer, as serde's: it takes a value of serde's data model, with one call for each kind.
///
/// Names and indices are those of the declaration. A length is a hint: it need not be the number of
/// elements that follow. Which values are refused, and with which errors, is for each serializer to
/// say: `dynamo_write::Serializer` says it for attribute values.
pub trait Serializer: Outcomes {
    ghost use Rattle.dynamo_ser.specs.declared.serializer.Wrapper.{Wrapper};

    /// The builder of sequences.
    type SerializeSeq: SerializeSeq<Self, Ok = Self::Ok, Error = Self::Error>;

    /// The builder of tuples.
    type SerializeTuple: SerializeTuple<Self, Ok = Self::Ok, Error = Self::Error>;

    /// The builder of tuple structs.
    type SerializeTupleStruct: SerializeTupleStruct<Self, Ok = Self::Ok, Error = Self::Error>;

    /// The builder of tuple variants.
    type SerializeTupleVariant: SerializeTupleVariant<Self, Ok = Self::Ok, Error = Self::Error>;

    /// The builder of maps.
    type SerializeMap: SerializeMap<Self, Ok = Self::Ok, Error = Self::Error>;

    /// The builder of structs.
    type SerializeStruct: SerializeStruct<Self, Ok = Self::Ok, Error = Self::Error>;

    /// The builder of struct variants.
    type SerializeStructVariant: SerializeStructVariant<Self, Ok = Self::Ok, Error = Self::Error>;

    // The serializer of a content.
    ghost content: { Self → Wrapper → Self };

    /// Returns the serializer of a content, for [`serialize_some`](Self::serialize_some) and the
    /// two newtype calls.
    ///
    /// # Errors
    ///
    /// Returns an error if the serializer refuses every value with this wrapper, or if memory runs
    /// out.
    fn content_serializer(&self, wrapper: Wrapper) -> Result<Self, Self::Error>
        ensures { BeginsContent Self.outcome (wrapped wrapper) (content self.now wrapper) self.now
            result };

    /// Returns the result of the wrapper, given what was written for its content.
    ///
    /// # Errors
    ///
    /// Returns an error if the serializer refuses the wrapped value, or if memory runs out.
    fn wrap(self, wrapper: Wrapper, written: Self::Ok) -> Result<Self::Ok, Self::Error>
        ensures { (d : Datum) → Self.outcome (content self wrapper) d (Ok written)
            → Self.outcome self (wrapped wrapper d) result };

    /// Writes a `bool`.
    ///
    /// # Errors
    ///
    /// Returns an error if the serializer refuses the value, or if memory runs out.
    fn serialize_bool(self, v: bool) -> Result<Self::Ok, Self::Error>
        ensures { Self.outcome self (datum.boolean v) result };

    /// Writes an integer. The ten calls that follow are this call.
    ///
    /// # Errors
    ///
    /// Returns an error if the serializer refuses the value, or if memory runs out.
    fn serialize_integer(self, v: Integer) -> Result<Self::Ok, Self::Error>
        ensures { Self.outcome self (datum.integer (kind_of (type_of v)) (number_of v)) result };

    /// Writes an `i8`.
    ///
    /// # Errors
    ///
    /// Returns an error if the serializer refuses the value, or if memory runs out.
    final fn serialize_i8(self, v: i8) -> Result<Self::Ok, Self::Error>
        ensures { Self.outcome self (datum.integer datum.i8 v) result }
    {
        self.serialize_integer(Integer::I8(v))
    }

    /// Writes an `i16`.
    ///
    /// # Errors
    ///
    /// Returns an error if the serializer refuses the value, or if memory runs out.
    final fn serialize_i16(self, v: i16) -> Result<Self::Ok, Self::Error>
        ensures { Self.outcome self (datum.integer datum.i16 v) result }
    {
        self.serialize_integer(Integer::I16(v))
    }

    /// Writes an `i32`.
    ///
    /// # Errors
    ///
    /// Returns an error if the serializer refuses the value, or if memory runs out.
    final fn serialize_i32(self, v: i32) -> Result<Self::Ok, Self::Error>
        ensures { Self.outcome self (datum.integer datum.i32 v) result }
    {
        self.serialize_integer(Integer::I32(v))
    }

    /// Writes an `i64`.
    ///
    /// # Errors
    ///
    /// Returns an error if the serializer refuses the value, or if memory runs out.
    final fn serialize_i64(self, v: i64) -> Result<Self::Ok, Self::Error>
        ensures { Self.outcome self (datum.integer datum.i64 v) result }
    {
        self.serialize_integer(Integer::I64(v))
    }

    /// Writes an `i128`.
    ///
    /// # Errors
    ///
    /// Returns an error if the serializer refuses the value, or if memory runs out.
    final fn serialize_i128(self, v: i128) -> Result<Self::Ok, Self::Error>
        ensures { Self.outcome self (datum.integer datum.i128 v) result }
    {
        self.serialize_integer(Integer::I128(v))
    }

    /// Writes a `u8`.
    ///
    /// # Errors
    ///
    /// Returns an error if the serializer refuses the value, or if memory runs out.
    final fn serialize_u8(self, v: u8) -> Result<Self::Ok, Self::Error>
        ensures { Self.outcome self (datum.integer datum.u8 (pos v)) result }
    {
        self.serialize_integer(Integer::U8(v))
    }

    /// Writes a `u16`.
    ///
    /// # Errors
    ///
    /// Returns an error if the serializer refuses the value, or if memory runs out.
    final fn serialize_u16(self, v: u16) -> Result<Self::Ok, Self::Error>
        ensures { Self.outcome self (datum.integer datum.u16 (pos v)) result }
    {
        self.serialize_integer(Integer::U16(v))
    }

    /// Writes a `u32`.
    ///
    /// # Errors
    ///
    /// Returns an error if the serializer refuses the value, or if memory runs out.
    final fn serialize_u32(self, v: u32) -> Result<Self::Ok, Self::Error>
        ensures { Self.outcome self (datum.integer datum.u32 (pos v)) result }
    {
        self.serialize_integer(Integer::U32(v))
    }

    /// Writes a `u64`.
    ///
    /// # Errors
    ///
    /// Returns an error if the serializer refuses the value, or if memory runs out.
    final fn serialize_u64(self, v: u64) -> Result<Self::Ok, Self::Error>
        ensures { Self.outcome self (datum.integer datum.u64 (pos v)) result }
    {
        self.serialize_integer(Integer::U64(v))
    }

    /// Writes a `u128`.
    ///
    /// # Errors
    ///
    /// Returns an error if the serializer refuses the value, or if memory runs out.
    final fn serialize_u128(self, v: u128) -> Result<Self::Ok, Self::Error>
        ensures { Self.outcome self (datum.integer datum.u128 (pos v)) result }
    {
        self.serialize_integer(Integer::U128(v))
    }

    /// Writes a character.
    ///
    /// # Errors
    ///
    /// Returns an error if the serializer refuses the value, or if memory runs out.
    fn serialize_char(self, v: char) -> Result<Self::Ok, Self::Error>
        ensures { Self.outcome self (datum.char v) result };

    /// Writes a string.
    ///
    /// # Errors
    ///
    /// Returns an error if the serializer refuses the value, or if memory runs out.
    fn serialize_str(self, v: &str) -> Result<Self::Ok, Self::Error>
        ensures { Self.outcome self (datum.string v.now) result };

    /// Writes a byte string.
    ///
    /// # Errors
    ///
    /// Returns an error if the serializer refuses the value, or if memory runs out.
    fn serialize_bytes(self, v: &[u8]) -> Result<Self::Ok, Self::Error>
        ensures { Self.outcome self (datum.bytes v.now) result };

    /// Writes `None`.
    ///
    /// # Errors
    ///
    /// Returns an error if the serializer refuses the value, or if memory runs out.
    fn serialize_none(self) -> Result<Self::Ok, Self::Error>
        ensures { Self.outcome self datum.none result };

    /// Writes `Some(value)`.
    ///
    /// # Errors
    ///
    /// Returns an error if the serializer refuses the value, or if memory runs out.
    final fn serialize_some<T: Serialize>(self, value: &T) -> Result<Self::Ok, Self::Error>
        ensures { Writes Self.Error.fault (T.wants value.now) (Self.outcome self)
            (datum.some (T.tells value.now)) result }
    {
        let content = self.content_serializer(Wrapper::Option)?;
        let written = value.serialize(content)?;
        self.wrap(Wrapper::Option, written)
    }

    /// Writes `()`.
    ///
    /// # Errors
    ///
    /// Returns an error if the serializer refuses the value, or if memory runs out.
    fn serialize_unit(self) -> Result<Self::Ok, Self::Error>
        ensures { Self.outcome self datum.unit result };

    /// Writes a unit struct: `struct Name;`.
    ///
    /// # Errors
    ///
    /// Returns an error if the serializer refuses the value, or if memory runs out.
    fn serialize_unit_struct(self, name: &'static str) -> Result<Self::Ok, Self::Error>
        ensures { Self.outcome self (datum.unit_struct name.now) result };

    /// Writes a unit variant: `Variant` of `enum Name { Variant, .. }`.
    ///
    /// # Errors
    ///
    /// Returns an error if the serializer refuses the value, or if memory runs out.
    fn serialize_unit_variant(
        self,
        name: &'static str,
        index: u32,
        variant: &'static str,
    ) -> Result<Self::Ok, Self::Error>
        ensures { Self.outcome self (datum.unit_variant (datum.variant name.now index variant.now))
            result };

    /// Writes a newtype struct: `struct Name(value)`.
    ///
    /// # Errors
    ///
    /// Returns an error if the serializer refuses the value, or if memory runs out.
    final fn serialize_newtype_struct<T: Serialize>(
        self,
        name: &'static str,
        value: &T,
    ) -> Result<Self::Ok, Self::Error>
        ensures { Writes Self.Error.fault (T.wants value.now) (Self.outcome self)
            (datum.newtype_struct name.now (T.tells value.now)) result }
    {
        let content = self.content_serializer(Wrapper::NewtypeStruct(name))?;
        let written = value.serialize(content)?;
        self.wrap(Wrapper::NewtypeStruct(name), written)
    }

    /// Writes a newtype variant: `Variant(value)` of an enum.
    ///
    /// # Errors
    ///
    /// Returns an error if the serializer refuses the value, or if memory runs out.
    final fn serialize_newtype_variant<T: Serialize>(
        self,
        name: &'static str,
        index: u32,
        variant: &'static str,
        value: &T,
    ) -> Result<Self::Ok, Self::Error>
        ensures { Writes Self.Error.fault (T.wants value.now) (Self.outcome self)
            (datum.newtype_variant (datum.variant name.now index variant.now) (T.tells value.now))
            result }
    {
        let content = self.content_serializer(Wrapper::NewtypeVariant(name, index, variant))?;
        let written = value.serialize(content)?;
        self.wrap(Wrapper::NewtypeVariant(name, index, variant), written)
    }

    /// Begins a sequence. Its elements follow.
    ///
    /// # Errors
    ///
    /// Returns an error if the serializer refuses the value, or if memory runs out.
    fn serialize_seq(self, len: Option<usize>) -> Result<Self::SerializeSeq, Self::Error>
        ensures { Begins Self.SerializeSeq.gives (λ pieces. Self.outcome self (datum.seq pieces))
            result };

    /// Begins a tuple. Its elements follow.
    ///
    /// # Errors
    ///
    /// Returns an error if the serializer refuses the value, or if memory runs out.
    fn serialize_tuple(self, len: usize) -> Result<Self::SerializeTuple, Self::Error>
        ensures { Begins Self.SerializeTuple.gives
            (λ pieces. Self.outcome self (datum.tuple pieces)) result };

    /// Begins a tuple struct. Its fields follow.
    ///
    /// # Errors
    ///
    /// Returns an error if the serializer refuses the value, or if memory runs out.
    fn serialize_tuple_struct(
        self,
        name: &'static str,
        len: usize,
    ) -> Result<Self::SerializeTupleStruct, Self::Error>
        ensures { Begins Self.SerializeTupleStruct.gives
            (λ pieces. Self.outcome self (datum.tuple_struct name.now pieces)) result };

    /// Begins a tuple variant. Its fields follow.
    ///
    /// # Errors
    ///
    /// Returns an error if the serializer refuses the value, or if memory runs out.
    fn serialize_tuple_variant(
        self,
        name: &'static str,
        index: u32,
        variant: &'static str,
        len: usize,
    ) -> Result<Self::SerializeTupleVariant, Self::Error>
        ensures { Begins Self.SerializeTupleVariant.gives
            (λ pieces. Self.outcome self
            (datum.tuple_variant (datum.variant name.now index variant.now) pieces)) result };

    /// Begins a map. Its entries follow.
    ///
    /// # Errors
    ///
    /// Returns an error if the serializer refuses the value, or if memory runs out.
    fn serialize_map(self, len: Option<usize>) -> Result<Self::SerializeMap, Self::Error>
        ensures begins { Begins Self.SerializeMap.gives
            (λ pieces. Self.outcome self (datum.map pieces)) result }
        ensures idle { MatchResult result (λ b. Self.SerializeMap.pending b ≡ None)
            (λ _. Unit {0}) };

    /// Begins a struct. Its fields follow.
    ///
    /// # Errors
    ///
    /// Returns an error if the serializer refuses the value, or if memory runs out.
    fn serialize_struct(
        self,
        name: &'static str,
        len: usize,
    ) -> Result<Self::SerializeStruct, Self::Error>
        ensures { Begins Self.SerializeStruct.gives
            (λ pieces. Self.outcome self (datum.struct name.now pieces)) result };

    /// Begins a struct variant. Its fields follow.
    ///
    /// # Errors
    ///
    /// Returns an error if the serializer refuses the value, or if memory runs out.
    fn serialize_struct_variant(
        self,
        name: &'static str,
        index: u32,
        variant: &'static str,
        len: usize,
    ) -> Result<Self::SerializeStructVariant, Self::Error>
        ensures { Begins Self.SerializeStructVariant.gives
            (λ pieces. Self.outcome self
            (datum.struct_variant (datum.variant name.now index variant.now) pieces)) result };
}
