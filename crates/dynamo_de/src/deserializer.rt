ghost use Rattle.dynamo_de.specs.Shows.{seen};
ghost use Rattle.dynamo_de.specs.Takes.{Asks, Visits};
ghost use Rattle.dynamo_value.specs.declared.integer.IntegerKind.TheVariants as types;
ghost use Rattle.dynamo_de.specs.declared.request.Request.TheVariants as request;

use crate::reader_access::{ReaderEnumAccess, ReaderMapAccess, ReaderSeqAccess};
use crate::{Integer, IntegerKind, Reader, Request, Showing, Visitor};

/// Calls the visitor with what a reader shows.
fn offer<R: Reader, V: Visitor>(
    showing: Showing<R, R::Elements, R::Entries, R::Choice>,
    visitor: V,
) -> Result<V::Value, R::Error>
    ensures { Visits R.Error.fault (V.claimed visitor) (V.takes visitor)
        (seen R.source R.elements R.entries R.chosen showing) result }
{
    match showing {
        Showing::Bool(v) => visitor.visit_bool(v),
        Showing::Integer(v) => match v {
            Integer::I8(v) => visitor.visit_i8(v),
            Integer::I16(v) => visitor.visit_i16(v),
            Integer::I32(v) => visitor.visit_i32(v),
            Integer::I64(v) => visitor.visit_i64(v),
            Integer::I128(v) => visitor.visit_i128(v),
            Integer::U8(v) => visitor.visit_u8(v),
            Integer::U16(v) => visitor.visit_u16(v),
            Integer::U32(v) => visitor.visit_u32(v),
            Integer::U64(v) => visitor.visit_u64(v),
            Integer::U128(v) => visitor.visit_u128(v),
        },
        Showing::NumberText(v) => visitor.visit_number_text(v.as_str()),
        Showing::Char(v) => visitor.visit_char(v),
        Showing::FirstChar(v) => match visitor.visit_char(v) {
            Ok(_) => Err(R::more_than_one_char()),
            Err(e) => Err(e),
        },
        Showing::Text(v) => visitor.visit_string(v),
        Showing::Bytes(v) => visitor.visit_byte_buf(v),
        Showing::None => visitor.visit_none(),
        Showing::Unit => visitor.visit_unit(),
        Showing::Some(d) => visitor.visit_some(d),
        Showing::Newtype(d) => visitor.visit_newtype_struct(d),
        Showing::Sequence(elements) => visitor.visit_seq(ReaderSeqAccess::<R>::new(elements)),
        Showing::Map(entries) => visitor.visit_map(ReaderMapAccess::<R>::new(entries)),
        Showing::Enum(choice) => visitor.visit_enum(ReaderEnumAccess::<R>::new(choice)),
    }
}

/// Asks a reader, and calls the visitor with what it shows.
fn ask<R: Reader, V: Visitor>(reader: R, request: Request, visitor: V) -> Result<V::Value, R::Error>
    ensures { Asks R.Error.fault (V.claimed visitor) (V.takes visitor) request (R.source reader)
        result }
{
    offer::<R, V>(reader.show(request)?, visitor)
}

/// A deserializer, as serde's. Every [`Reader`] is one.
///
/// Each method asks for one kind of data, and calls the visitor with what the source holds. It
/// returns what the visitor makes of it, or the deserializer's own error.
pub trait Deserializer: Reader {
    /// Asks for whatever the source holds.
    ///
    /// # Errors
    ///
    /// Returns an error if the source holds other data, if the visitor refuses the data, or if
    /// memory runs out.
    final fn deserialize_any<V: Visitor>(self, visitor: V) -> Result<V::Value, Self::Error>
        ensures { Asks Self.Error.fault (V.claimed visitor) (V.takes visitor) request.Any
            (Self.source self) result }
    {
        ask(self, Request::Any, visitor)
    }

    /// Asks for a boolean.
    ///
    /// # Errors
    ///
    /// Returns an error if the source holds other data, if the visitor refuses the data, or if
    /// memory runs out.
    final fn deserialize_bool<V: Visitor>(self, visitor: V) -> Result<V::Value, Self::Error>
        ensures { Asks Self.Error.fault (V.claimed visitor) (V.takes visitor) request.Bool
            (Self.source self) result }
    {
        ask(self, Request::Bool, visitor)
    }

    /// Asks for an `i8`.
    ///
    /// # Errors
    ///
    /// Returns an error if the source holds other data, if the visitor refuses the data, or if
    /// memory runs out.
    final fn deserialize_i8<V: Visitor>(self, visitor: V) -> Result<V::Value, Self::Error>
        ensures { Asks Self.Error.fault (V.claimed visitor) (V.takes visitor)
            (request.Integer types.I8) (Self.source self) result }
    {
        ask(self, Request::Integer(IntegerKind::I8), visitor)
    }

    /// Asks for an `i16`.
    ///
    /// # Errors
    ///
    /// Returns an error if the source holds other data, if the visitor refuses the data, or if
    /// memory runs out.
    final fn deserialize_i16<V: Visitor>(self, visitor: V) -> Result<V::Value, Self::Error>
        ensures { Asks Self.Error.fault (V.claimed visitor) (V.takes visitor)
            (request.Integer types.I16) (Self.source self) result }
    {
        ask(self, Request::Integer(IntegerKind::I16), visitor)
    }

    /// Asks for an `i32`.
    ///
    /// # Errors
    ///
    /// Returns an error if the source holds other data, if the visitor refuses the data, or if
    /// memory runs out.
    final fn deserialize_i32<V: Visitor>(self, visitor: V) -> Result<V::Value, Self::Error>
        ensures { Asks Self.Error.fault (V.claimed visitor) (V.takes visitor)
            (request.Integer types.I32) (Self.source self) result }
    {
        ask(self, Request::Integer(IntegerKind::I32), visitor)
    }

    /// Asks for an `i64`.
    ///
    /// # Errors
    ///
    /// Returns an error if the source holds other data, if the visitor refuses the data, or if
    /// memory runs out.
    final fn deserialize_i64<V: Visitor>(self, visitor: V) -> Result<V::Value, Self::Error>
        ensures { Asks Self.Error.fault (V.claimed visitor) (V.takes visitor)
            (request.Integer types.I64) (Self.source self) result }
    {
        ask(self, Request::Integer(IntegerKind::I64), visitor)
    }

    /// Asks for an `i128`.
    ///
    /// # Errors
    ///
    /// Returns an error if the source holds other data, if the visitor refuses the data, or if
    /// memory runs out.
    final fn deserialize_i128<V: Visitor>(self, visitor: V) -> Result<V::Value, Self::Error>
        ensures { Asks Self.Error.fault (V.claimed visitor) (V.takes visitor)
            (request.Integer types.I128) (Self.source self) result }
    {
        ask(self, Request::Integer(IntegerKind::I128), visitor)
    }

    /// Asks for a `u8`.
    ///
    /// # Errors
    ///
    /// Returns an error if the source holds other data, if the visitor refuses the data, or if
    /// memory runs out.
    final fn deserialize_u8<V: Visitor>(self, visitor: V) -> Result<V::Value, Self::Error>
        ensures { Asks Self.Error.fault (V.claimed visitor) (V.takes visitor)
            (request.Integer types.U8) (Self.source self) result }
    {
        ask(self, Request::Integer(IntegerKind::U8), visitor)
    }

    /// Asks for a `u16`.
    ///
    /// # Errors
    ///
    /// Returns an error if the source holds other data, if the visitor refuses the data, or if
    /// memory runs out.
    final fn deserialize_u16<V: Visitor>(self, visitor: V) -> Result<V::Value, Self::Error>
        ensures { Asks Self.Error.fault (V.claimed visitor) (V.takes visitor)
            (request.Integer types.U16) (Self.source self) result }
    {
        ask(self, Request::Integer(IntegerKind::U16), visitor)
    }

    /// Asks for a `u32`.
    ///
    /// # Errors
    ///
    /// Returns an error if the source holds other data, if the visitor refuses the data, or if
    /// memory runs out.
    final fn deserialize_u32<V: Visitor>(self, visitor: V) -> Result<V::Value, Self::Error>
        ensures { Asks Self.Error.fault (V.claimed visitor) (V.takes visitor)
            (request.Integer types.U32) (Self.source self) result }
    {
        ask(self, Request::Integer(IntegerKind::U32), visitor)
    }

    /// Asks for a `u64`.
    ///
    /// # Errors
    ///
    /// Returns an error if the source holds other data, if the visitor refuses the data, or if
    /// memory runs out.
    final fn deserialize_u64<V: Visitor>(self, visitor: V) -> Result<V::Value, Self::Error>
        ensures { Asks Self.Error.fault (V.claimed visitor) (V.takes visitor)
            (request.Integer types.U64) (Self.source self) result }
    {
        ask(self, Request::Integer(IntegerKind::U64), visitor)
    }

    /// Asks for a `u128`.
    ///
    /// # Errors
    ///
    /// Returns an error if the source holds other data, if the visitor refuses the data, or if
    /// memory runs out.
    final fn deserialize_u128<V: Visitor>(self, visitor: V) -> Result<V::Value, Self::Error>
        ensures { Asks Self.Error.fault (V.claimed visitor) (V.takes visitor)
            (request.Integer types.U128) (Self.source self) result }
    {
        ask(self, Request::Integer(IntegerKind::U128), visitor)
    }

    /// Asks for a character.
    ///
    /// # Errors
    ///
    /// Returns an error if the source holds other data, if the visitor refuses the data, or if
    /// memory runs out.
    final fn deserialize_char<V: Visitor>(self, visitor: V) -> Result<V::Value, Self::Error>
        ensures { Asks Self.Error.fault (V.claimed visitor) (V.takes visitor) request.Char
            (Self.source self) result }
    {
        ask(self, Request::Char, visitor)
    }

    /// Asks for a string.
    ///
    /// # Errors
    ///
    /// Returns an error if the source holds other data, if the visitor refuses the data, or if
    /// memory runs out.
    final fn deserialize_str<V: Visitor>(self, visitor: V) -> Result<V::Value, Self::Error>
        ensures { Asks Self.Error.fault (V.claimed visitor) (V.takes visitor) request.Str
            (Self.source self) result }
    {
        ask(self, Request::Str, visitor)
    }

    /// Asks for an owned string.
    ///
    /// # Errors
    ///
    /// Returns an error if the source holds other data, if the visitor refuses the data, or if
    /// memory runs out.
    final fn deserialize_string<V: Visitor>(self, visitor: V) -> Result<V::Value, Self::Error>
        ensures { Asks Self.Error.fault (V.claimed visitor) (V.takes visitor) request.String
            (Self.source self) result }
    {
        ask(self, Request::String, visitor)
    }

    /// Asks for a byte string.
    ///
    /// # Errors
    ///
    /// Returns an error if the source holds other data, if the visitor refuses the data, or if
    /// memory runs out.
    final fn deserialize_bytes<V: Visitor>(self, visitor: V) -> Result<V::Value, Self::Error>
        ensures { Asks Self.Error.fault (V.claimed visitor) (V.takes visitor) request.Bytes
            (Self.source self) result }
    {
        ask(self, Request::Bytes, visitor)
    }

    /// Asks for an owned byte string.
    ///
    /// # Errors
    ///
    /// Returns an error if the source holds other data, if the visitor refuses the data, or if
    /// memory runs out.
    final fn deserialize_byte_buf<V: Visitor>(self, visitor: V) -> Result<V::Value, Self::Error>
        ensures { Asks Self.Error.fault (V.claimed visitor) (V.takes visitor) request.ByteBuf
            (Self.source self) result }
    {
        ask(self, Request::ByteBuf, visitor)
    }

    /// Asks for an option.
    ///
    /// # Errors
    ///
    /// Returns an error if the source holds other data, if the visitor refuses the data, or if
    /// memory runs out.
    final fn deserialize_option<V: Visitor>(self, visitor: V) -> Result<V::Value, Self::Error>
        ensures { Asks Self.Error.fault (V.claimed visitor) (V.takes visitor) request.Option
            (Self.source self) result }
    {
        ask(self, Request::Option, visitor)
    }

    /// Asks for a unit.
    ///
    /// # Errors
    ///
    /// Returns an error if the source holds other data, if the visitor refuses the data, or if
    /// memory runs out.
    final fn deserialize_unit<V: Visitor>(self, visitor: V) -> Result<V::Value, Self::Error>
        ensures { Asks Self.Error.fault (V.claimed visitor) (V.takes visitor) request.Unit
            (Self.source self) result }
    {
        ask(self, Request::Unit, visitor)
    }

    /// Asks for a unit struct. The name isn't used.
    ///
    /// # Errors
    ///
    /// Returns an error if the source holds other data, if the visitor refuses the data, or if
    /// memory runs out.
    final fn deserialize_unit_struct<V: Visitor>(
        self,
        _name: &'static str,
        visitor: V,
    ) -> Result<V::Value, Self::Error>
        ensures { Asks Self.Error.fault (V.claimed visitor) (V.takes visitor) request.UnitStruct
            (Self.source self) result }
    {
        ask(self, Request::UnitStruct, visitor)
    }

    /// Asks for a newtype struct. The name isn't used.
    ///
    /// # Errors
    ///
    /// Returns an error if the source holds other data, if the visitor refuses the data, or if
    /// memory runs out.
    final fn deserialize_newtype_struct<V: Visitor>(
        self,
        _name: &'static str,
        visitor: V,
    ) -> Result<V::Value, Self::Error>
        ensures { Asks Self.Error.fault (V.claimed visitor) (V.takes visitor) request.NewtypeStruct
            (Self.source self) result }
    {
        ask(self, Request::NewtypeStruct, visitor)
    }

    /// Asks for a sequence.
    ///
    /// # Errors
    ///
    /// Returns an error if the source holds other data, if the visitor refuses the data, or if
    /// memory runs out.
    final fn deserialize_seq<V: Visitor>(self, visitor: V) -> Result<V::Value, Self::Error>
        ensures { Asks Self.Error.fault (V.claimed visitor) (V.takes visitor) request.Seq
            (Self.source self) result }
    {
        ask(self, Request::Seq, visitor)
    }

    /// Asks for a tuple. The length isn't used.
    ///
    /// # Errors
    ///
    /// Returns an error if the source holds other data, if the visitor refuses the data, or if
    /// memory runs out.
    final fn deserialize_tuple<V: Visitor>(
        self,
        _len: usize,
        visitor: V,
    ) -> Result<V::Value, Self::Error>
        ensures { Asks Self.Error.fault (V.claimed visitor) (V.takes visitor) request.Tuple
            (Self.source self) result }
    {
        ask(self, Request::Tuple, visitor)
    }

    /// Asks for a tuple struct. The name and the length aren't used.
    ///
    /// # Errors
    ///
    /// Returns an error if the source holds other data, if the visitor refuses the data, or if
    /// memory runs out.
    final fn deserialize_tuple_struct<V: Visitor>(
        self,
        _name: &'static str,
        _len: usize,
        visitor: V,
    ) -> Result<V::Value, Self::Error>
        ensures { Asks Self.Error.fault (V.claimed visitor) (V.takes visitor) request.TupleStruct
            (Self.source self) result }
    {
        ask(self, Request::TupleStruct, visitor)
    }

    /// Asks for a map.
    ///
    /// # Errors
    ///
    /// Returns an error if the source holds other data, if the visitor refuses the data, or if
    /// memory runs out.
    final fn deserialize_map<V: Visitor>(self, visitor: V) -> Result<V::Value, Self::Error>
        ensures { Asks Self.Error.fault (V.claimed visitor) (V.takes visitor) request.Map
            (Self.source self) result }
    {
        ask(self, Request::Map, visitor)
    }

    /// Asks for a struct. The names aren't used.
    ///
    /// # Errors
    ///
    /// Returns an error if the source holds other data, if the visitor refuses the data, or if
    /// memory runs out.
    final fn deserialize_struct<V: Visitor>(
        self,
        _name: &'static str,
        _fields: &'static [&'static str],
        visitor: V,
    ) -> Result<V::Value, Self::Error>
        ensures { Asks Self.Error.fault (V.claimed visitor) (V.takes visitor) request.Struct
            (Self.source self) result }
    {
        ask(self, Request::Struct, visitor)
    }

    /// Asks for an enum. The names aren't used.
    ///
    /// # Errors
    ///
    /// Returns an error if the source holds other data, if the visitor refuses the data, or if
    /// memory runs out.
    final fn deserialize_enum<V: Visitor>(
        self,
        _name: &'static str,
        _variants: &'static [&'static str],
        visitor: V,
    ) -> Result<V::Value, Self::Error>
        ensures { Asks Self.Error.fault (V.claimed visitor) (V.takes visitor) request.Enum
            (Self.source self) result }
    {
        ask(self, Request::Enum, visitor)
    }

    /// Asks for the name of a field or a variant.
    ///
    /// # Errors
    ///
    /// Returns an error if the source holds other data, if the visitor refuses the data, or if
    /// memory runs out.
    final fn deserialize_identifier<V: Visitor>(self, visitor: V) -> Result<V::Value, Self::Error>
        ensures { Asks Self.Error.fault (V.claimed visitor) (V.takes visitor) request.Identifier
            (Self.source self) result }
    {
        ask(self, Request::Identifier, visitor)
    }

    /// Asks for whatever the source holds, to drop it.
    ///
    /// # Errors
    ///
    /// Returns an error if the source holds other data, if the visitor refuses the data, or if
    /// memory runs out.
    final fn deserialize_ignored_any<V: Visitor>(self, visitor: V) -> Result<V::Value, Self::Error>
        ensures { Asks Self.Error.fault (V.claimed visitor) (V.takes visitor) request.IgnoredAny
            (Self.source self) result }
    {
        ask(self, Request::IgnoredAny, visitor)
    }
}

impl<R: Reader> Deserializer for R {}
