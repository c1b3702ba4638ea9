ghost use Rattle.std.specs.Prelude.{◌≡◌, pos, string_bytes, Bool, Result, None};
ghost use Rattle.dynamo_value.specs.Fault.{Fault};
ghost use Rattle.dynamo_value.specs.Integer as integers;
ghost use Rattle.dynamo_de.specs.Showing as showing;
ghost use Rattle.dynamo_de.specs.Showing.{Showing};
ghost use Rattle.dynamo_de.specs.Takes.{Visits};
ghost use Rattle.dynamo_de.specs.declared.kind.Kind.{Kind};

use crate::taken::refuse;
use crate::{Deserializer, EnumAccess, Error, IntegerKind, Kind, MapAccess, SeqAccess};
use std::alloc::Global;

/// Makes a value of the data that a deserializer finds, as serde's `Visitor`.
///
/// A visitor lists the kinds that it takes in [`Visitor::claims`], and implements the `visit_`
/// method of each of these. The provided methods pass a narrow integer on to that of 64 bits, a
/// character and an owned string on to `visit_str`, and an owned byte string on to `visit_bytes`.
/// All others return an error as `invalid type: string, expected a boolean`.
///
/// If a visitor claims a kind and doesn't implement its method, the provided method returns the
/// error for out of memory.
pub trait Visitor: Sized + Drop {
    /// The value that the visitor makes.
    type Value: Drop;

    // The kinds with a method of their own, and the results that these permit.
    ghost claimed: { Self → Kind → Bool };

    ghost takes: { Self → Showing → Result Self.Value Fault → Type 0 };

    /// Returns what the visitor expects, as an error's message has it after `expected `.
    fn expecting(&self) -> &'static str;

    /// Returns the allocator of an error's message.
    fn alloc(&self) -> Global;

    /// Returns whether the visitor implements the method of this kind.
    fn claims(&self, kind: Kind) -> bool
        ensures { result ≡ claimed self.now kind };

    /// Takes a boolean.
    ///
    /// # Errors
    ///
    /// Returns an error if the visitor refuses the data, or if memory runs out.
    fn visit_bool<E: Error>(self, v: bool) -> Result<Self::Value, E>
        ensures { Visits E.fault (claimed self) (takes self) (showing.boolean v) result }
    {
        refuse(
            self.alloc(),
            Kind::Bool,
            self.claims(Kind::Bool),
            self.expecting(),
        )
    }

    /// Takes an `i8`. The provided method passes it on to `visit_i64`.
    ///
    /// # Errors
    ///
    /// Returns an error if the visitor refuses the data, or if memory runs out.
    fn visit_i8<E: Error>(self, v: i8) -> Result<Self::Value, E>
        ensures { Visits E.fault (claimed self) (takes self) (showing.integer integers.i8 v)
            result }
    {
        if self.claims(Kind::Integer(IntegerKind::I8)) {
            return Err(E::out_of_memory());
        }
        self.visit_i64(i64::from(v))
    }

    /// Takes an `i16`. The provided method passes it on to `visit_i64`.
    ///
    /// # Errors
    ///
    /// Returns an error if the visitor refuses the data, or if memory runs out.
    fn visit_i16<E: Error>(self, v: i16) -> Result<Self::Value, E>
        ensures { Visits E.fault (claimed self) (takes self) (showing.integer integers.i16 v)
            result }
    {
        if self.claims(Kind::Integer(IntegerKind::I16)) {
            return Err(E::out_of_memory());
        }
        self.visit_i64(i64::from(v))
    }

    /// Takes an `i32`. The provided method passes it on to `visit_i64`.
    ///
    /// # Errors
    ///
    /// Returns an error if the visitor refuses the data, or if memory runs out.
    fn visit_i32<E: Error>(self, v: i32) -> Result<Self::Value, E>
        ensures { Visits E.fault (claimed self) (takes self) (showing.integer integers.i32 v)
            result }
    {
        if self.claims(Kind::Integer(IntegerKind::I32)) {
            return Err(E::out_of_memory());
        }
        self.visit_i64(i64::from(v))
    }

    /// Takes an `i64`.
    ///
    /// # Errors
    ///
    /// Returns an error if the visitor refuses the data, or if memory runs out.
    fn visit_i64<E: Error>(self, v: i64) -> Result<Self::Value, E>
        ensures { Visits E.fault (claimed self) (takes self) (showing.integer integers.i64 v)
            result }
    {
        refuse(
            self.alloc(),
            Kind::Integer(IntegerKind::I64),
            self.claims(Kind::Integer(IntegerKind::I64)),
            self.expecting(),
        )
    }

    /// Takes an `i128`.
    ///
    /// # Errors
    ///
    /// Returns an error if the visitor refuses the data, or if memory runs out.
    fn visit_i128<E: Error>(self, v: i128) -> Result<Self::Value, E>
        ensures { Visits E.fault (claimed self) (takes self) (showing.integer integers.i128 v)
            result }
    {
        refuse(
            self.alloc(),
            Kind::Integer(IntegerKind::I128),
            self.claims(Kind::Integer(IntegerKind::I128)),
            self.expecting(),
        )
    }

    /// Takes a `u8`. The provided method passes it on to `visit_u64`.
    ///
    /// # Errors
    ///
    /// Returns an error if the visitor refuses the data, or if memory runs out.
    fn visit_u8<E: Error>(self, v: u8) -> Result<Self::Value, E>
        ensures { Visits E.fault (claimed self) (takes self) (showing.integer integers.u8 (pos v))
            result }
    {
        if self.claims(Kind::Integer(IntegerKind::U8)) {
            return Err(E::out_of_memory());
        }
        self.visit_u64(u64::from(v))
    }

    /// Takes a `u16`. The provided method passes it on to `visit_u64`.
    ///
    /// # Errors
    ///
    /// Returns an error if the visitor refuses the data, or if memory runs out.
    fn visit_u16<E: Error>(self, v: u16) -> Result<Self::Value, E>
        ensures { Visits E.fault (claimed self) (takes self) (showing.integer integers.u16 (pos v))
            result }
    {
        if self.claims(Kind::Integer(IntegerKind::U16)) {
            return Err(E::out_of_memory());
        }
        self.visit_u64(u64::from(v))
    }

    /// Takes a `u32`. The provided method passes it on to `visit_u64`.
    ///
    /// # Errors
    ///
    /// Returns an error if the visitor refuses the data, or if memory runs out.
    fn visit_u32<E: Error>(self, v: u32) -> Result<Self::Value, E>
        ensures { Visits E.fault (claimed self) (takes self) (showing.integer integers.u32 (pos v))
            result }
    {
        if self.claims(Kind::Integer(IntegerKind::U32)) {
            return Err(E::out_of_memory());
        }
        self.visit_u64(u64::from(v))
    }

    /// Takes a `u64`.
    ///
    /// # Errors
    ///
    /// Returns an error if the visitor refuses the data, or if memory runs out.
    fn visit_u64<E: Error>(self, v: u64) -> Result<Self::Value, E>
        ensures { Visits E.fault (claimed self) (takes self) (showing.integer integers.u64 (pos v))
            result }
    {
        refuse(
            self.alloc(),
            Kind::Integer(IntegerKind::U64),
            self.claims(Kind::Integer(IntegerKind::U64)),
            self.expecting(),
        )
    }

    /// Takes a `u128`.
    ///
    /// # Errors
    ///
    /// Returns an error if the visitor refuses the data, or if memory runs out.
    fn visit_u128<E: Error>(self, v: u128) -> Result<Self::Value, E>
        ensures { Visits E.fault (claimed self) (takes self) (showing.integer integers.u128 (pos v))
            result }
    {
        refuse(
            self.alloc(),
            Kind::Integer(IntegerKind::U128),
            self.claims(Kind::Integer(IntegerKind::U128)),
            self.expecting(),
        )
    }

    /// Takes a number that neither an `i64` nor a `u64` holds, as its string.
    ///
    /// # Errors
    ///
    /// Returns an error if the visitor refuses the data, or if memory runs out.
    fn visit_number_text<E: Error>(self, v: &str) -> Result<Self::Value, E>
        ensures { Visits E.fault (claimed self) (takes self) (showing.number_text v.now) result }
    {
        refuse(
            self.alloc(),
            Kind::NumberText,
            self.claims(Kind::NumberText),
            self.expecting(),
        )
    }

    /// Takes a character. The provided method passes it on to `visit_str`.
    ///
    /// # Errors
    ///
    /// Returns an error if the visitor refuses the data, or if memory runs out.
    fn visit_char<E: Error>(self, v: char) -> Result<Self::Value, E>
        ensures { Visits E.fault (claimed self) (takes self) (showing.char v) result }
    {
        if self.claims(Kind::Char) {
            return Err(E::out_of_memory());
        }
        let mut buffer = [0u8; 4];
        self.visit_str(v.encode_utf8(&mut buffer))
    }

    /// Takes a string.
    ///
    /// # Errors
    ///
    /// Returns an error if the visitor refuses the data, or if memory runs out.
    fn visit_str<E: Error>(self, v: &str) -> Result<Self::Value, E>
        ensures { Visits E.fault (claimed self) (takes self) (showing.text v.now) result }
    {
        refuse(
            self.alloc(),
            Kind::Str,
            self.claims(Kind::Str),
            self.expecting(),
        )
    }

    /// Takes an owned string. The provided method passes it on to `visit_str`.
    ///
    /// # Errors
    ///
    /// Returns an error if the visitor refuses the data, or if memory runs out.
    fn visit_string<E: Error>(self, v: String) -> Result<Self::Value, E>
        ensures { Visits E.fault (claimed self) (takes self) (showing.text (string_bytes v))
            result }
    {
        self.visit_str(v.as_str())
    }

    /// Takes a byte string.
    ///
    /// # Errors
    ///
    /// Returns an error if the visitor refuses the data, or if memory runs out.
    fn visit_bytes<E: Error>(self, v: &[u8]) -> Result<Self::Value, E>
        ensures { Visits E.fault (claimed self) (takes self) (showing.bytes v.now) result }
    {
        refuse(
            self.alloc(),
            Kind::Bytes,
            self.claims(Kind::Bytes),
            self.expecting(),
        )
    }

    /// Takes an owned byte string. The provided method passes it on to `visit_bytes`.
    ///
    /// # Errors
    ///
    /// Returns an error if the visitor refuses the data, or if memory runs out.
    fn visit_byte_buf<E: Error>(self, v: Vec<u8>) -> Result<Self::Value, E>
        ensures { Visits E.fault (claimed self) (takes self) (showing.bytes v.items) result }
    {
        self.visit_bytes(v.as_slice())
    }

    /// Takes `None`.
    ///
    /// # Errors
    ///
    /// Returns an error if the visitor refuses the data, or if memory runs out.
    fn visit_none<E: Error>(self) -> Result<Self::Value, E>
        ensures { Visits E.fault (claimed self) (takes self) (showing.none) result }
    {
        refuse(
            self.alloc(),
            Kind::None,
            self.claims(Kind::None),
            self.expecting(),
        )
    }

    /// Takes the content of an option.
    ///
    /// # Errors
    ///
    /// Returns an error if the visitor refuses the data, if reading the content fails, or if memory
    /// runs out.
    fn visit_some<D: Deserializer>(self, deserializer: D) -> Result<Self::Value, D::Error>
        ensures { Visits D.Error.fault (claimed self) (takes self)
            (showing.some (D.source deserializer)) result }
    {
        refuse(
            self.alloc(),
            Kind::Some,
            self.claims(Kind::Some),
            self.expecting(),
        )
    }

    /// Takes a unit.
    ///
    /// # Errors
    ///
    /// Returns an error if the visitor refuses the data, or if memory runs out.
    fn visit_unit<E: Error>(self) -> Result<Self::Value, E>
        ensures { Visits E.fault (claimed self) (takes self) (showing.unit) result }
    {
        refuse(
            self.alloc(),
            Kind::Unit,
            self.claims(Kind::Unit),
            self.expecting(),
        )
    }

    /// Takes the content of a newtype struct.
    ///
    /// # Errors
    ///
    /// Returns an error if the visitor refuses the data, if reading the content fails, or if memory
    /// runs out.
    fn visit_newtype_struct<D: Deserializer>(self, deserializer: D) -> Result<Self::Value, D::Error>
        ensures { Visits D.Error.fault (claimed self) (takes self)
            (showing.newtype (D.source deserializer)) result }
    {
        refuse(
            self.alloc(),
            Kind::NewtypeStruct,
            self.claims(Kind::NewtypeStruct),
            self.expecting(),
        )
    }

    /// Takes the elements of a sequence.
    ///
    /// # Errors
    ///
    /// Returns an error if the visitor refuses the data, if reading an element fails, or if memory
    /// runs out.
    fn visit_seq<A: SeqAccess>(self, seq: A) -> Result<Self::Value, A::Error>
        ensures { Visits A.Error.fault (claimed self) (takes self) (showing.sequence (A.left seq))
            result }
    {
        refuse(
            self.alloc(),
            Kind::Seq,
            self.claims(Kind::Seq),
            self.expecting(),
        )
    }

    /// Takes the entries of a map, whose first key isn't read yet.
    ///
    /// # Errors
    ///
    /// Returns an error if the visitor refuses the data, if reading an entry fails, or if memory
    /// runs out.
    fn visit_map<A: MapAccess>(self, map: A) -> Result<Self::Value, A::Error>
        ensures { (A.left map).pending ≡ None
            → Visits A.Error.fault (claimed self) (takes self)
            (showing.entries (A.left map).entries) result }
    {
        refuse(
            self.alloc(),
            Kind::Map,
            self.claims(Kind::Map),
            self.expecting(),
        )
    }

    /// Takes a variant of an enum.
    ///
    /// # Errors
    ///
    /// Returns an error if the visitor refuses the data, if reading the variant fails, or if memory
    /// runs out.
    fn visit_enum<A: EnumAccess>(self, variant: A) -> Result<Self::Value, A::Error>
        ensures { Visits A.Error.fault (claimed self) (takes self)
            (showing.variant (A.chosen variant)) result }
    {
        refuse(
            self.alloc(),
            Kind::Enum,
            self.claims(Kind::Enum),
            self.expecting(),
        )
    }
}
