ghost use Rattle.std.specs.Prelude.{◌≡◌};

use crate::locating_parts::LocatingParts;
use crate::trail::Trail;
use dynamo_ser::{Outcomes, Serializer, Wrapper};
use dynamo_value::{Error, ErrorImpl, Integer, Result};
use dynamo_write::SetKind;
use std::alloc::Global;

/// A serializer that refuses what [`dynamo_write::Serializer`] refuses, and keeps the steps to the
/// value on a trail. It makes no attribute values.
///
/// When a value is written, the trail is where it was before. After an error it ends where the
/// error was met.
#[derive(Clone, Copy)]
pub struct LocatingSerializer<'a> {
    alloc: Global,
    pub(crate) trail: &'a Trail,
}

impl<'a> LocatingSerializer<'a> {
    /// Returns the serializer of a whole value, whose place is at the end of the trail.
    pub(crate) fn new(alloc: Global, trail: &'a Trail) -> Self {
        LocatingSerializer { alloc, trail }
    }

    /// Goes on to the attribute of this name.
    pub(crate) fn go_to(self, name: &str) {
        self.trail.to_attribute(self.alloc, name);
    }

    // Ends a set whose elements were written as a list.
    fn end_set(self, kind: SetKind, content: Written) -> Result<Written> {
        let Written::List(misfits) = content else {
            return Err(Error::from(ErrorImpl::NotSetlike));
        };
        let (misfit, error) = match kind {
            SetKind::Strings => (misfits.strings, ErrorImpl::StringSetExpectedType),
            SetKind::Numbers => (misfits.numbers, ErrorImpl::NumberSetExpectedType),
            SetKind::Blobs => (misfits.blobs, ErrorImpl::BinarySetExpectedType),
        };
        match misfit {
            None => Ok(Written::Other),
            Some(index) => {
                self.trail.to_element(index);
                Err(Error::from(error))
            }
        }
    }
}

/// The kind of value that was written, which decides whether it may be in a set.
#[derive(Clone, Copy)]
pub enum Written {
    /// A string.
    String,

    /// A number.
    Number,

    /// A byte string.
    Blob,

    /// A list.
    List(Misfits),

    /// Anything else.
    Other,
}

/// The index of the first element of a list that is no string, that of the first one that is no
/// number, and that of the first one that is no byte string.
#[derive(Clone, Copy)]
pub struct Misfits {
    strings: Option<usize>,
    numbers: Option<usize>,
    blobs: Option<usize>,
}

impl Misfits {
    /// Returns the misfits of an empty list, which has none.
    pub(crate) fn none() -> Misfits {
        Misfits {
            strings: None,
            numbers: None,
            blobs: None,
        }
    }

    /// Returns those of a list with one more element.
    pub(crate) fn and(self, index: usize, element: Written) -> Misfits {
        Misfits {
            strings: first_misfit(self.strings, index, matches!(element, Written::String)),
            numbers: first_misfit(self.numbers, index, matches!(element, Written::Number)),
            blobs: first_misfit(self.blobs, index, matches!(element, Written::Blob)),
        }
    }
}

// The first misfit, given that among the elements before, and whether the element at this index
// fits.
fn first_misfit(before: Option<usize>, index: usize, fits: bool) -> Option<usize> {
    if before.is_none() && !fits {
        Some(index)
    } else {
        before
    }
}

impl Outcomes for LocatingSerializer<'_> {
    type Ok = Written;

    type Error = Error;

    // Nothing is said of what it writes, which only serves to find a place.
    ghost outcome = { λ s d r. Unit {0} };

    ghost refusal = { λ s text e is. tt };

    fn alloc(&self) -> Global {
        self.alloc
    }
}

impl<'a> Serializer for LocatingSerializer<'a> {
    type SerializeSeq = LocatingParts<'a>;

    type SerializeTuple = LocatingParts<'a>;

    type SerializeTupleStruct = LocatingParts<'a>;

    type SerializeTupleVariant = LocatingParts<'a>;

    type SerializeMap = LocatingParts<'a>;

    type SerializeStruct = LocatingParts<'a>;

    type SerializeStructVariant = LocatingParts<'a>;

    ghost content = { λ s w. s };

    fn content_serializer(&self, wrapper: Wrapper) -> Result<Self> {
        if let Wrapper::NewtypeVariant(_, _, variant) = wrapper {
            self.go_to(variant);
        }
        Ok(*self)
    }

    fn wrap(self, wrapper: Wrapper, written: Written) -> Result<Written> {
        match wrapper {
            Wrapper::Option => Ok(written),
            Wrapper::NewtypeStruct(name) => match SetKind::of_symbol(name) {
                None => Ok(written),
                Some(kind) => self.end_set(kind, written),
            },
            Wrapper::NewtypeVariant(_, _, _) => {
                self.trail.back();
                Ok(Written::Other)
            }
        }
    }

    fn serialize_bool(self, _v: bool) -> Result<Written> {
        Ok(Written::Other)
    }

    fn serialize_integer(self, _v: Integer) -> Result<Written> {
        Ok(Written::Number)
    }

    fn serialize_char(self, _v: char) -> Result<Written> {
        Ok(Written::String)
    }

    fn serialize_str(self, _v: &str) -> Result<Written> {
        Ok(Written::String)
    }

    fn serialize_bytes(self, _v: &[u8]) -> Result<Written> {
        Ok(Written::Blob)
    }

    fn serialize_none(self) -> Result<Written> {
        Ok(Written::Other)
    }

    fn serialize_unit(self) -> Result<Written> {
        Ok(Written::Other)
    }

    fn serialize_unit_struct(self, _name: &'static str) -> Result<Written> {
        Ok(Written::Other)
    }

    fn serialize_unit_variant(
        self,
        _name: &'static str,
        _index: u32,
        _variant: &'static str,
    ) -> Result<Written> {
        Ok(Written::String)
    }

    fn serialize_seq(self, _len: Option<usize>) -> Result<LocatingParts<'a>> {
        Ok(LocatingParts::new(self, Written::List(Misfits::none())))
    }

    fn serialize_tuple(self, _len: usize) -> Result<LocatingParts<'a>> {
        Ok(LocatingParts::new(self, Written::List(Misfits::none())))
    }

    fn serialize_tuple_struct(self, _name: &'static str, _len: usize) -> Result<LocatingParts<'a>> {
        Ok(LocatingParts::new(self, Written::List(Misfits::none())))
    }

    fn serialize_tuple_variant(
        self,
        _name: &'static str,
        _index: u32,
        variant: &'static str,
        _len: usize,
    ) -> Result<LocatingParts<'a>> {
        Ok(LocatingParts::under(self, variant))
    }

    fn serialize_map(self, _len: Option<usize>) -> Result<LocatingParts<'a>> {
        Ok(LocatingParts::new(self, Written::Other))
    }

    fn serialize_struct(self, _name: &'static str, _len: usize) -> Result<LocatingParts<'a>> {
        Ok(LocatingParts::new(self, Written::Other))
    }

    fn serialize_struct_variant(
        self,
        _name: &'static str,
        _index: u32,
        variant: &'static str,
        _len: usize,
    ) -> Result<LocatingParts<'a>> {
        Ok(LocatingParts::under(self, variant))
    }
}
