ghost use Rattle.std.specs.Prelude.{◌≡◌, false, [], string_bytes};
ghost use Rattle.dynamo_value.specs.Kind.{fault_of};
ghost use Rattle.dynamo_de.specs.Shown.{shown};
ghost use Rattle.dynamo_leaf.specs.Outright.{ShowsOutright, NamesOutright};
ghost use Rattle.dynamo_leaf.specs.Readers.{text_source, name_chosen};

use crate::{
    KeyText, LeafReader, NoElements, NoEntries, NumberText, PlainText, TextKind, VariantName, raise,
};
use dynamo_de::{Reader, Request, Showing};
use dynamo_value::{Error, ErrorImpl, Result};
use std::alloc::Global;
use std::marker::PhantomData;

/// The reader of the key of a map. It shows what [`show_key`](crate::show_key) returns, with the
/// same errors.
pub type DeserializerMapKey = TextDeserializer<KeyText>;

/// The reader of an element of a set of numbers. It shows what [`show_number`](crate::show_number)
/// returns. Its errors are [`ErrorImpl::FailedToParseInt`] and [`ErrorImpl::FailedToParseFloat`],
/// with the string.
pub type DeserializerNumber = TextDeserializer<NumberText>;

/// The reader of an element of a set of strings, or of the name of a variant. It shows the string,
/// or the variant of this name for an enum. It never fails.
pub type StringDeserializer = TextDeserializer<PlainText>;

/// How the string of a reader is read. A reader of a key or a name inside another has the same
/// type.
#[derive(Drop)]
enum Place {
    /// As its kind says.
    Own,
    /// As the key of a map.
    Key,
    /// As the name of a variant.
    Name,
}

/// The reader of a single string: the key of a map, a number or a plain string. It shows what
/// [`TextKind::show_text`] of its kind returns, with the same errors.
#[derive(Drop)]
pub struct TextDeserializer<P> {
    alloc: Global,
    text: String,
    place: Place,
    of: PhantomData<P>,
}

impl<P: TextKind> TextDeserializer<P> {
    /// Returns the reader of this string. It allocates nothing. A value that is read from it is
    /// allocated in `alloc`.
    pub fn from_string(alloc: Global, text: String) -> Self
        ensures { text_source P.of_text result ≡ P.of_text (string_bytes text) }
    {
        TextDeserializer {
            alloc,
            text,
            place: Place::Own,
            of: PhantomData,
        }
    }
}

// A number is neither a key nor a name, and a plain string isn't a key. Both functions are here so
// that `raise` serves every kind.
impl<P: TextKind> LeafReader for TextDeserializer<P> {
    type Choice = VariantName;

    ghost leaf_source = { text_source P.of_text };

    ghost leaf_chosen = { name_chosen };

    fn of_key(alloc: Global, text: String) -> Self {
        TextDeserializer {
            alloc,
            text,
            place: Place::Key,
            of: PhantomData,
        }
    }

    fn of_name(alloc: Global, text: String) -> VariantName {
        VariantName { alloc, text }
    }
}

impl<P: TextKind> Reader for TextDeserializer<P> {
    type Error = Error;

    type Elements = NoElements;

    type Entries = NoEntries;

    type Choice = VariantName;

    ghost source = { text_source P.of_text };

    ghost elements = { λ _. [] };

    ghost counted = { λ _. false };

    ghost entries = { λ _. [] };

    ghost chosen = { name_chosen };

    fn alloc(&self) -> Global {
        self.alloc
    }

    fn show(self, request: Request) -> Result<Showing<Self, NoElements, NoEntries, VariantName>>
        ensures { ShowsOutright fault_of (text_source P.of_text) name_chosen
            (shown request (text_source P.of_text self)) result }
    {
        let TextDeserializer {
            alloc,
            text,
            place,
            ..
        } = self;
        let (leaf, text) = match place {
            Place::Own => P::show_text(request, text)?,
            Place::Key => KeyText::show_text(request, text)?,
            Place::Name => PlainText::show_text(request, text)?,
        };
        Ok(raise(alloc, leaf, text))
    }

    fn next_element(_rest: &mut NoElements) -> Option<Self> {
        None
    }

    fn next_entry(_rest: &mut NoEntries) -> Option<(Self, Self)> {
        None
    }

    fn choose(choice: VariantName) -> Result<(Self, Option<Self>)>
        ensures { NamesOutright fault_of (text_source P.of_text) (name_chosen choice) result }
    {
        let VariantName { alloc, text } = choice;
        let name = TextDeserializer {
            alloc,
            text,
            place: Place::Name,
            of: PhantomData,
        };
        Ok((name, None))
    }

    fn value_before_key() -> Error {
        Error::from(ErrorImpl::MapValueBeforeKey)
    }

    fn more_than_one_char() -> Error {
        Error::from(ErrorImpl::ExpectedChar)
    }

    fn elements_left(_rest: &NoElements) -> Option<usize> {
        None
    }

    fn entries_left(_rest: &NoEntries) -> Option<usize> {
        None
    }
}
