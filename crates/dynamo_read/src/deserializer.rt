ghost use Rattle.std.specs.Prelude.{◌≡◌, true, length, Some, string_bytes};
ghost use Rattle.dynamo_value.specs.Kind.{fault_of};
ghost use Rattle.dynamo_value.specs.View.{view};
ghost use Rattle.dynamo_de.specs.Access.{Hints};
ghost use Rattle.dynamo_de.specs.Shown.{shown};
ghost use Rattle.dynamo_de.specs.Shows.{ShowsSurface};
ghost use Rattle.dynamo_de.specs.Source.{attribute, plain_text};
ghost use Rattle.dynamo_read.specs.Outright.{OutrightButEntries};
ghost use Rattle.dynamo_read.specs.Reader.{source_of, IsShown, asks_elements, Counted, IfElements};
ghost use Rattle.dynamo_read.specs.Unread.{elements_left, elements_counted, entries_left};
ghost use Rattle.dynamo_read.specs.Unread.{chosen_of};

use crate::entries::single_entry;
use crate::show::{self, Shown};
use crate::unread::{Choice, Elements, Entries, Form, Rest};
use dynamo_de::{Reader, Request, Showing, Surface};
use dynamo_leaf::LeafReader;
use dynamo_value::{AttributeValue, Error, ErrorImpl, Result};
use std::alloc::Global;

/// The reader of an attribute value and of its parts.
///
/// A number shows the integer type that is asked for. An option is `None` for `NULL` with true, and
/// otherwise the content is the same value. A struct is read from a map, or from a list of its
/// fields. An enum is read from a string, or from a map of one entry. A list and each kind of set
/// are sequences. A map is read in ascending order of the bytes of its keys, and allocates the list
/// of its entries. The definition `attribute_shown` of `dynamo_de`'s `specs/Shown.antt` has every
/// case.
///
/// # Examples
///
/// ```rust
/// use serde_dynamo::de::Deserialize;
/// use serde_dynamo::{AttributeValue, Deserializer};
///
/// let reader = Deserializer::from_attribute_value(alloc, AttributeValue::Bool(true));
/// assert!(rt; bool::deserialize(alloc, reader)?);
/// ```
#[derive(Drop)]
pub struct Deserializer {
    alloc: Global,
    source: Source,
}

/// An attribute value; or, inside of one, the key of a map, an element of a set of numbers or of
/// byte strings, and a plain text, which is an element of a set of strings or the name of a
/// variant.
#[derive(Drop)]
enum Source {
    AttributeValue(AttributeValue),
    KeyText(String),
    NumberText(String),
    ByteString(Vec<u8>),
    PlainText(String),
}

impl Deserializer {
    /// Returns the reader of this attribute value. It allocates nothing. A value that is read from
    /// it is allocated in `alloc`.
    pub fn from_attribute_value(alloc: Global, value: AttributeValue) -> Self
        ensures { source_of result ≡ attribute (view value) }
    {
        Deserializer {
            alloc,
            source: Source::AttributeValue(value),
        }
    }

    // The reader of this plain string. It allocates nothing.
    pub(crate) fn from_plain_text(alloc: Global, text: String) -> Self
        ensures { source_of result ≡ plain_text (string_bytes text) }
    {
        Deserializer {
            alloc,
            source: Source::PlainText(text),
        }
    }
}

// What a source that isn't a string shows for a string's request, without its contents.
#[inline(never)]
fn other_surface(reader: Deserializer, request: Request) -> Result<Surface>
    ensures shown { ShowsSurface fault_of (shown request (source_of reader)) result }
    ensures outright { OutrightButEntries (shown request (source_of reader)) result }
{
    Ok(reader.show(request)?.surface())
}

impl LeafReader for Deserializer {
    type Choice = Choice;

    ghost leaf_source = { source_of };

    ghost leaf_chosen = { chosen_of };

    fn of_key(alloc: Global, text: String) -> Deserializer {
        Deserializer {
            alloc,
            source: Source::KeyText(text),
        }
    }

    fn of_name(alloc: Global, text: String) -> Choice {
        Choice::name(alloc, text)
    }
}

impl Reader for Deserializer {
    type Error = Error;

    type Elements = Elements;

    type Entries = Entries;

    type Choice = Choice;

    ghost source = { source_of };

    ghost elements = { elements_left };

    ghost counted = { elements_counted };

    ghost entries = { entries_left };

    ghost counted_entries = { λ _. true };

    ghost chosen = { chosen_of };

    fn alloc(&self) -> Global {
        self.alloc
    }

    #[inline(always)]
    fn text(&self) -> Option<&str> {
        match &self.source {
            Source::KeyText(text) | Source::PlainText(text) => Some(text.as_str()),
            _ => None,
        }
    }

    /// Returns what the source holds. The elements of a list are counted, those of a set aren't. It
    /// allocates nothing but the list of a map's entries.
    #[inline(always)]
    fn show(self, request: Request) -> Result<Shown>
        ensures shown { IsShown (shown request (source_of self)) result }
        ensures counted { asks_elements request ≡ true
            → IfElements (Counted (source_of self)) result }
        ensures outright { OutrightButEntries (shown request (source_of self)) result }
    {
        let alloc = self.alloc;
        match self.source {
            Source::AttributeValue(value) => show::attribute_value(alloc, request, value),
            Source::KeyText(text) => show::key_text(alloc, request, text),
            Source::NumberText(text) => show::number_text(alloc, request, text),
            Source::ByteString(bytes) => Ok(Showing::Bytes(bytes)),
            Source::PlainText(text) => show::plain_text(alloc, request, text),
        }
    }

    /// Returns the same without its contents. A string is returned at once for a string's request.
    #[inline(always)]
    fn surface(self, request: Request) -> Result<Surface>
        ensures shown { ShowsSurface fault_of (shown request (source_of self)) result }
        ensures outright { OutrightButEntries (shown request (source_of self)) result }
    {
        let Deserializer { alloc, source } = self;
        match (request, source) {
            (
                Request::Str | Request::String | Request::Identifier,
                Source::AttributeValue(AttributeValue::S(text))
                | Source::KeyText(text)
                | Source::PlainText(text),
            ) => Ok(Showing::Text(text)),
            (request, source) => other_surface(Deserializer { alloc, source }, request),
        }
    }

    #[inline(always)]
    fn next_element(rest: &mut Elements) -> Option<Deserializer> {
        let alloc = rest.alloc;
        let source = match &mut rest.rest {
            Rest::Values(values) => Source::AttributeValue(values.next()?),
            Rest::Texts(texts) => Source::PlainText(texts.next()?),
            Rest::Numbers(numbers) => Source::NumberText(numbers.next()?),
            Rest::ByteStrings(byte_strings) => Source::ByteString(byte_strings.next()?),
        };
        Some(Deserializer { alloc, source })
    }

    #[inline(always)]
    fn next_entry(rest: &mut Entries) -> Option<(Deserializer, Deserializer)> {
        let alloc = rest.alloc;
        let (key, value) = rest.rest.next()?;
        let key = Deserializer {
            alloc,
            source: Source::KeyText(key),
        };
        Some((key, Deserializer::from_attribute_value(alloc, value)))
    }

    fn choose(choice: Choice) -> Result<(Deserializer, Option<Deserializer>)> {
        let alloc = choice.alloc;
        match choice.form {
            Form::Name(name) => Ok((Deserializer::from_plain_text(alloc, name), None)),
            Form::Map(map) => {
                let (name, content) = single_entry(map)?;
                let content = Deserializer::from_attribute_value(alloc, content);
                Ok((Deserializer::from_plain_text(alloc, name), Some(content)))
            }
        }
    }

    fn value_before_key() -> Error {
        Error::from(ErrorImpl::MapValueBeforeKey)
    }

    fn more_than_one_char() -> Error {
        Error::from(ErrorImpl::ExpectedChar)
    }

    /// Returns the number of remaining elements of a list. Those of a set aren't counted.
    #[tactic(auto, using(crate::proofs::Views::length_values))]
    fn elements_left(rest: &Elements) -> Option<usize> {
        match &rest.rest {
            Rest::Values(values) => Some(values.len()),
            Rest::Texts(_) | Rest::Numbers(_) | Rest::ByteStrings(_) => None,
        }
    }

    /// Returns the number of remaining entries.
    fn entries_left(rest: &Entries) -> Option<usize>
        ensures hint { Hints (entries_left rest.now) result }
        ensures exact { result ≡ Some (length (entries_left rest.now)) }
    {
        Some(rest.rest.len())
    }
}
