ghost use Rattle.std.specs.Prelude.{◌≡◌, true, length, Some, string_bytes};
ghost use Rattle.dynamo_value.specs.Av as av;
ghost use Rattle.dynamo_value.specs.Fault.{expected_char, map_value_before_key};
ghost use Rattle.dynamo_value.specs.Kind.{fault_of};
ghost use Rattle.dynamo_value.specs.View.{members_view, view};
ghost use Rattle.dynamo_de.specs.Access.{Hints};
ghost use Rattle.dynamo_de.specs.Shown.{shown};
ghost use Rattle.dynamo_de.specs.Shows.{ShowsSurface};
ghost use Rattle.dynamo_de.specs.Source.{attribute, key_text, plain_text};
ghost use Rattle.dynamo_read.specs.Lent.{IsLentShown, LentCounted, lent_chosen, lent_counted};
ghost use Rattle.dynamo_read.specs.Lent.{lent_elements, lent_entries, lent_source};
ghost use Rattle.dynamo_read.specs.Outright.{OutrightButCopies};
ghost use Rattle.dynamo_read.specs.Reader.{asks_elements, IfElements};

use crate::entries::only_lent;
use crate::lent_show::{self, LentShown};
use crate::lent_unread::{LentChoice, LentElements, LentEntries, LentForm, LentRest};
use dynamo_de::{Inside, Reader, Request, Showing, Surface};
use dynamo_value::{AttributeValue, Error, ErrorImpl, Result};
use std::alloc::Global;
use std::collections::HashMap;

/// The reader of a borrowed attribute value and of its parts.
///
/// It shows what a [`Deserializer`](crate::Deserializer) of an equal value shows, with the same
/// errors. These are copied when they are shown: a string, a byte string, the string of a number
/// that no 64-bit integer holds, and the string that an error holds. A map allocates the list of
/// its entries, which are read in ascending order of the bytes of their keys. Nothing else
/// allocates: neither an integer, nor any other error, nor a string or a byte string that is
/// ignored.
///
/// # Examples
///
/// ```rust
/// use serde_dynamo::de::Deserialize;
/// use serde_dynamo::{AttributeValue, LentDeserializer};
///
/// let value = AttributeValue::Bool(true);
/// let reader = LentDeserializer::from_attribute_value(alloc, &value);
/// assert!(rt; bool::deserialize(alloc, reader)?);
/// ```
#[derive(Drop)]
pub struct LentDeserializer<'a> {
    alloc: Global,
    source: LentSource<'a>,
}

/// An attribute value, or the map that is one; or, inside of one, the key of a map, an element of a
/// set of numbers or of byte strings, and a plain string, which is an element of a set of strings
/// or the name of a variant. Each is borrowed.
#[derive(Drop)]
enum LentSource<'a> {
    AttributeValue(&'a AttributeValue),
    Map(&'a HashMap<String, AttributeValue>),
    KeyText(&'a String),
    NumberText(&'a String),
    ByteString(&'a Vec<u8>),
    PlainText(&'a String),
}

impl<'a> LentDeserializer<'a> {
    /// Returns the reader of this attribute value. It allocates nothing. A value that is read from
    /// it is allocated in `alloc`.
    pub fn from_attribute_value(alloc: Global, value: &'a AttributeValue) -> Self
        ensures { lent_source result ≡ attribute (view value.now) }
    {
        LentDeserializer {
            alloc,
            source: LentSource::AttributeValue(value),
        }
    }

    /// Returns the reader of the attribute value that is this map. It allocates nothing. A value
    /// that is read from it is allocated in `alloc`.
    pub fn from_map(alloc: Global, map: &'a HashMap<String, AttributeValue>) -> Self
        ensures { lent_source result ≡ attribute (av.M (members_view map.now.entries)) }
    {
        LentDeserializer {
            alloc,
            source: LentSource::Map(map),
        }
    }

    // The reader of this key. It allocates nothing.
    pub(crate) fn from_key_text(alloc: Global, text: &'a String) -> Self
        ensures { lent_source result ≡ key_text (string_bytes text.now) }
    {
        LentDeserializer {
            alloc,
            source: LentSource::KeyText(text),
        }
    }

    // The reader of this plain string. It allocates nothing.
    fn from_plain_text(alloc: Global, text: &'a String) -> Self
        ensures { lent_source result ≡ plain_text (string_bytes text.now) }
    {
        LentDeserializer {
            alloc,
            source: LentSource::PlainText(text),
        }
    }
}

// What a source that isn't a string shows for a string's request, without its contents.
#[inline(never)]
fn other_surface(reader: LentDeserializer<'_>, request: Request) -> Result<Surface>
    ensures shown { ShowsSurface fault_of (shown request (lent_source reader.entry)) result }
    ensures outright { OutrightButCopies (shown request (lent_source reader.entry)) result }
{
    Ok(reader.show(request)?.surface())
}

impl<'a> Reader for LentDeserializer<'a> {
    type Error = Error;

    type Elements = LentElements<'a>;

    type Entries = LentEntries<'a>;

    type Choice = LentChoice<'a>;

    ghost source = { lent_source };

    ghost elements = { lent_elements };

    ghost counted = { lent_counted };

    ghost entries = { lent_entries };

    ghost counted_entries = { λ _. true };

    ghost chosen = { lent_chosen };

    fn alloc(&self) -> Global {
        self.alloc
    }

    #[inline(always)]
    fn text(&self) -> Option<&str> {
        match &self.source {
            LentSource::KeyText(text) | LentSource::PlainText(text) => Some(text.as_str()),
            _ => None,
        }
    }

    /// Returns what the source holds. The elements of a list are counted, those of a set aren't.
    /// Memory can run out only where a string or bytes are copied, or the entries of a map are
    /// listed.
    #[inline(always)]
    fn show(self, request: Request) -> Result<LentShown<'a>>
        ensures shown { IsLentShown (shown request (lent_source self.entry)) result }
        ensures counted { asks_elements request ≡ true
            → IfElements (LentCounted (lent_source self.entry)) result }
        ensures outright { OutrightButCopies (shown request (lent_source self.entry)) result }
    {
        let alloc = self.alloc;
        match self.source {
            LentSource::AttributeValue(value) => lent_show::attribute_value(alloc, request, value),
            LentSource::Map(map) => lent_show::map_value(alloc, request, map),
            LentSource::KeyText(text) => lent_show::key_text(alloc, request, text),
            LentSource::NumberText(text) => lent_show::number_text(alloc, request, text),
            LentSource::ByteString(bytes) => lent_show::byte_string(alloc, bytes),
            LentSource::PlainText(text) => lent_show::plain_text(alloc, request, text),
        }
    }

    /// Returns the same without its contents. A string is returned at once for a string's request.
    #[inline(always)]
    fn surface(self, request: Request) -> Result<Surface>
        ensures shown { ShowsSurface fault_of (shown request (lent_source self.entry)) result }
        ensures outright { OutrightButCopies (shown request (lent_source self.entry)) result }
    {
        let LentDeserializer { alloc, source } = self;
        match (request, source) {
            (
                Request::Str | Request::String | Request::Identifier,
                LentSource::AttributeValue(AttributeValue::S(text))
                | LentSource::KeyText(text)
                | LentSource::PlainText(text),
            ) => Ok(Showing::Text(text.clone()?)),
            (request, source) => other_surface(LentDeserializer { alloc, source }, request),
        }
    }

    /// Returns the contents of an ignored source. It copies only a string that isn't a number, for
    /// the error.
    #[inline(always)]
    fn inside(self) -> Result<Inside<LentElements<'a>, LentEntries<'a>>> {
        let alloc = self.alloc;
        match self.source {
            LentSource::AttributeValue(value) => lent_show::inside(alloc, value),
            LentSource::Map(map) => Ok(Inside::Entries(LentEntries::of_map(alloc, map)?)),
            LentSource::NumberText(text) => lent_show::inside_number(text),
            LentSource::KeyText(_) | LentSource::ByteString(_) | LentSource::PlainText(_) => {
                Ok(Inside::Nothing)
            }
        }
    }

    #[inline(always)]
    fn next_element(rest: &mut LentElements<'a>) -> Option<LentDeserializer<'a>> {
        let alloc = rest.alloc;
        let source = match &mut rest.rest {
            LentRest::Values(values) => LentSource::AttributeValue(values.next()?),
            LentRest::Texts(texts) => LentSource::PlainText(texts.next()?),
            LentRest::Numbers(numbers) => LentSource::NumberText(numbers.next()?),
            LentRest::ByteStrings(byte_strings) => LentSource::ByteString(byte_strings.next()?),
        };
        Some(LentDeserializer { alloc, source })
    }

    #[inline(always)]
    fn next_entry(
        rest: &mut LentEntries<'a>,
    ) -> Option<(LentDeserializer<'a>, LentDeserializer<'a>)> {
        let alloc = rest.alloc;
        let (key, value) = rest.rest.next()?;
        let key = LentDeserializer::from_key_text(alloc, key);
        Some((key, LentDeserializer::from_attribute_value(alloc, value)))
    }

    fn choose(
        choice: LentChoice<'a>,
    ) -> Result<(LentDeserializer<'a>, Option<LentDeserializer<'a>>)> {
        let alloc = choice.alloc;
        match choice.form {
            LentForm::Name(name) => Ok((LentDeserializer::from_plain_text(alloc, name), None)),
            LentForm::Map(map) => {
                let (name, content) = only_lent(map)?;
                let content = LentDeserializer::from_attribute_value(alloc, content);
                Ok((
                    LentDeserializer::from_plain_text(alloc, name),
                    Some(content),
                ))
            }
        }
    }

    fn value_before_key() -> Error
        ensures { fault_of result ≡ map_value_before_key }
    {
        Error::from(ErrorImpl::MapValueBeforeKey)
    }

    fn more_than_one_char() -> Error
        ensures { fault_of result ≡ expected_char }
    {
        Error::from(ErrorImpl::ExpectedChar)
    }

    /// Returns the number of remaining elements of a list. Those of a set aren't counted.
    #[tactic(auto, using(crate::proofs::Views::length_values))]
    fn elements_left(rest: &LentElements<'a>) -> Option<usize> {
        match &rest.rest {
            LentRest::Values(values) => Some(values.len()),
            LentRest::Texts(_) | LentRest::Numbers(_) | LentRest::ByteStrings(_) => None,
        }
    }

    /// Returns the number of remaining entries.
    fn entries_left(rest: &LentEntries<'a>) -> Option<usize>
        ensures hint { Hints (lent_entries rest.now) result }
        ensures exact { result ≡ Some (length (lent_entries rest.now)) }
    {
        Some(rest.rest.len())
    }
}
