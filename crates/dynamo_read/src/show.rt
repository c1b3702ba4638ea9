ghost use Rattle.std.specs.Prelude.{◌≡◌, ℕ, true, List, Option, Some, Result, string_bytes};
ghost use Rattle.std.specs.Str.{chars};
ghost use Rattle.dynamo_value.specs.Fault.{Fault};
ghost use Rattle.dynamo_value.specs.Kind.{fault_of};
ghost use Rattle.dynamo_value.specs.View.{view};
ghost use Rattle.dynamo_value.specs.IntegerTypes.{kind_of};
ghost use Rattle.dynamo_de.specs.Shown.{any_shown, num_shown, bool_shown, char_shown, chars_shown};
ghost use Rattle.dynamo_de.specs.Shown.{text_shown, bytes_shown, option_shown, null_shown};
ghost use Rattle.dynamo_de.specs.Shown.{seq_shown, map_shown, struct_shown, enum_shown};
ghost use Rattle.dynamo_de.specs.Shown.{attribute_shown, number_text_shown, key_shown};
ghost use Rattle.dynamo_de.specs.Shown.{plain_text_shown};
ghost use Rattle.dynamo_de.specs.Shows.{Shows, seen};
ghost use Rattle.dynamo_de.specs.Source.{Source, Entry, attribute};
ghost use Rattle.dynamo_leaf.specs.Leaf.{leaf_showing};
ghost use Rattle.dynamo_read.specs.Outright.{RefusesOutright, OutrightButEntries};
ghost use Rattle.dynamo_read.specs.Reader.{source_of, IsShown, asks_elements, Counted, IfElements};
ghost use Rattle.dynamo_read.specs.Unread.{elements_left, entries_left, chosen_of};

use crate::deserializer::Deserializer;
use crate::unread::{Choice, Elements, Entries};
use dynamo_de::{IntegerKind, Request, Showing};
use dynamo_leaf::{KeyText, Leaf, NumberText, PlainText, TextKind, raise};
use dynamo_value::{AttributeValue, Error, ErrorImpl, Result};
use std::alloc::Global;
use std::collections::HashMap;

pub(crate) type Shown = Showing<Deserializer, Elements, Entries, Choice>;

// What an attribute value shows at each request.
#[inline(always)]
pub(crate) fn attribute_value(
    alloc: Global,
    request: Request,
    value: AttributeValue,
) -> Result<Shown>
    ensures shown { IsShown (attribute_shown request (view value)) result }
    ensures counted { asks_elements request ≡ true
        → IfElements (Counted (attribute (view value))) result }
    ensures outright { OutrightButEntries (attribute_shown request (view value)) result }
{
    match request {
        Request::Any | Request::IgnoredAny => any(alloc, value),
        Request::Bool => boolean(&value),
        Request::Integer(kind) => number(alloc, kind, value),
        Request::Char => character(&value),
        Request::Str | Request::String | Request::Identifier => text(value),
        Request::Bytes | Request::ByteBuf => bytes(value),
        Request::Option => option(alloc, value),
        Request::Unit => null(ErrorImpl::ExpectedUnit, &value),
        Request::UnitStruct => null(ErrorImpl::ExpectedUnitStruct, &value),
        Request::NewtypeStruct => Ok(Showing::Newtype(Deserializer::from_attribute_value(
            alloc, value,
        ))),
        Request::Seq | Request::Tuple | Request::TupleStruct => sequence(alloc, value),
        Request::Map => map(alloc, value),
        Request::Struct => structure(alloc, value),
        Request::Enum => enumeration(alloc, value),
    }
}

// Whatever is there.
fn any(alloc: Global, value: AttributeValue) -> Result<Shown>
    ensures shown { IsShown (any_shown (view value)) result }
    ensures counted { IfElements (Counted (attribute (view value))) result }
    ensures outright { OutrightButEntries (any_shown (view value)) result }
{
    match value {
        AttributeValue::N(text) => number_text(alloc, Request::Any, text),
        AttributeValue::S(text) => Ok(Showing::Text(text)),
        AttributeValue::Bool(b) => Ok(Showing::Bool(b)),
        AttributeValue::B(bytes) => Ok(Showing::Bytes(bytes)),
        AttributeValue::Null(true) => Ok(Showing::Unit),
        AttributeValue::Null(false) => Err(Error::from(ErrorImpl::ExpectedUnit)),
        AttributeValue::M(map) => Ok(Showing::Map(Entries::of_map(alloc, map)?)),
        list_or_set @ (AttributeValue::L(_)
        | AttributeValue::Ss(_)
        | AttributeValue::Ns(_)
        | AttributeValue::Bs(_)) => sequence(alloc, list_or_set),
    }
}

// An integer of the kind that is asked for.
#[inline(always)]
fn number(alloc: Global, kind: IntegerKind, value: AttributeValue) -> Result<Shown>
    ensures shown { IsShown (num_shown (kind_of kind) (view value)) result }
    ensures outright { OutrightButEntries (num_shown (kind_of kind) (view value)) result }
{
    match value {
        AttributeValue::N(text) => number_text(alloc, Request::Integer(kind), text),
        _other => Err(Error::from(ErrorImpl::ExpectedNum)),
    }
}

// A boolean.
#[inline(always)]
pub(crate) fn boolean<D, L, M, C>(value: &AttributeValue) -> Result<Showing<D, L, M, C>>
    ensures shown { (source : D → Source) (elements : L → List Source) (entries : M → List Entry)
        (variants : C → Result (List ℕ × Option Source) Fault)
        → Shows fault_of source elements entries variants (bool_shown (view value.now)) result }
    ensures outright { RefusesOutright (bool_shown (view value.now)) result }
{
    match value {
        AttributeValue::Bool(b) => Ok(Showing::Bool(*b)),
        _other => Err(Error::from(ErrorImpl::ExpectedBool)),
    }
}

// The one character of a string.
#[inline(always)]
pub(crate) fn character<D, L, M, C>(value: &AttributeValue) -> Result<Showing<D, L, M, C>>
    ensures shown { (source : D → Source) (elements : L → List Source) (entries : M → List Entry)
        (variants : C → Result (List ℕ × Option Source) Fault)
        → Shows fault_of source elements entries variants (char_shown (view value.now)) result }
    ensures outright { RefusesOutright (char_shown (view value.now)) result }
{
    match value {
        AttributeValue::S(text) => only_char(text.as_str()),
        _other => Err(Error::from(ErrorImpl::ExpectedChar)),
    }
}

// The one character of a string; the first where there are more, which a visitor may refuse for
// what it is.
#[tactic(auto, using(crate::proofs::Characters::only_one, crate::proofs::Characters::first_of_more))]
fn only_char<D, L, M, C>(text: &str) -> Result<Showing<D, L, M, C>>
    ensures shown { (source : D → Source) (elements : L → List Source) (entries : M → List Entry)
        (variants : C → Result (List ℕ × Option Source) Fault)
        → Shows fault_of source elements entries variants (chars_shown (chars text.now)) result }
    ensures outright { RefusesOutright (chars_shown (chars text.now)) result }
{
    let mut chars = text.chars();
    let Some(first) = chars.next() else {
        return Err(Error::from(ErrorImpl::ExpectedChar));
    };
    match chars.next() {
        None => Ok(Showing::Char(first)),
        Some(_) => Ok(Showing::FirstChar(first)),
    }
}

// A string.
#[inline(always)]
fn text(value: AttributeValue) -> Result<Shown>
    ensures shown { IsShown (text_shown (view value)) result }
    ensures outright { RefusesOutright (text_shown (view value)) result }
{
    match value {
        AttributeValue::S(text) => Ok(Showing::Text(text)),
        _other => Err(Error::from(ErrorImpl::ExpectedString)),
    }
}

// A byte string.
#[inline(always)]
fn bytes(value: AttributeValue) -> Result<Shown>
    ensures shown { IsShown (bytes_shown (view value)) result }
    ensures outright { RefusesOutright (bytes_shown (view value)) result }
{
    match value {
        AttributeValue::B(bytes) => Ok(Showing::Bytes(bytes)),
        _other => Err(Error::from(ErrorImpl::ExpectedBytes)),
    }
}

// An option: none where `NULL` is true, and else the same value as its content, also where `NULL`
// is false.
#[inline(always)]
fn option(alloc: Global, value: AttributeValue) -> Result<Shown>
    ensures shown { IsShown (option_shown (view value)) result }
    ensures outright { RefusesOutright (option_shown (view value)) result }
{
    match value {
        AttributeValue::Null(true) => Ok(Showing::None),
        content => Ok(Showing::Some(Deserializer::from_attribute_value(alloc, content))),
    }
}

// Null, or the fault.
#[inline(always)]
pub(crate) fn null<D, L, M, C>(
    otherwise: ErrorImpl,
    value: &AttributeValue,
) -> Result<Showing<D, L, M, C>>
    ensures shown { (source : D → Source) (elements : L → List Source) (entries : M → List Entry)
        (variants : C → Result (List ℕ × Option Source) Fault)
        → Shows fault_of source elements entries variants
        (null_shown (fault_of otherwise) (view value.now)) result }
    ensures outright { RefusesOutright (null_shown (fault_of otherwise) (view value.now)) result }
{
    match value {
        AttributeValue::Null(true) => Ok(Showing::Unit),
        _other => Err(Error::from(otherwise)),
    }
}

// A list, or a set of whatever kind.
fn sequence(alloc: Global, value: AttributeValue) -> Result<Shown>
    ensures shown { IsShown (seq_shown (view value)) result }
    ensures counted { IfElements (Counted (attribute (view value))) result }
    ensures outright { RefusesOutright (seq_shown (view value)) result }
{
    match value {
        AttributeValue::L(values) => Ok(Showing::Sequence(Elements::values(alloc, values))),
        AttributeValue::Ss(texts) => Ok(Showing::Sequence(Elements::texts(alloc, texts))),
        AttributeValue::Ns(numbers) => Ok(Showing::Sequence(Elements::numbers(alloc, numbers))),
        AttributeValue::Bs(byte_strings) => Ok(Showing::Sequence(Elements::byte_strings(
            alloc,
            byte_strings,
        ))),
        _other => Err(Error::from(ErrorImpl::ExpectedSeq)),
    }
}

// A map.
#[inline(always)]
fn map(alloc: Global, value: AttributeValue) -> Result<Shown>
    ensures shown { IsShown (map_shown (view value)) result }
    ensures outright { OutrightButEntries (map_shown (view value)) result }
{
    match value {
        AttributeValue::M(map) => Ok(Showing::Map(Entries::of_map(alloc, map)?)),
        _other => Err(Error::from(ErrorImpl::ExpectedMap)),
    }
}

// A map, or a list with the fields in order; no set.
#[inline(always)]
fn structure(alloc: Global, value: AttributeValue) -> Result<Shown>
    ensures shown { IsShown (struct_shown (view value)) result }
    ensures counted { IfElements (Counted (attribute (view value))) result }
    ensures outright { OutrightButEntries (struct_shown (view value)) result }
{
    match value {
        AttributeValue::L(values) => Ok(Showing::Sequence(Elements::values(alloc, values))),
        map_or_other => map(alloc, map_or_other),
    }
}

// A variant, by its name alone or by a map of its name to its content.
#[inline(always)]
fn enumeration(alloc: Global, value: AttributeValue) -> Result<Shown>
    ensures shown { IsShown (enum_shown (view value)) result }
    ensures outright { RefusesOutright (enum_shown (view value)) result }
{
    match value {
        AttributeValue::S(name) => Ok(Showing::Enum(Choice::name(alloc, name))),
        AttributeValue::M(map) => Ok(Showing::Enum(Choice::map(alloc, map))),
        _other => Err(Error::from(ErrorImpl::ExpectedEnum)),
    }
}

// What the string of a number shows.
pub(crate) fn number_text(alloc: Global, request: Request, text: String) -> Result<Shown>
    ensures shown { IsShown (number_text_shown request (string_bytes text)) result }
    ensures outright { RefusesOutright (number_text_shown request (string_bytes text)) result }
{
    let (leaf, text) = NumberText::show_text(request, text)?;
    Ok(of_leaf(alloc, leaf, text))
}

// What the key of a map shows.
#[inline(always)]
pub(crate) fn key_text(alloc: Global, request: Request, text: String) -> Result<Shown>
    ensures shown { IsShown (key_shown request (string_bytes text)) result }
    ensures outright { RefusesOutright (key_shown request (string_bytes text)) result }
{
    let (leaf, text) = KeyText::show_text(request, text)?;
    Ok(of_leaf(alloc, leaf, text))
}

// What a plain string shows.
#[inline(always)]
pub(crate) fn plain_text(alloc: Global, request: Request, text: String) -> Result<Shown>
    ensures shown { IsShown (plain_text_shown request (string_bytes text)) result }
    ensures outright { RefusesOutright (plain_text_shown request (string_bytes text)) result }
{
    let (leaf, text) = PlainText::show_text(request, text)?;
    Ok(of_leaf(alloc, leaf, text))
}

// What a single string shows, with readers around its contents.
#[inline(always)]
fn of_leaf(alloc: Global, leaf: Leaf, text: String) -> Shown
    ensures { seen source_of elements_left entries_left chosen_of result
        ≡ leaf_showing (string_bytes text) leaf }
{
    raise::<Deserializer, Elements, Entries>(alloc, leaf, text)
}
