ghost use Rattle.std.specs.Prelude.{◌≡◌, true, Ok, string_bytes};
ghost use Rattle.dynamo_value.specs.Av as av;
ghost use Rattle.dynamo_value.specs.Kind.{fault_of};
ghost use Rattle.dynamo_value.specs.View.{members_view, view};
ghost use Rattle.dynamo_de.specs.Inside.{ShowsInside};
ghost use Rattle.dynamo_value.specs.IntegerTypes.{kind_of};
ghost use Rattle.dynamo_de.specs.Shown.{any_shown, attribute_shown, bytes_shown, enum_shown};
ghost use Rattle.dynamo_de.specs.Shown.{key_shown, map_shown, num_shown};
ghost use Rattle.dynamo_de.specs.Shown.{number_shown, number_text_shown, option_shown};
ghost use Rattle.dynamo_de.specs.Shown.{plain_text_shown, seq_shown, struct_shown, text_shown};
ghost use Rattle.dynamo_de.specs.Showing as showing;
ghost use Rattle.dynamo_de.specs.Source.{attribute};
ghost use Rattle.dynamo_leaf.specs.Leaf.{leaf_showing};
ghost use Rattle.dynamo_read.specs.Lent.{IsLentShown, LentCounted, lent_elements, lent_entries};
ghost use Rattle.dynamo_read.specs.Outright.{OutrightButCopies, RefusesOutright};
ghost use Rattle.dynamo_read.specs.Reader.{asks_elements, IfElements};

use crate::lent_deserializer::LentDeserializer;
use crate::lent_unread::{LentChoice, LentElements, LentEntries};
use crate::show::{boolean, character, null};
use dynamo_de::{Inside, IntegerKind, Request, Showing};
use dynamo_leaf::{Leaf, show_key, show_number, show_plain_text};
use dynamo_value::{AttributeValue, Error, ErrorImpl, Result};
use std::alloc::Global;
use std::collections::HashMap;

pub(crate) type LentShown<'a> = Showing<
    LentDeserializer<'a>,
    LentElements<'a>,
    LentEntries<'a>,
    LentChoice<'a>,
>;

// What a borrowed attribute value shows at each request.
#[inline(always)]
pub(crate) fn attribute_value<'a>(
    alloc: Global,
    request: Request,
    value: &'a AttributeValue,
) -> Result<LentShown<'a>>
    ensures shown { IsLentShown (attribute_shown request (view value.now)) result }
    ensures counted { asks_elements request ≡ true
        → IfElements (LentCounted (attribute (view value.now))) result }
    ensures outright { OutrightButCopies (attribute_shown request (view value.now)) result }
{
    match request {
        Request::Any | Request::IgnoredAny => any(alloc, value),
        Request::Bool => boolean(value),
        Request::Integer(kind) => number(alloc, kind, value),
        Request::Char => character(value),
        Request::Str | Request::String | Request::Identifier => text(value),
        Request::Bytes | Request::ByteBuf => bytes(alloc, value),
        Request::Option => option(alloc, value),
        Request::Unit => null(ErrorImpl::ExpectedUnit, value),
        Request::UnitStruct => null(ErrorImpl::ExpectedUnitStruct, value),
        Request::NewtypeStruct => Ok(Showing::Newtype(LentDeserializer::from_attribute_value(
            alloc, value,
        ))),
        Request::Seq | Request::Tuple | Request::TupleStruct => sequence(alloc, value),
        Request::Map => map(alloc, value),
        Request::Struct => structure(alloc, value),
        Request::Enum => enumeration(alloc, value),
    }
}

// What the attribute value that is a borrowed map shows at each request.
pub(crate) fn map_value<'a>(
    alloc: Global,
    request: Request,
    map: &'a HashMap<String, AttributeValue>,
) -> Result<LentShown<'a>>
    ensures shown { IsLentShown (attribute_shown request (av.M (members_view map.now.entries)))
        result }
    ensures outright { OutrightButCopies
        (attribute_shown request (av.M (members_view map.now.entries))) result }
{
    let refusal = match request {
        Request::Any | Request::IgnoredAny | Request::Map | Request::Struct => {
            return Ok(Showing::Map(LentEntries::of_map(alloc, map)?));
        }
        Request::Option => return Ok(Showing::Some(LentDeserializer::from_map(alloc, map))),
        Request::NewtypeStruct => {
            return Ok(Showing::Newtype(LentDeserializer::from_map(alloc, map)));
        }
        Request::Enum => return Ok(Showing::Enum(LentChoice::map(alloc, map))),
        Request::Bool => ErrorImpl::ExpectedBool,
        Request::Char => ErrorImpl::ExpectedChar,
        Request::Str | Request::String | Request::Identifier => ErrorImpl::ExpectedString,
        Request::Bytes | Request::ByteBuf => ErrorImpl::ExpectedBytes,
        Request::Unit => ErrorImpl::ExpectedUnit,
        Request::UnitStruct => ErrorImpl::ExpectedUnitStruct,
        Request::Seq | Request::Tuple | Request::TupleStruct => ErrorImpl::ExpectedSeq,
        Request::Integer(_) => ErrorImpl::ExpectedNum,
    };
    Err(Error::from(refusal))
}

// Whatever is there.
fn any<'a>(alloc: Global, value: &'a AttributeValue) -> Result<LentShown<'a>>
    ensures shown { IsLentShown (any_shown (view value.now)) result }
    ensures counted { IfElements (LentCounted (attribute (view value.now))) result }
    ensures outright { OutrightButCopies (any_shown (view value.now)) result }
{
    match value {
        AttributeValue::N(number) => number_text(alloc, Request::Any, number),
        AttributeValue::S(text) => Ok(Showing::Text(text.clone()?)),
        AttributeValue::Bool(b) => Ok(Showing::Bool(*b)),
        AttributeValue::B(bytes) => byte_string(alloc, bytes),
        AttributeValue::Null(true) => Ok(Showing::Unit),
        AttributeValue::Null(false) => Err(Error::from(ErrorImpl::ExpectedUnit)),
        AttributeValue::M(map) => Ok(Showing::Map(LentEntries::of_map(alloc, map)?)),
        list_or_set => sequence(alloc, list_or_set),
    }
}

// The contents of an ignored value. It copies only a string that isn't a number, for the error.
pub(crate) fn inside<'a>(
    alloc: Global,
    value: &'a AttributeValue,
) -> Result<Inside<LentElements<'a>, LentEntries<'a>>>
    ensures { ShowsInside fault_of lent_elements lent_entries (any_shown (view value.now)) result }
{
    match value {
        AttributeValue::S(_) | AttributeValue::B(_) => Ok(Inside::Nothing),
        AttributeValue::N(number) => inside_number(number),
        not_copied => Ok(any(alloc, not_copied)?.inside()),
    }
}

// The same for the string of a number.
pub(crate) fn inside_number<'a>(
    text: &'a String,
) -> Result<Inside<LentElements<'a>, LentEntries<'a>>>
    ensures { ShowsInside fault_of lent_elements lent_entries (number_shown (string_bytes text.now))
        result }
{
    match show_number(Request::IgnoredAny, text.as_str()) {
        Ok(_) => Ok(Inside::Nothing),
        Err(no_number) => Err(no_number.of_text(text.clone()?)),
    }
}

// An integer of the kind that is asked for.
#[inline(always)]
fn number<'a>(alloc: Global, kind: IntegerKind, value: &'a AttributeValue) -> Result<LentShown<'a>>
    ensures shown { IsLentShown (num_shown (kind_of kind) (view value.now)) result }
    ensures outright { OutrightButCopies (num_shown (kind_of kind) (view value.now)) result }
{
    match value {
        AttributeValue::N(number) => number_text(alloc, Request::Integer(kind), number),
        _other => Err(Error::from(ErrorImpl::ExpectedNum)),
    }
}

// A string.
#[inline(always)]
fn text<'a>(value: &'a AttributeValue) -> Result<LentShown<'a>>
    ensures shown { IsLentShown (text_shown (view value.now)) result }
    ensures outright { OutrightButCopies (text_shown (view value.now)) result }
{
    match value {
        AttributeValue::S(text) => Ok(Showing::Text(text.clone()?)),
        _other => Err(Error::from(ErrorImpl::ExpectedString)),
    }
}

// A byte string.
#[inline(always)]
fn bytes<'a>(alloc: Global, value: &'a AttributeValue) -> Result<LentShown<'a>>
    ensures shown { IsLentShown (bytes_shown (view value.now)) result }
    ensures outright { OutrightButCopies (bytes_shown (view value.now)) result }
{
    match value {
        AttributeValue::B(bytes) => byte_string(alloc, bytes),
        _other => Err(Error::from(ErrorImpl::ExpectedBytes)),
    }
}

// An option: none where `NULL` is true, and else the same value as its content, also where `NULL`
// is false.
#[inline(always)]
fn option<'a>(alloc: Global, value: &'a AttributeValue) -> Result<LentShown<'a>>
    ensures shown { IsLentShown (option_shown (view value.now)) result }
    ensures outright { RefusesOutright (option_shown (view value.now)) result }
{
    match value {
        AttributeValue::Null(true) => Ok(Showing::None),
        content => Ok(Showing::Some(LentDeserializer::from_attribute_value(alloc, content))),
    }
}

// A list, or a set of whatever kind.
fn sequence<'a>(alloc: Global, value: &'a AttributeValue) -> Result<LentShown<'a>>
    ensures shown { IsLentShown (seq_shown (view value.now)) result }
    ensures counted { IfElements (LentCounted (attribute (view value.now))) result }
    ensures outright { RefusesOutright (seq_shown (view value.now)) result }
{
    match value {
        AttributeValue::L(values) => Ok(Showing::Sequence(LentElements::values(alloc, values))),
        AttributeValue::Ss(texts) => Ok(Showing::Sequence(LentElements::texts(alloc, texts))),
        AttributeValue::Ns(numbers) => {
            Ok(Showing::Sequence(LentElements::numbers(alloc, numbers)))
        }
        AttributeValue::Bs(byte_strings) => Ok(Showing::Sequence(LentElements::byte_strings(
            alloc,
            byte_strings,
        ))),
        _other => Err(Error::from(ErrorImpl::ExpectedSeq)),
    }
}

// A map.
#[inline(always)]
fn map<'a>(alloc: Global, value: &'a AttributeValue) -> Result<LentShown<'a>>
    ensures shown { IsLentShown (map_shown (view value.now)) result }
    ensures outright { OutrightButCopies (map_shown (view value.now)) result }
{
    match value {
        AttributeValue::M(map) => Ok(Showing::Map(LentEntries::of_map(alloc, map)?)),
        _other => Err(Error::from(ErrorImpl::ExpectedMap)),
    }
}

// A map, or a list with the fields in order; no set.
#[inline(always)]
fn structure<'a>(alloc: Global, value: &'a AttributeValue) -> Result<LentShown<'a>>
    ensures shown { IsLentShown (struct_shown (view value.now)) result }
    ensures counted { IfElements (LentCounted (attribute (view value.now))) result }
    ensures outright { OutrightButCopies (struct_shown (view value.now)) result }
{
    match value {
        AttributeValue::L(values) => Ok(Showing::Sequence(LentElements::values(alloc, values))),
        map_or_other => map(alloc, map_or_other),
    }
}

// A variant, by its name alone or by a map of its name to its content.
#[inline(always)]
fn enumeration<'a>(alloc: Global, value: &'a AttributeValue) -> Result<LentShown<'a>>
    ensures shown { IsLentShown (enum_shown (view value.now)) result }
    ensures outright { RefusesOutright (enum_shown (view value.now)) result }
{
    match value {
        AttributeValue::S(name) => Ok(Showing::Enum(LentChoice::name(alloc, name))),
        AttributeValue::M(map) => Ok(Showing::Enum(LentChoice::map(alloc, map))),
        _other => Err(Error::from(ErrorImpl::ExpectedEnum)),
    }
}

// What a borrowed byte string shows: a copy of its bytes.
pub(crate) fn byte_string<'a>(alloc: Global, bytes: &'a Vec<u8>) -> Result<LentShown<'a>>
    ensures shown { IsLentShown (Ok (showing.bytes bytes.now.items)) result }
    ensures outright { OutrightButCopies (Ok (showing.bytes bytes.now.items)) result }
{
    Ok(Showing::Bytes(Vec::from_slice(alloc, bytes.as_slice())?))
}

// What the borrowed string of a number shows. The string is copied where it is shown itself, and
// for the error.
pub(crate) fn number_text<'a>(
    alloc: Global,
    request: Request,
    text: &'a String,
) -> Result<LentShown<'a>>
    ensures shown { IsLentShown (number_text_shown request (string_bytes text.now)) result }
    ensures outright { OutrightButCopies (number_text_shown request (string_bytes text.now))
        result }
{
    match show_number(request, text.as_str()) {
        Ok(leaf) => of_leaf(alloc, leaf, text),
        Err(no_number) => Err(no_number.of_text(text.clone()?)),
    }
}

// What the borrowed key of a map shows.
#[inline(always)]
pub(crate) fn key_text<'a>(
    alloc: Global,
    request: Request,
    text: &'a String,
) -> Result<LentShown<'a>>
    ensures shown { IsLentShown (key_shown request (string_bytes text.now)) result }
    ensures outright { OutrightButCopies (key_shown request (string_bytes text.now)) result }
{
    of_leaf(alloc, show_key(request, text.as_str())?, text)
}

// What a borrowed plain string shows.
#[inline(always)]
pub(crate) fn plain_text<'a>(
    alloc: Global,
    request: Request,
    text: &'a String,
) -> Result<LentShown<'a>>
    ensures shown { IsLentShown (plain_text_shown request (string_bytes text.now)) result }
    ensures outright { OutrightButCopies (plain_text_shown request (string_bytes text.now)) result }
{
    of_leaf(alloc, show_plain_text(request), text)
}

// What a borrowed string shows by its leaf, with readers around its contents. It is copied where it
// is shown itself.
fn of_leaf<'a>(alloc: Global, leaf: Leaf, text: &'a String) -> Result<LentShown<'a>>
    ensures shown { IsLentShown (Ok (leaf_showing (string_bytes text.now) leaf)) result }
    ensures outright { OutrightButCopies (Ok (leaf_showing (string_bytes text.now) leaf)) result }
{
    match leaf {
        Leaf::Bool(v) => Ok(Showing::Bool(v)),
        Leaf::Integer(v) => Ok(Showing::Integer(v)),
        Leaf::NumberText => Ok(Showing::NumberText(text.clone()?)),
        Leaf::Text => Ok(Showing::Text(text.clone()?)),
        Leaf::Name => Ok(Showing::Enum(LentChoice::name(alloc, text))),
        Leaf::Newtype => Ok(Showing::Newtype(LentDeserializer::from_key_text(alloc, text))),
    }
}
