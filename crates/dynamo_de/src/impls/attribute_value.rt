//! Reads attribute values and items from DynamoDB JSON, as the data model has it: a map of one
//! entry, whose key is a prefix.

ghost use Rattle.std.specs.Prelude.{◌≡◌, ◌⊎◌, [], map, string_bytes};
ghost use Rattle.dynamo_value.specs.Fault.{out_of_memory};
ghost use Rattle.dynamo_value.specs.Item.{item_view};
ghost use Rattle.dynamo_value.specs.Kind.{fault_of};
ghost use Rattle.dynamo_value.specs.PrefixView.{prefix_view};
ghost use Rattle.dynamo_value.specs.View.{view, members_view};
ghost use Rattle.dynamo_de.specs.Access.{NextElement};
ghost use Rattle.dynamo_de.specs.Meets.{Meets};
ghost use Rattle.dynamo_de.specs.OpenedView.{opened_view};
ghost use Rattle.dynamo_de.specs.Promises.{Agrees};
ghost use Rattle.dynamo_de.specs.ReadAttribute.{attribute_from, entry_from, opened_from, item_from};
ghost use Rattle.dynamo_de.specs.ReadAttribute.{content_opened, read_each, read_entries};
ghost use Rattle.dynamo_de.specs.ReadAttribute.{read_opened};
ghost use Rattle.dynamo_de.specs.ReadAttribute.{read_texts, read_blob, read_blobs};

use crate::taken::{elements_of, entries_of};
use crate::{Deserialize, Deserializer, Error, Reader, Request};
use dynamo_value::{AttributeValue, ErrorImpl, Item, Prefix, base64_text, refusal};
use std::alloc::Global;
use std::collections::HashMap;

/// An attribute value is read from DynamoDB JSON: `{"N": "1"}`, `{"SS": ["a"]}`, `{"B": "AQI="}`.
impl Deserialize for AttributeValue {
    ghost reads = { λ s. Agrees view (attribute_from s) };

    fn deserialize<D: Deserializer>(
        alloc: Global,
        deserializer: D,
    ) -> Result<AttributeValue, D::Error> {
        read(alloc, deserializer)
    }
}

/// An item is read as a map of attribute values: `{"a": {"N": "1"}}`.
impl Deserialize for Item {
    ghost reads = { λ s. Agrees item_view (item_from s) };

    fn deserialize<D: Deserializer>(alloc: Global, deserializer: D) -> Result<Item, D::Error> {
        let entries = entries_of(alloc, deserializer, "a map of attribute values")?;
        Ok(Item::from(read_members::<D>(alloc, entries)?))
    }
}

/// An attribute value that is read but for the attribute values that it holds.
#[derive(Drop)]
enum Opened<L, M> {
    Whole(AttributeValue),
    Elements(L),
    Entries(M),
}

/// Reads an attribute value with the methods of the reader: it holds attribute values, so no
/// visitor could read it. A function that isn't inlined opens it before its contents are read, so
/// that no reader lies in the frame of a level.
#[cycle(read)]
fn read<R: Reader>(alloc: Global, reader: R) -> Result<AttributeValue, R::Error>
    ensures { Meets R.Error.fault (Agrees view (attribute_from (R.source reader))) result }
{
    let opened = open(alloc, reader)?;
    read_opened::<R>(alloc, opened)
}

// Reads the attribute values that an opened one holds.
#[cycle(read)]
fn read_opened<R: Reader>(
    alloc: Global,
    opened: Opened<R::Elements, R::Entries>,
) -> Result<AttributeValue, R::Error>
    ensures { Meets R.Error.fault
        (Agrees view (read_opened (opened_view R.elements R.entries opened))) result }
{
    match opened {
        Opened::Whole(value) => Ok(value),
        Opened::Elements(elements) => {
            Ok(AttributeValue::L(read_elements::<R>(alloc, elements)?))
        }
        Opened::Entries(entries) => Ok(AttributeValue::M(read_members::<R>(alloc, entries)?)),
    }
}

// Opens an attribute value.
#[inline(never)]
fn open<R: Reader>(alloc: Global, reader: R) -> Result<Opened<R::Elements, R::Entries>, R::Error>
    ensures { Meets R.Error.fault
        (Agrees (opened_view R.elements R.entries) (opened_from (R.source reader))) result }
{
    let (prefix, content) = read_entry(alloc, reader)?;
    open_content(alloc, prefix, content)
}

// The prefix of an attribute value, and the reader of its content.
#[inline(never)]
fn read_entry<R: Reader>(alloc: Global, reader: R) -> Result<(Prefix, R), R::Error>
    ensures { Meets R.Error.fault
        (Agrees (λ e. (prefix_view e.0, R.source e.1)) (entry_from (R.source reader))) result }
{
    let mut entries = entries_of(
        alloc,
        reader,
        r#"an object with a single key "N", "S", "BOOL", "B", "NULL", "M", "L", "SS", "NS", or "BS""#,
    )?;
    let Some((key, content)) = R::next_entry(&mut entries) else {
        return Err(told(alloc, refusal::no_key(alloc)));
    };
    if R::next_entry(&mut entries).is_some() {
        return Err(told(alloc, refusal::several_keys(alloc)));
    }
    let key = String::deserialize(alloc, key)?;
    match Prefix::named(&key) {
        Some(prefix) => Ok((prefix, content)),
        None => Err(told(alloc, refusal::unknown_key(alloc, &key))),
    }
}

// Opens the content of a prefix.
fn open_content<R: Reader>(
    alloc: Global,
    prefix: Prefix,
    content: R,
) -> Result<Opened<R::Elements, R::Entries>, R::Error>
    ensures { Meets R.Error.fault
        (Agrees (opened_view R.elements R.entries)
        (content_opened (prefix_view prefix) (R.source content))) result }
{
    match prefix {
        Prefix::N => Ok(Opened::Whole(AttributeValue::N(String::deserialize(alloc, content)?))),
        Prefix::S => Ok(Opened::Whole(AttributeValue::S(String::deserialize(alloc, content)?))),
        Prefix::Bool => Ok(Opened::Whole(AttributeValue::Bool(bool::deserialize(alloc, content)?))),
        Prefix::B => Ok(Opened::Whole(AttributeValue::B(read_bytes(alloc, content)?))),
        Prefix::Null => Ok(Opened::Whole(AttributeValue::Null(bool::deserialize(alloc, content)?))),
        Prefix::M => Ok(Opened::Entries(entries_of(alloc, content, "a map of attribute values")?)),
        Prefix::L => Ok(Opened::Elements(elements_of(
            alloc,
            Request::Seq,
            content,
            "a sequence of attribute values",
        )?)),
        Prefix::Ss => Ok(Opened::Whole(AttributeValue::Ss(read_texts(alloc, content)?))),
        Prefix::Ns => Ok(Opened::Whole(AttributeValue::Ns(read_texts(alloc, content)?))),
        Prefix::Bs => Ok(Opened::Whole(AttributeValue::Bs(read_blobs(alloc, content)?))),
    }
}

// Takes the next element, and opens it.
#[inline(never)]
fn open_next<R: Reader>(
    alloc: Global,
    elements: &mut R::Elements,
) -> Result<Option<Opened<R::Elements, R::Entries>>, R::Error>
    ensures { NextElement R.Error.fault
        (λ s. Agrees (opened_view R.elements R.entries) (opened_from s)) (R.elements elements.old)
        (R.elements elements.new) result }
{
    match R::next_element(elements) {
        None => Ok(None),
        Some(element) => Ok(Some(open(alloc, element)?)),
    }
}

// Reads attribute values, in order.
#[cycle(read)]
fn read_elements<R: Reader>(
    alloc: Global,
    mut elements: R::Elements,
) -> Result<Vec<AttributeValue>, R::Error>
    ensures { Meets R.Error.fault
        (Agrees (λ v. map view v.items) (read_each attribute_from (R.elements elements))) result }
{
    let mut values = Vec::new(alloc);
    while let Some(opened) = open_next::<R>(alloc, &mut elements)? {
        let value = read_opened::<R>(alloc, opened)?;
        if values.push(value).is_err() {
            return Err(R::Error::out_of_memory());
        }
    }
    Ok(values)
}

// Reads attribute values, each under its key.
#[cycle(read)]
#[inline(never)]
fn read_members<R: Reader>(
    alloc: Global,
    mut entries: R::Entries,
) -> Result<HashMap<String, AttributeValue>, R::Error>
    ensures { Meets R.Error.fault
        (Agrees (λ m. members_view m.entries) (read_entries [] (R.entries entries))) result }
{
    let mut members = HashMap::new(alloc);
    while let Some((key, value)) = R::next_entry(&mut entries) {
        let name = String::deserialize(alloc, key)?;
        let member = read(alloc, value)?;
        if members.insert(name, member).is_err() {
            return Err(R::Error::out_of_memory());
        }
    }
    Ok(members)
}

// Reads the strings of a sequence, in order.
fn read_texts<R: Reader>(alloc: Global, reader: R) -> Result<Vec<String>, R::Error>
    ensures { Meets R.Error.fault
        (Agrees (λ v. map string_bytes v.items) (read_texts (R.source reader))) result }
{
    Vec::deserialize(alloc, reader)
}

// Reads the byte strings of a sequence of base64 strings, in order.
fn read_blobs<R: Reader>(alloc: Global, reader: R) -> Result<Vec<Vec<u8>>, R::Error>
    ensures { Meets R.Error.fault
        (Agrees (λ v. map (λ b. b.items) v.items) (read_blobs (R.source reader))) result }
{
    let mut elements = elements_of(alloc, Request::Seq, reader, "a sequence of base64 texts")?;
    let mut blobs = Vec::new(alloc);
    while let Some(element) = R::next_element(&mut elements) {
        let bytes = read_bytes(alloc, element)?;
        if blobs.push(bytes).is_err() {
            return Err(R::Error::out_of_memory());
        }
    }
    Ok(blobs)
}

// Reads the bytes of a base64 string.
fn read_bytes<R: Reader>(alloc: Global, reader: R) -> Result<Vec<u8>, R::Error>
    ensures { Meets R.Error.fault (Agrees (λ b. b.items) (read_blob (R.source reader))) result }
{
    let text = String::deserialize(alloc, reader)?;
    match base64_text::decode(alloc, &text) {
        Ok(bytes) => Ok(bytes),
        Err(refusal) => Err(told(alloc, refusal)),
    }
}

// An error of DynamoDB JSON, as an error of the reader.
fn told<E: Error>(alloc: Global, refusal: dynamo_value::Error) -> E
    ensures { (E.fault result ≡ fault_of refusal) ⊎ (E.fault result ≡ out_of_memory) }
{
    match refusal.kind() {
        ErrorImpl::Message(text) => E::custom(alloc, text),
        _ => E::out_of_memory(),
    }
}
