//! Items as plain JSON.
use dynamo_value::{AttributeValue, Item, base64_text};
use json::{Writer, is_number};
use std::alloc::{AllocError, Global};
use std::collections::HashMap;

/// Appends the plain JSON of an item to a text, which it takes and gives back.
///
/// An `N` is a number with the same digits, or a string where its text is no number of JSON. A set
/// is an array, a byte string its base64 text, and a `NULL` is `null`.
///
/// # Errors
///
/// `AllocError` if memory can't be allocated.
pub fn with_plain(alloc: Global, text: Vec<u8>, item: &Item) -> Result<Vec<u8>, AllocError> {
    let mut writer = Writer::new(text);
    members(alloc, &mut writer, item.inner())?;
    Ok(writer.into_inner())
}

// Writes an object of the members of a map, in its order.
#[cycle(write)]
fn members(
    alloc: Global,
    writer: &mut Writer,
    map: &HashMap<String, AttributeValue>,
) -> Result<(), AllocError> {
    writer.begin_object()?;
    for (name, value) in map.iter() {
        writer.key(name.as_str())?;
        write_value(alloc, writer, value)?;
    }
    writer.end_object()
}

#[cycle(write)]
fn write_value(
    alloc: Global,
    writer: &mut Writer,
    value: &AttributeValue,
) -> Result<(), AllocError> {
    match value {
        AttributeValue::N(text) => number(writer, text.as_str()),
        AttributeValue::S(text) => writer.string(text.as_str()),
        AttributeValue::Bool(flag) => writer.boolean(*flag),
        AttributeValue::B(bytes) => blob(alloc, writer, bytes.as_slice()),
        AttributeValue::Null(_) => writer.null(),
        AttributeValue::M(map) => members(alloc, writer, map),
        AttributeValue::L(list) => {
            writer.begin_array()?;
            for value in list {
                write_value(alloc, writer, value)?;
            }
            writer.end_array()
        }
        AttributeValue::Ss(set) => strings(writer, set),
        AttributeValue::Ns(set) => numbers(writer, set),
        AttributeValue::Bs(set) => blobs(alloc, writer, set),
    }
}

fn strings(writer: &mut Writer, set: &Vec<String>) -> Result<(), AllocError> {
    writer.begin_array()?;
    for text in set {
        writer.string(text.as_str())?;
    }
    writer.end_array()
}

fn numbers(writer: &mut Writer, set: &Vec<String>) -> Result<(), AllocError> {
    writer.begin_array()?;
    for text in set {
        number(writer, text.as_str())?;
    }
    writer.end_array()
}

fn blobs(alloc: Global, writer: &mut Writer, set: &Vec<Vec<u8>>) -> Result<(), AllocError> {
    writer.begin_array()?;
    for bytes in set {
        blob(alloc, writer, bytes.as_slice())?;
    }
    writer.end_array()
}

// Writes a number by its text, or a string where that is no number of JSON, as `+1` or `.5`.
fn number(writer: &mut Writer, text: &str) -> Result<(), AllocError> {
    if is_number(text) {
        writer.number(text)
    } else {
        writer.string(text)
    }
}

fn blob(alloc: Global, writer: &mut Writer, bytes: &[u8]) -> Result<(), AllocError> {
    writer.string(base64_text::encode(alloc, bytes)?.as_str())
}
