//! The item of one line of an export.

ghost use Rattle.std.specs.Prelude.{Ok, IfOk, IfSome};
ghost use Rattle.serde_json.specs.View.{view};
ghost use Rattle.exports.specs.Items.{ReadsItem, ReadsJson, ReadsLine};

use crate::{Fault, Position};
use dynamo_json::item_under;
use dynamo_place::DynamoJsonLocated;
use dynamo_value::Item;
use json::Scratch;
use serde_json::Value;
use std::alloc::{AllocError, Global};
use std::str;

// So long a text is read in the room that is kept from line to line, which doubles as it grows: it
// has up to twice as much.
const KEPT: usize = 32_768;

/// Reads the item under `Item` of a line's JSON object. A line of up to 32 KB is read in the
/// buffers of `scratch`, a longer one in its own, which are freed before a JSON value is made of
/// the line.
///
/// # Errors
///
/// Returns `NotJson`, `NoItem`, and `Form` if the value under `Item` isn't DynamoDB JSON of an
/// item, or if memory runs out.
pub(crate) fn item_of(alloc: Global, scratch: &mut Scratch, line: &[u8]) -> Result<Item, Fault>
    ensures { ReadsLine line.now result }
{
    if let Some(item) = item_alone(alloc, scratch, line)? {
        return Ok(item);
    }
    let json = json_of(alloc, line)?;
    item_in(alloc, &json)
}

/// Reads the item of a line of an export, given its bytes, as
/// [`Lines::next_line`](crate::Lines::next_line) does of the next line.
///
/// # Errors
///
/// Returns [`Fault::NotJson`] if the line isn't JSON, [`Fault::NoItem`] if it isn't an object with
/// an `Item`, and [`Fault::Form`] if that isn't DynamoDB JSON of an item, or if memory runs out.
///
/// # Examples
///
/// ```rust
/// use exports::{Fault, item_of_text};
///
/// let item = item_of_text(alloc, br#"{"Item": {"id": {"S": "a"}}}"#)?;
/// assert!(rt; item.get("id").is_some());
/// assert!(rt; matches!(item_of_text(alloc, b"{}"), Err(Fault::NoItem)));
/// ```
pub fn item_of_text(alloc: Global, line: &[u8]) -> Result<Item, Fault>
    ensures { ReadsLine line.now result }
{
    item_of(alloc, &mut Scratch::new(alloc), line)
}

/// Reads the item of a line that has nothing else, as most lines of an export do. No JSON value is
/// made.
///
/// Returns `None` for any other line, whose JSON value says whether it has an item.
///
/// # Errors
///
/// Returns [`AllocError`] if memory runs out.
pub fn item_alone(
    alloc: Global,
    scratch: &mut Scratch,
    line: &[u8],
) -> Result<Option<Item>, AllocError>
    ensures { IfOk result (λ found. IfSome found (λ item. ReadsLine line.now (Ok item))) }
{
    if !ends_with_two_objects(line) {
        return Ok(None);
    }
    match str::from_utf8(line) {
        Ok(text) if text.len() <= KEPT => item_in_text(alloc, scratch, text),
        Ok(text) => item_in_long_text(alloc, text),
        Err(_) => Ok(None),
    }
}

fn item_in_text(
    alloc: Global,
    scratch: &mut Scratch,
    text: &str,
) -> Result<Option<Item>, AllocError>
    ensures { IfOk result (λ found. IfSome found (λ item. ReadsLine text.now (Ok item))) }
{
    item_under(alloc, scratch, "Item", text)
}

// The item of a long text. Apart, so that other lines don't pay for its room.
#[inline(never)]
fn item_in_long_text(alloc: Global, text: &str) -> Result<Option<Item>, AllocError>
    ensures { IfOk result (λ found. IfSome found (λ item. ReadsLine text.now (Ok item))) }
{
    item_in_text(alloc, &mut Scratch::new(alloc), text)
}

// Whether a line may have its item alone, by its end: most that have more after the item aren't
// read twice.
fn ends_with_two_objects(line: &[u8]) -> bool {
    line.trim_ascii_end().ends_with(b"}}")
}

/// Reads a JSON value.
///
/// # Errors
///
/// Returns [`Fault::NotJson`] if the bytes aren't UTF-8, or aren't JSON.
///
/// Returns [`Fault::Form`] if memory runs out.
pub fn json_of(alloc: Global, bytes: &[u8]) -> Result<Value, Fault>
    ensures { ReadsJson bytes.now result }
{
    match Value::from_slice(alloc, bytes) {
        Ok(json) => Ok(json),
        Err(error) if error.is_memory() => Err(Fault::from(AllocError)),
        Err(error) => match position_of(alloc, bytes, &error) {
            Ok(position) => Err(Fault::NotJson(position)),
            Err(error) => Err(Fault::from(error)),
        },
    }
}

// Where bytes stop being JSON. They are read again without the blanks at their end, which would
// hide that a string or a number ends too early.
fn position_of(
    alloc: Global,
    bytes: &[u8],
    error: &serde_json::Error,
) -> Result<Position, AllocError> {
    let text = bytes.trim_ascii_end();
    if ends_too_early(alloc, text)? {
        return Ok(end_of(text));
    }
    Ok(Position {
        line: error.line(),
        column: error.column(),
    })
}

// Whether bytes are the beginning of JSON.
fn ends_too_early(alloc: Global, bytes: &[u8]) -> Result<bool, AllocError> {
    match Value::from_slice(alloc, bytes) {
        Ok(_json) => Ok(false),
        Err(error) if error.is_memory() => Err(AllocError),
        Err(error) => Ok(error.is_eof()),
    }
}

fn end_of(bytes: &[u8]) -> Position {
    let mut end = Position { line: 1, column: 0 };
    for byte in bytes {
        if *byte == b'\n' {
            end.line = end.line.saturating_add(1);
            end.column = 0;
        } else {
            end.column = end.column.saturating_add(1);
        }
    }
    end
}

fn item_in(alloc: Global, json: &Value) -> Result<Item, Fault>
    ensures { ReadsItem (view json.now) result }
{
    let Some(content) = json.get("Item") else {
        return Err(Fault::NoItem);
    };
    Ok(Item::from_json_located(alloc, content)?)
}
