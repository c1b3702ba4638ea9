//! The place of the first fault of a JSON value that is read as DynamoDB JSON.
ghost use Rattle.std.specs.Prelude.{◌≡◌};

use crate::trail::Trail;
use crate::{LocatedError, Place};
use dynamo_json::{DynamoJson, TextError};
use dynamo_value::{AttributeValue, Error, ErrorImpl, Prefix, base64_text};
use serde_json::{Map, Value};
use std::alloc::{AllocError, Global};

// Whether there is a fault. Then the trail has the steps to the first one, the last step first.
type Found = Result<bool, AllocError>;

/// What a whole JSON value is read as.
#[derive(Clone, Copy)]
pub(crate) enum Whole {
    AttributeValue,
    Item,
}

/// Returns the error that reading a JSON value returned, with its place. The place is empty if
/// memory runs out, for the value or for the place.
pub(crate) fn in_json(
    alloc: Global,
    whole: Whole,
    json: &Value,
    error: Error,
) -> LocatedError<Error>
    ensures { result.error ≡ error }
{
    LocatedError {
        place: place_of(alloc, whole, json, &error),
        error,
    }
}

/// Returns the error that reading a JSON text returned, with its place in the JSON value of the
/// text. The place is empty if the text isn't JSON, or if memory runs out.
pub(crate) fn in_text(
    alloc: Global,
    whole: Whole,
    text: &str,
    error: TextError,
) -> LocatedError<TextError>
    ensures { result.error ≡ error }
{
    LocatedError {
        place: place_in_text(alloc, whole, text, &error),
        error,
    }
}

fn place_in_text(alloc: Global, whole: Whole, text: &str, error: &TextError) -> Place {
    if let TextError::Fault(fault) = error
        && let Ok(json) = Value::from_str(alloc, text)
    {
        return place_of(alloc, whole, &json, fault);
    }
    Place::new()
}

fn place_of(alloc: Global, whole: Whole, json: &Value, error: &Error) -> Place {
    let trail = Trail::new(alloc);
    if !is_memory(error)
        && let Ok(true) = first_fault(alloc, &trail, whole, json)
    {
        return trail.into_reversed_place();
    }
    Place::new()
}

fn is_memory(error: &Error) -> bool {
    matches!(error.kind(), ErrorImpl::OutOfMemory)
}

fn first_fault(alloc: Global, trail: &Trail, whole: Whole, json: &Value) -> Found {
    match (whole, json) {
        (Whole::AttributeValue, _) => in_value(alloc, trail, json),
        (Whole::Item, Value::Object(object)) => in_members(alloc, trail, object),
        (Whole::Item, _) => Ok(true),
    }
}

// In an attribute value: an object of one member, whose content may have parts. What has none is
// read as a whole.
#[cycle(look)]
fn in_value(alloc: Global, trail: &Trail, json: &Value) -> Found {
    if let Value::Object(object) = json
        && object.len() == 1
        && let Some((key, content)) = object.iter().next()
        && let Some(prefix) = Prefix::named(key)
    {
        match (prefix, content) {
            (Prefix::M, Value::Object(object)) => return in_members(alloc, trail, object),
            (Prefix::L | Prefix::Ss | Prefix::Ns | Prefix::Bs, Value::Array(array)) => {
                return in_elements(alloc, trail, prefix, array);
            }
            _ => {}
        }
    }
    in_whole(AttributeValue::from_json(alloc, json))
}

// In the attributes of an object, which are read in this order.
#[cycle(look)]
fn in_members(alloc: Global, trail: &Trail, object: &Map<String, Value>) -> Found {
    for (key, json) in object.iter() {
        if in_value(alloc, trail, json)? {
            trail.to_attribute(alloc, key);
            return Ok(true);
        }
    }
    Ok(false)
}

// In the elements of a list or a set.
#[cycle(look)]
fn in_elements(alloc: Global, trail: &Trail, prefix: Prefix, array: &Vec<Value>) -> Found {
    for (index, json) in array.iter().enumerate() {
        if in_element(alloc, trail, prefix, json)? {
            trail.to_element(index);
            return Ok(true);
        }
    }
    Ok(false)
}

// In an element: of a list an attribute value, of a set a string, and of a `BS` one of base64.
#[cycle(look)]
fn in_element(alloc: Global, trail: &Trail, prefix: Prefix, json: &Value) -> Found {
    match (prefix, json) {
        (Prefix::L, _) => in_value(alloc, trail, json),
        (Prefix::Bs, Value::String(text)) => in_whole(base64_text::decode(alloc, text)),
        (_, Value::String(_)) => Ok(false),
        _ => Ok(true),
    }
}

// In a value without parts, by the result of reading it.
fn in_whole<T: Drop>(read: Result<T, Error>) -> Found {
    match read {
        Ok(_value) => Ok(false),
        Err(error) if is_memory(&error) => Err(AllocError),
        Err(_) => Ok(true),
    }
}
