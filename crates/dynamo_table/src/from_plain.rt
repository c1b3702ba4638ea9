//! Items of plain JSON.
use dynamo_value::{AttributeValue, Item, refusal};
use exports::{Fault, Position, json_of};
use json::{Error, Scratch, Value};
use std::alloc::{AllocError, Global};
use std::collections::HashMap;

/// The item of a text of plain JSON, which is an object of its attributes.
///
/// A number is an `N` with the same digits, a string an `S`, `null` a `NULL`, an array an `L` and
/// an object an `M`. Of a name that comes twice the last value stays.
///
/// # Errors
///
/// `NotJson` if the text is no JSON, `Form` if it is no object, or memory can't be allocated.
pub fn item_of_plain(alloc: Global, scratch: &mut Scratch, text: &[u8]) -> Result<Item, Fault> {
    match Value::from_slice(alloc, text, scratch) {
        Ok(Value::Object(members)) => Ok(Item::from(attributes(alloc, &members)?)),
        Ok(_) => Err(Fault::from(refusal::message(
            alloc,
            "invalid type: expected an object of attributes",
        ))),
        Err(Error::OutOfMemory) => Err(Fault::from(AllocError)),
        Err(_) => Err(broken(alloc, text)),
    }
}

// The fault of a text that isn't JSON. It isn't JSON for json_of either, which allows fewer levels.
fn broken(alloc: Global, text: &[u8]) -> Fault {
    match json_of(alloc, text) {
        Ok(_) => Fault::NotJson(Position { line: 1, column: 0 }),
        Err(fault) => fault,
    }
}

// The attributes of the members of an object.
#[cycle(read)]
fn attributes(
    alloc: Global,
    members: &Vec<(&str, Value<'_>)>,
) -> Result<HashMap<String, AttributeValue>, AllocError> {
    let mut map = HashMap::with_capacity(alloc, members.len())?;
    for member in members {
        let name = String::from_str(alloc, member.0)?;
        drop(map.insert(name, attribute_value(alloc, &member.1)?)?);
    }
    Ok(map)
}

// The attribute value of a JSON value.
#[cycle(read)]
fn attribute_value(alloc: Global, json: &Value<'_>) -> Result<AttributeValue, AllocError> {
    Ok(match json {
        Value::Null => AttributeValue::Null(true),
        Value::Bool(flag) => AttributeValue::Bool(*flag),
        Value::Number(text) => AttributeValue::N(String::from_str(alloc, text)?),
        Value::String(text) => AttributeValue::S(String::from_str(alloc, text)?),
        Value::Array(items) => {
            let mut values = Vec::with_capacity(alloc, items.len())?;
            for json in items {
                values.push(attribute_value(alloc, json)?)?;
            }
            AttributeValue::L(values)
        }
        Value::Object(members) => AttributeValue::M(attributes(alloc, members)?),
    })
}
