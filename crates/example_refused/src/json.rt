//! Rows of DynamoDB JSON.

use crate::answer::{Json, Written};
use crate::line::Line;
use crate::values;
use serde_dynamo::{AttributeValue, DynamoJson, Error, Result};
use std::alloc::Global;

// An attribute value of all ten kinds.
const TEN_KINDS: &str = r#"{"M":{"b":{"B":"AQI="},"bool":{"BOOL":true},"bs":{"BS":["AQI="]},
    "l":{"L":[{"N":"1"},{"S":"a"}]},"n":{"N":"1.5"},"ns":{"NS":["1","2"]},"null":{"NULL":true},
    "s":{"S":"a"},"ss":{"SS":["a","b"]}}}"#;

// JSON that isn't an attribute value: no key, two keys, a key that is no prefix, invalid base64, a
// value that isn't an object, and contents of another kind.
const REFUSED: [&str; 7] = [
    "{}",
    r#"{"S":"1","N":"1"}"#,
    r#"{"X":"1"}"#,
    r#"{"B":"X"}"#,
    "42",
    r#"{"S":1}"#,
    r#"{"BS":["X"]}"#,
];

/// An attribute value of all ten kinds to JSON, from it, and cloned.
pub fn ten_kinds(alloc: Global, line: &mut Line) -> Result<()> {
    let json = values::json(alloc, TEN_KINDS)?;
    let value = values::value(alloc, TEN_KINDS)?;
    line.say("to_json", value.to_json(alloc).map(Json));
    let read = AttributeValue::from_json(alloc, &json);
    line.say("from_json", read.map(Written));
    let clone = value.clone().map_err(Error::from);
    line.say("clone", clone.map(Written));
    Ok(())
}

/// JSON that isn't an attribute value.
pub fn refused(alloc: Global, line: &mut Line) -> Result<()> {
    let mut refused = Vec::with_capacity(alloc, REFUSED.len())?;
    for text in REFUSED {
        refused.push((text, values::json(alloc, text)?))?;
    }
    for (text, json) in refused.iter() {
        let read = AttributeValue::from_json(alloc, json);
        line.say(text, read.map(Written));
    }
    Ok(())
}
