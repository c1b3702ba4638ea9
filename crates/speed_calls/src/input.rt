//! What is done with the input.
use serde_dynamo::{AttributeValue, DynamoJson, Result, from_attribute_value, to_attribute_value};
use serde_json::Value;
use std::alloc::Global;
use std::io::{self, Read};

/// Does what the word says with the input, and prints what came of it.
pub fn run(rt: &HostRuntime, word: &str) -> io::Result<()> {
    let mut bytes = Vec::new(rt.alloc());
    rt.reader().read_to_end(&mut bytes)?;
    let Ok(json) = Value::from_slice(rt.alloc(), bytes.as_slice()) else {
        return println!(rt; "no JSON value");
    };
    match word {
        "rereads" => match is_reread(rt.alloc(), &json) {
            Ok(true) => println!(rt; "the same attribute value"),
            Ok(false) => println!(rt; "another attribute value"),
            Err(_) => println!(rt; "no attribute value"),
        },
        _reads_json => println!(rt; "a JSON value"),
    }
}

// Whether the attribute value of this DynamoDB JSON, written as a value of a program, reads back as
// itself.
fn is_reread(alloc: Global, json: &Value) -> Result<bool> {
    let value = AttributeValue::from_json(alloc, json)?;
    let written = to_attribute_value(alloc, &value)?;
    let read: AttributeValue = from_attribute_value(alloc, written)?;
    Ok(read == value)
}
