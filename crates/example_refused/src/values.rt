//! The values that rows make before their calls.

use serde_dynamo::{AttributeValue, DynamoJson, Error, ErrorImpl, Item, Result};
use serde_json::Value;
use std::alloc::Global;
use std::collections::HashMap;

/// The JSON value of a text that is JSON.
pub fn json(alloc: Global, text: &str) -> Result<Value> {
    match Value::from_str(alloc, text) {
        Ok(json) => Ok(json),
        Err(_) => Err(Error::from(ErrorImpl::OutOfMemory)),
    }
}

/// The attribute value of this DynamoDB JSON.
pub fn value(alloc: Global, text: &str) -> Result<AttributeValue> {
    AttributeValue::from_json(alloc, &json(alloc, text)?)
}

/// The attribute values of these texts of DynamoDB JSON.
pub fn each(alloc: Global, texts: &[&str]) -> Result<Vec<AttributeValue>> {
    let mut values = Vec::with_capacity(alloc, texts.len())?;
    for text in texts {
        values.push(value(alloc, text)?)?;
    }
    Ok(values)
}

/// The item of this DynamoDB JSON.
pub fn item(alloc: Global, text: &str) -> Result<Item> {
    Item::from_json(alloc, &json(alloc, text)?)
}

/// The map of the item of this DynamoDB JSON.
pub fn map(alloc: Global, text: &str) -> Result<HashMap<String, AttributeValue>> {
    Ok(item(alloc, text)?.into_inner())
}
