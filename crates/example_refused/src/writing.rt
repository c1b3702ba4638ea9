//! Rows that write.

use crate::account::Account;
use crate::answer::{Json, Written};
use crate::line::Line;
use serde_dynamo::ser::Serialize;
use serde_dynamo::{
    AttributeValue, Error, Item, Result, de, ser, to_attribute_value, to_attribute_value_via_json,
    to_item, to_json_value,
};
use std::alloc::Global;
use std::collections::HashMap;

/// An account, by each call that writes.
pub fn account(alloc: Global, line: &mut Line) -> Result<()> {
    let account = Account::new(alloc)?;
    say_written(alloc, line, &account);
    Ok(())
}

/// A map whose key has no text, under a number.
pub fn no_key(alloc: Global, line: &mut Line) -> Result<()> {
    let mut inside = HashMap::new(alloc);
    inside.insert(vec![in alloc; 1_u8]?, true)?;
    let mut map = HashMap::new(alloc);
    map.insert(1_u8, inside)?;
    say_written(alloc, line, &map);
    Ok(())
}

fn say_written<T: Serialize>(alloc: Global, line: &mut Line, value: &T) {
    line.say("to_item", to_item(alloc, value).map(as_value));
    let written = to_attribute_value(alloc, value);
    line.say("to_attribute_value", written.map(Written));
    line.say("to_json_value", to_json_value(alloc, value).map(Json));
    let by_json = to_attribute_value_via_json(alloc, value);
    line.say("to_attribute_value_via_json", by_json.map(Written));
}

fn as_value(item: Item) -> Written {
    Written(AttributeValue::M(item.into_inner()))
}

/// The refusals of an implementation, with a text of 40 bytes.
pub fn custom(alloc: Global, line: &mut Line) -> Result<()> {
    let text = "a text of forty bytes, and not one more.";
    let writing: Error = ser::Error::custom(alloc, text);
    line.say::<()>("ser::Error::custom", Err(writing));
    let reading: Error = de::Error::custom(alloc, text);
    line.say::<()>("de::Error::custom", Err(reading));
    Ok(())
}
