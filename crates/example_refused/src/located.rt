//! Rows of located calls, each of a value with one fault.

use crate::answer::show_kind;
use crate::line::Line;
use crate::values;
use serde_dynamo::{
    AttributeValue, DynamoJsonLocated, LocatedError, Result, StringSet,
    from_attribute_value_located, from_item_ref_located, to_attribute_value_located,
};
use std::alloc::Global;
use std::collections::HashMap;
use std::fmt::{self, Debug, Formatter, Write};

// What a located call answers: a value, or the place and the kind of the fault. Printing takes no
// memory.
#[derive(Drop)]
struct At<T>(std::result::Result<T, LocatedError<serde_dynamo::Error>>);

impl<T: Debug> fmt::Display for At<T> {
    fn fmt<W: Write>(&self, f: &mut Formatter<W>) -> fmt::Result {
        let error = match &self.0 {
            Ok(value) => return write!(f, "{value:?}"),
            Err(error) => error,
        };
        if !error.place.steps().is_empty() {
            write!(f, "{}: ", error.place)?;
        }
        show_kind(error.error.kind(), f)
    }
}

type Lists = HashMap<String, Vec<u8>>;

const TEXT: &str = r#"{"a":{"L":[{"N":"1"},{"S":"x"}]}}"#;

const TEXT_INSIDE: &str = r#"{"b":{"M":{"a":{"L":[{"N":"1"},{"S":"x"}]}}}}"#;

/// A string in a list of numbers in a map, by the reader of what is taken.
pub fn taken(alloc: Global, line: &mut Line) -> Result<()> {
    let value = AttributeValue::M(values::map(alloc, TEXT_INSIDE)?);
    let read = from_attribute_value_located::<HashMap<String, Lists>>(alloc, value);
    line.show("read", &At(read));
    Ok(())
}

/// The same, by the reader of what is lent.
pub fn lent(alloc: Global, line: &mut Line) -> Result<()> {
    let item = values::item(alloc, TEXT_INSIDE)?;
    let read = from_item_ref_located::<HashMap<String, Lists>>(alloc, &item);
    line.show("read", &At(read));
    Ok(())
}

/// JSON with a key that is no data type descriptor.
pub fn json(alloc: Global, line: &mut Line) -> Result<()> {
    let json = values::json(alloc, r#"{"M":{"a":{"L":[{"N":"1"},{"X":"x"}]}}}"#)?;
    let read = AttributeValue::from_json_located(alloc, &json);
    line.show("from_json", &At(read.map(|_| "a value")));
    Ok(())
}

/// A number in a set of strings, written.
pub fn written(alloc: Global, line: &mut Line) -> Result<()> {
    let numbers = vec![in alloc; 1u8]?;
    let value = (true, StringSet(&numbers));
    let written = to_attribute_value_located(alloc, &value);
    line.show("write", &At(written.map(|_| "a value")));
    Ok(())
}

/// A string in a list of numbers, by `dynamo_serde`.
pub fn derived(alloc: Global, line: &mut Line) -> Result<()> {
    let item = values::item(alloc, TEXT)?;
    let read = dynamo_serde::read_item_located::<Lists>(alloc, &item);
    line.show("read", &At(read));
    Ok(())
}
