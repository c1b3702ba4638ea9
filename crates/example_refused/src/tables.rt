//! Rows of a table in memory: a call that runs out of memory leaves the table unchanged.

use crate::line::Line;
use crate::values;
use serde_dynamo::{AttributeValue, Error, ErrorImpl, Item, Result};
use std::alloc::{AllocError, Global};
use table_memory::{Key, KeyAttribute, KeyKind, KeySchema, KeyValue, Query, Table, TableError};

const READINGS: [&str; 3] = [
    r#"{"station":{"S":"north"},"at":{"N":"1"},"note":{"S":"one"}}"#,
    r#"{"station":{"S":"north"},"at":{"N":"2"},"note":{"S":"two"}}"#,
    r#"{"station":{"S":"north"},"at":{"N":"4"},"note":{"S":"four"}}"#,
];

/// A reading that the table lacks.
pub const THIRD: &str = r#"{"station":{"S":"north"},"at":{"N":"3"},"note":{"S":"three"}}"#;

/// Another reading in the place of the second.
pub const SECOND_AGAIN: &str = r#"{"station":{"S":"north"},"at":{"N":"2"},"note":{"S":"again"}}"#;

fn attribute(alloc: Global, name: &str, kind: KeyKind) -> Result<KeyAttribute> {
    Ok(KeyAttribute {
        name: String::from_str(alloc, name)?,
        kind,
    })
}

// Until the row's calls, a table fails only if memory runs out.
fn made<T: Drop>(answer: std::result::Result<T, TableError>) -> Result<T> {
    answer.map_err(|_| Error::from(ErrorImpl::OutOfMemory))
}

fn readings(alloc: Global) -> Result<Table> {
    let partition = attribute(alloc, "station", KeyKind::S)?;
    let sort = Some(attribute(alloc, "at", KeyKind::N)?);
    let mut table = Table::new(alloc, KeySchema { partition, sort });
    for text in READINGS {
        drop(made(table.put(values::item(alloc, text)?))?);
    }
    Ok(table)
}

// The keys of the four readings.
fn keys(alloc: Global, table: &Table) -> Result<Vec<Key>> {
    let mut keys = Vec::with_capacity(alloc, 4)?;
    for text in READINGS {
        keys.push(made(table.key_of(&values::item(alloc, text)?))?)?;
    }
    keys.push(made(table.key_of(&values::item(alloc, THIRD)?))?)?;
    Ok(keys)
}

fn note(item: &Item) -> &str {
    match item.get("note") {
        Some(AttributeValue::S(note)) => note.as_str(),
        _ => "",
    }
}

// The notes of the items under these keys. It takes no memory.
fn say_left(line: &mut Line, table: &Table, keys: &[Key]) {
    line.label("left");
    for key in keys {
        if let Some(item) = table.get(key) {
            line.word(&note(item));
        }
    }
}

/// An item put in the table of three.
pub fn put(alloc: Global, line: &mut Line, text: &str) -> Result<()> {
    let mut table = readings(alloc)?;
    let keys = keys(alloc, &table)?;
    let item = values::item(alloc, text)?;
    match table.put(item) {
        Ok(Some(before)) => line.show("put", &note(&before)),
        Ok(None) => line.show("put", &"none"),
        Err(error) => line.show("put", &error),
    }
    say_left(line, &table, keys.as_slice());
    Ok(())
}

/// The items of a partition.
pub fn query(alloc: Global, line: &mut Line) -> Result<()> {
    let table = readings(alloc)?;
    let keys = keys(alloc, &table)?;
    let partition = KeyValue::S(String::from_str(alloc, "north")?);
    line.label("query");
    match table.query(alloc, &Query::of(&partition)) {
        Ok(found) => {
            for (_, item) in found.iter() {
                line.word(&note(*item));
            }
        }
        Err(AllocError) => line.word(&"out of memory"),
    }
    say_left(line, &table, keys.as_slice());
    Ok(())
}
