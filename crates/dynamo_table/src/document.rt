//! What the JSON values hold that AWS's tools write.
use crate::refusal::Refusal;
use exports::Fault;
use serde_json::Value;
use std::alloc::Global;

/// What a JSON value holds for a table.
#[derive(Drop)]
pub enum Document<'a> {
    /// One put or delete: the value is a line of an export, or what `get-item` prints.
    Change,

    /// The items that `query` and `scan` print.
    Items(&'a [Value]),

    /// The requests of a file for `batch-write-item`; none where all were processed.
    Requests(&'a [Value]),
}

/// What a JSON value holds for the table of this name.
///
/// # Errors
///
/// `Input` with `NoItem` if the value is none of these; a `Message` if it has requests, and none
/// for the table.
pub fn document_of<'a>(
    alloc: Global,
    json: &'a Value,
    table: &str,
) -> Result<Document<'a>, Refusal> {
    match (json.get("Item"), json.get("Items"), json.get("Keys")) {
        (None, Some(Value::Array(items)), _) => return Ok(Document::Items(items.as_slice())),
        (Some(_), _, _) | (_, _, Some(Value::Object(_))) => return Ok(Document::Change),
        _ => {}
    }
    match json.get("RequestItems").or(json.get("UnprocessedItems")) {
        Some(requests) => requests_for(alloc, requests, table),
        None if has_lists_alone(json) => requests_for(alloc, json, table),
        None => Err(Refusal::Input(Fault::NoItem)),
    }
}

// The requests for the table in an object of lists of requests by the tables' names.
fn requests_for<'a>(
    alloc: Global,
    requests: &'a Value,
    table: &str,
) -> Result<Document<'a>, Refusal> {
    match (requests, requests.get(table)) {
        (_, Some(Value::Array(list))) => Ok(Document::Requests(list.as_slice())),
        (Value::Object(object), None) if object.len() == 0 => Ok(Document::Requests(&[])),
        _ => Err(Refusal::message(format!(in alloc; "it has no requests for the table {table}"))),
    }
}

// Whether the value is an object of lists, with one of them at least.
fn has_lists_alone(json: &Value) -> bool {
    match json {
        Value::Object(object) => object.len() > 0
            && object.iter().all(|(_, value)| value.is_array()),
        _ => false,
    }
}
