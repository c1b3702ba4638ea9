//! Items on standard output.
use crate::refusal::{Answer, Outcome};
use crate::to_plain::with_plain;
use dynamo_json::DynamoJson;
use dynamo_value::Item;
use std::alloc::{AllocError, Global};
use std::io;
use std::io::Write;

/// How an item is printed.
#[derive(Clone, Copy, Drop)]
pub enum Form {
    /// A line of its DynamoDB JSON.
    Bare,

    /// A line of its DynamoDB JSON under `Item`, as in the files that DynamoDB exports.
    Export,

    /// A line of plain JSON.
    Plain,

    /// Its DynamoDB JSON over several lines, indented by two spaces.
    Pretty,
}

/// Prints items.
///
/// # Errors
///
/// What the output refuses, and `Table` if memory can't be allocated.
pub fn print_items(rt: &HostRuntime, form: Form, items: &[Item]) -> Answer {
    let mut text = Vec::new(rt.alloc());
    for item in items {
        text = with_item(rt.alloc(), form, text, item)?;
    }
    print_text(rt, text.as_slice())
}

/// Prints a text.
///
/// # Errors
///
/// What the output refuses.
pub fn print_text(rt: &HostRuntime, text: &[u8]) -> Answer {
    io::writer(rt).write_all(text)?;
    Ok(Outcome::Done)
}

// A text with the lines of an item after it.
fn with_item(alloc: Global, form: Form, text: Vec<u8>, item: &Item) -> Result<Vec<u8>, AllocError> {
    let mut text = text;
    match form {
        Form::Bare => text.extend_from_slice(json_text(alloc, item)?.as_bytes())?,
        Form::Export => {
            text.extend_from_slice(b"{\"Item\":")?;
            text.extend_from_slice(json_text(alloc, item)?.as_bytes())?;
            text.push(b'}')?;
        }
        Form::Plain => text = with_plain(alloc, text, item)?,
        Form::Pretty => text.extend_from_slice(pretty_text(alloc, item)?.as_bytes())?,
    }
    text.push(b'\n')?;
    Ok(text)
}

// Making the text, or the JSON value, fails only if memory runs out.
fn json_text(alloc: Global, item: &Item) -> Result<String, AllocError> {
    item.to_json_text(alloc).map_err(|_| AllocError)
}

fn pretty_text(alloc: Global, item: &Item) -> Result<String, AllocError> {
    let json = item.to_json(alloc).map_err(|_| AllocError)?;
    json.to_string_pretty(alloc)
}
