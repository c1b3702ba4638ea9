//! What is printed of what a call returned. Printing takes no memory.

use serde_dynamo::{AttributeValue, ErrorImpl, Result};
use serde_json::Value;
use std::collections::HashMap;
use std::fmt::{self, Debug, Formatter, Write};

/// What a call returned: the value, or the kind of the error.
#[derive(Drop)]
pub struct Answer<'a, T>(pub &'a Result<T>);

impl<T: Debug> fmt::Display for Answer<'_, T> {
    fn fmt<W: Write>(&self, f: &mut Formatter<W>) -> fmt::Result {
        match self.0 {
            Ok(value) => write!(f, "{value:?}"),
            Err(error) => show_kind(error.kind(), f),
        }
    }
}

/// Shows the kind of an error.
pub fn show_kind<W: Write>(kind: &ErrorImpl, f: &mut Formatter<W>) -> fmt::Result {
    match kind {
        ErrorImpl::OutOfMemory => f.write_str("out of memory"),
        kind => write!(f, "{kind:?}"),
    }
}

/// A JSON value, by its compact text.
#[derive(Drop)]
pub struct Json(pub Value);

impl Debug for Json {
    fn fmt<W: Write>(&self, f: &mut Formatter<W>) -> fmt::Result {
        write!(f, "{}", self.0)
    }
}

/// An attribute value, by kind and content: `N "1"`, `Null(true)`, `B [1, 2]`, `L [S "a"]`, `Ss
/// ["a", "b"]`, `M {"a": N "1"}` with the keys in order.
#[derive(Drop)]
pub struct Written(pub AttributeValue);

impl Debug for Written {
    fn fmt<W: Write>(&self, f: &mut Formatter<W>) -> fmt::Result {
        show_value(&self.0, f)
    }
}

#[cycle(show)]
fn show_value<W: Write>(value: &AttributeValue, f: &mut Formatter<W>) -> fmt::Result {
    match value {
        AttributeValue::N(text) => show_content("N", text, f),
        AttributeValue::S(text) => show_content("S", text, f),
        AttributeValue::Bool(b) => write!(f, "Bool({b})"),
        AttributeValue::B(bytes) => show_content("B", bytes, f),
        AttributeValue::Null(b) => write!(f, "Null({b})"),
        AttributeValue::M(map) => show_map(map, f),
        AttributeValue::L(list) => show_list(list, f),
        AttributeValue::Ss(texts) => show_content("Ss", texts, f),
        AttributeValue::Ns(texts) => show_content("Ns", texts, f),
        AttributeValue::Bs(blobs) => show_content("Bs", blobs, f),
    }
}

fn show_content<T: Debug, W: Write>(kind: &str, content: &T, f: &mut Formatter<W>) -> fmt::Result {
    write!(f, "{kind} {content:?}")
}

#[cycle(show)]
fn show_list<W: Write>(list: &Vec<AttributeValue>, f: &mut Formatter<W>) -> fmt::Result {
    f.write_str("L [")?;
    for (i, element) in list.iter().enumerate() {
        f.write_str(if i == 0 { "" } else { ", " })?;
        show_value(element, f)?;
    }
    f.write_str("]")
}

// The members are looked for place by place, since a list of them would take memory.
#[cycle(show)]
fn show_map<W: Write>(map: &HashMap<String, AttributeValue>, f: &mut Formatter<W>) -> fmt::Result {
    f.write_str("M {")?;
    for place in 0..map.len() {
        for (key, member) in map {
            if place_of(map, key) == place {
                f.write_str(if place == 0 { "" } else { ", " })?;
                write!(f, "{key:?}: ")?;
                show_value(member, f)?;
            }
        }
    }
    f.write_str("}")
}

// How many keys of the map come before this one.
fn place_of(map: &HashMap<String, AttributeValue>, key: &String) -> usize {
    map.keys().filter(|other| *other < key).count()
}
