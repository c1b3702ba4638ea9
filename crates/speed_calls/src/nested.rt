//! Calls on lists that are nested deep, each in a run of its own, to see at which depth it runs out
//! of stack.
use serde_dynamo::{AttributeValue, Result, from_attribute_value, to_attribute_value};
use std::alloc::Global;
use std::collections::HashMap;
use std::io;
use std::mem::forget;

/// Makes the call of this name on lists so deep, and prints what came of it. What is made isn't
/// dropped, but by `depth_drop`.
pub fn run(rt: &HostRuntime, word: &str, depth: u32) -> io::Result<()> {
    match call(rt.alloc(), word, depth) {
        Ok(true) => println!(rt; "done"),
        Ok(false) => println!(rt; "another value"),
        Err(error) => println!(rt; "{error}"),
    }
}

// Whether the call gave what it should.
fn call(alloc: Global, word: &str, depth: u32) -> Result<bool> {
    match word {
        "depth_drop" => {
            drop(lists(alloc, depth)?);
            Ok(true)
        }
        "depth_equal" => is_equal(alloc, depth),
        "depth_clone" => {
            let value = lists(alloc, depth)?;
            forget(value.clone()?);
            forget(value);
            Ok(true)
        }
        "depth_write" => {
            let value = lists(alloc, depth)?;
            forget(to_attribute_value(alloc, &value)?);
            forget(value);
            Ok(true)
        }
        _depth_read => {
            let value: AttributeValue = from_attribute_value(alloc, written(alloc, depth)?)?;
            forget(value);
            Ok(true)
        }
    }
}

// Whether two values of lists so deep are equal.
fn is_equal(alloc: Global, depth: u32) -> Result<bool> {
    let (one, other) = (lists(alloc, depth)?, lists(alloc, depth)?);
    let same = one == other;
    forget((one, other));
    Ok(same)
}

// A null in so many lists.
fn lists(alloc: Global, depth: u32) -> Result<AttributeValue> {
    let mut value = AttributeValue::Null(true);
    for _ in 0..depth {
        value = listed(alloc, value)?;
    }
    Ok(value)
}

// The same as it is written as a value of a program: a map of one member, the prefix, for each.
fn written(alloc: Global, depth: u32) -> Result<AttributeValue> {
    let mut value = under(alloc, "NULL", AttributeValue::Bool(true))?;
    for _ in 0..depth {
        value = under(alloc, "L", listed(alloc, value)?)?;
    }
    Ok(value)
}

fn listed(alloc: Global, value: AttributeValue) -> Result<AttributeValue> {
    let mut list = Vec::new(alloc);
    list.push(value)?;
    Ok(AttributeValue::L(list))
}

fn under(alloc: Global, prefix: &str, content: AttributeValue) -> Result<AttributeValue> {
    let mut map = HashMap::new(alloc);
    drop(map.insert(String::from_str(alloc, prefix)?, content)?);
    Ok(AttributeValue::M(map))
}
