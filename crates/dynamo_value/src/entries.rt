ghost use Rattle.std.specs.Prelude.{◌≡◌, IfOk, map};
ghost use Rattle.dynamo_value.specs.Entries.{entry_of, seen_entries};
ghost use Rattle.dynamo_value.specs.View.{entries_view};

use crate::AttributeValue;
use std::alloc::{AllocError, Global};
use std::collections::HashMap;

/// Returns the entries of a map, borrowed, in ascending order of the bytes of their keys.
///
/// # Errors
///
/// Returns [`AllocError`] if memory runs out for the list.
///
/// # Examples
///
/// ```rust
/// use dynamo_value::entries_by_key;
/// use serde_dynamo::{AttributeValue, DynamoJson};
///
/// let json = r#"{"M": {"b": {"S": ""}, "a": {"N": "1"}}}"#;
/// let value = AttributeValue::from_json_text(alloc, json)?;
/// let AttributeValue::M(map) = &value else {
///     anyhow::bail!("it is a map");
/// };
/// let entries = entries_by_key(alloc, map)?;
/// let keys: Vec<&str> = entries.iter().map(|entry| entry.0.as_str()).collect(alloc)?;
/// assert_eq!(rt; keys.as_slice(), ["a", "b"].as_slice());
/// ```
#[inline(never)]
pub fn entries_by_key<'a>(
    alloc: Global,
    members: &'a HashMap<String, AttributeValue>,
) -> Result<Vec<(&'a String, &'a AttributeValue)>, AllocError>
    ensures { IfOk result
        (λ list. seen_entries (map entry_of list.items) ≡ entries_view members.now.entries) }
{
    let mut entries = Vec::with_capacity(alloc, members.len())?;
    for (key, value) in members.iter() {
        entries.push((key, value))?;
    }
    entries.sort_unstable_by(|a, b| a.0.cmp(b.0));
    Ok(entries)
}
