//! The put or the delete of one line of an export.

ghost use Rattle.serde_json.specs.View.{view};
ghost use Rattle.exports.specs.Changes.{ReadsChange, ReadsDelete, ReadsPut};

use crate::{Fault, Request};
use dynamo_place::DynamoJsonLocated;
use dynamo_value::Item;
use serde_json::Value;
use std::alloc::Global;

/// Returns the put or the delete of a line of an export, given the line's JSON value.
///
/// A line of a full export has an `Item`, which is put. A line of an incremental export has `Keys`.
/// If it has a `NewImage`, that is put; otherwise the item under the keys is deleted. Other
/// members, such as `Metadata` and `OldImage`, are ignored. The DynamoDB Developer Guide describes
/// both in "DynamoDB table export output format".
///
/// # Errors
///
/// Returns [`Fault::NoItem`] if the JSON value isn't an object, or has neither `Item` nor `Keys`.
///
/// Returns [`Fault::Form`] if the item or the keys aren't DynamoDB JSON of an item, or if memory
/// runs out.
///
/// # Examples
///
/// ```rust
/// use exports::{Request, change_of};
/// use serde_json::Value;
///
/// let line = r#"{"Metadata": {}, "Keys": {"id": {"S": "a"}}}"#;
/// let change = change_of(alloc, &Value::from_str(alloc, line)?)?;
/// assert!(rt; matches!(change, Request::Delete(keys) if keys.get("id").is_some()));
/// ```
pub fn change_of(alloc: Global, json: &Value) -> Result<Request, Fault>
    ensures { ReadsChange (view json.now) result }
{
    match (json.get("Item"), json.get("Keys"), json.get("NewImage")) {
        (Some(item), _, _) => put_of(alloc, item),
        (None, Some(_), Some(image)) => put_of(alloc, image),
        (None, Some(keys), None) => delete_of(alloc, keys),
        (None, None, _) => Err(Fault::NoItem),
    }
}

fn put_of(alloc: Global, json: &Value) -> Result<Request, Fault>
    ensures { ReadsPut (view json.now) result }
{
    Ok(Request::Put(Item::from_json_located(alloc, json)?))
}

fn delete_of(alloc: Global, json: &Value) -> Result<Request, Fault>
    ensures { ReadsDelete (view json.now) result }
{
    Ok(Request::Delete(Item::from_json_located(alloc, json)?))
}
