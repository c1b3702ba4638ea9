//! Attribute values and items in the place of a program's own type.
ghost use Rattle.std.specs.Prelude.{◌≡◌, false, IfOk, IfErr};
ghost use Rattle.serde_dynamo.specs.Fault.{out_of_memory};
ghost use Rattle.serde_dynamo.specs.Item.{item_view};
ghost use Rattle.serde_dynamo.specs.Kind.{fault_of};
ghost use Rattle.serde_dynamo.specs.View as av;
ghost use Rattle.serde_json.specs.View.{view};
ghost use Rattle.serde_json.specs.Written.{has_float};

use serde_dynamo::{
    AttributeValue, DynamoJson, Item, Result, from_attribute_value, is_without_floats, laws,
    to_attribute_value, to_json_value,
};
use serde_json::Value;
use std::alloc::Global;

/// Returns the plain JSON of an attribute value and its DynamoDB JSON, which are the same.
///
/// # Errors
///
/// Returns the error of `to_json_value` or of `to_json`.
pub fn both_json(alloc: Global, value: &AttributeValue) -> Result<(Value, Value)>
    ensures { IfOk result (λ both. view both.0 ≡ view both.1) }
{
    laws::attribute_value();
    Ok((to_json_value(alloc, value)?, value.to_json(alloc)?))
}

/// Returns the plain JSON of an item and its DynamoDB JSON, which are the same.
///
/// # Errors
///
/// Returns the error of `to_json_value` or of `to_json`.
pub fn both_item_json(alloc: Global, item: &Item) -> Result<(Value, Value)>
    ensures { IfOk result (λ both. view both.0 ≡ view both.1) }
{
    laws::attribute_value();
    Ok((to_json_value(alloc, item)?, item.to_json(alloc)?))
}

/// Returns the DynamoDB JSON of an attribute value, and the attribute value that is read from what
/// it is written as, which is the same.
///
/// # Errors
///
/// Returns `OutOfMemory` if memory runs out.
pub fn json_and_back(alloc: Global, value: &AttributeValue) -> Result<(Value, AttributeValue)>
    ensures back { IfOk result (λ both. av.view both.1 ≡ av.view value.now) }
    ensures err { IfErr result (λ e. fault_of e ≡ out_of_memory) }
{
    laws::attribute_value();
    let json = value.to_json(alloc)?;
    let written = to_attribute_value(alloc, value)?;
    let read: AttributeValue = from_attribute_value(alloc, written)?;
    Ok((json, read))
}

/// Writes an attribute value as a value of a program and reads it back, which gives the same.
///
/// # Errors
///
/// Returns `OutOfMemory` if memory runs out.
pub fn and_back(alloc: Global, value: &AttributeValue) -> Result<AttributeValue>
    ensures back { IfOk result (λ read. av.view read ≡ av.view value.now) }
    ensures err { IfErr result (λ e. fault_of e ≡ out_of_memory) }
{
    laws::attribute_value();
    value.conforms();
    let written = to_attribute_value(alloc, value)?;
    from_attribute_value(alloc, written)
}

/// Reads a JSON value from what it is written as. Without floats it is the same.
///
/// # Errors
///
/// Returns `OutOfMemory` if memory runs out. If there is a float, returns the message that it can't
/// be written.
pub fn json_value_and_back(alloc: Global, value: &Value) -> Result<Value>
    ensures back { IfOk result (λ v. has_float (view value.now) ≡ false → view v ≡ view value.now) }
    ensures err { IfErr result
        (λ e. has_float (view value.now) ≡ false → fault_of e ≡ out_of_memory) }
{
    laws::json_value();
    let _no_float = is_without_floats(value);
    let written = to_attribute_value(alloc, value)?;
    from_attribute_value(alloc, written)
}

/// The DynamoDB JSON of an item, and what is read of what it writes: the item again.
///
/// # Errors
///
/// `OutOfMemory` alone.
pub fn item_json_and_back(alloc: Global, item: &Item) -> Result<(Value, Item)>
    ensures back { IfOk result (λ both. item_view both.1 ≡ item_view item.now) }
    ensures err { IfErr result (λ e. fault_of e ≡ out_of_memory) }
{
    laws::attribute_value();
    let json = item.to_json(alloc)?;
    let written = to_attribute_value(alloc, item)?;
    let read: Item = from_attribute_value(alloc, written)?;
    Ok((json, read))
}

/// Writes an item as a value of a program and reads it back, which gives the same.
///
/// # Errors
///
/// Returns `OutOfMemory` if memory runs out.
pub fn item_and_back(alloc: Global, item: &Item) -> Result<Item>
    ensures back { IfOk result (λ read. item_view read ≡ item_view item.now) }
    ensures err { IfErr result (λ e. fault_of e ≡ out_of_memory) }
{
    laws::attribute_value();
    item.conforms();
    let written = to_attribute_value(alloc, item)?;
    let again: Item = from_attribute_value(alloc, written)?;
    Ok(again)
}
