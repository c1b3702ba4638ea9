// Any type that serde writes or reads.
ghost use Rattle.std.specs.Prelude.{◌≡◌, [], Some, length, IfOk};
ghost use Rattle.serde.specs.Event.{Log};
ghost use Rattle.dynamo_value.specs.Av as av;
ghost use Rattle.dynamo_value.specs.Item.{item_view, items_view};
ghost use Rattle.dynamo_value.specs.View.{view};
ghost use Rattle.dynamo_serde.specs.Sent.{IsValueOf};

use crate::Tape;
use crate::fault::fault;
use crate::writer::Writer;
use dynamo_value::{AttributeValue, ErrorImpl, Item, Items, Result};
use serde::{DeserializeOwned, Deserializer, Serialize};
use std::alloc::Global;
use std::collections::HashMap;

/// Writes a value as an attribute value.
///
/// # Errors
///
/// Returns the first error in the order in which the value is written:
///
/// - [`ErrorImpl::KeyMustBeAString`] for a map key that isn't a scalar;
/// - [`ErrorImpl::NotSetlike`], [`ErrorImpl::StringSetExpectedType`],
///   [`ErrorImpl::NumberSetExpectedType`] or [`ErrorImpl::BinarySetExpectedType`] for a set of
///   something else than a list, or of elements of another kind;
/// - [`ErrorImpl::Message`] for NaN, an infinite number, more than 127 levels of lists and maps, or
///   an error of the value's own `Serialize` implementation.
///
/// Returns [`ErrorImpl::OutOfMemory`] if memory runs out.
///
/// # Examples
///
/// ```rust
/// use serde_dynamo::AttributeValue;
///
/// let value = dynamo_serde::to_attribute_value(alloc, &1.5f64)?;
/// assert_eq!(rt; value, AttributeValue::N(String::from_str(alloc, "1.5")?));
/// assert!(rt; dynamo_serde::to_attribute_value(alloc, &f64::NAN).is_err());
/// ```
pub fn to_attribute_value<T: Serialize>(alloc: Global, value: &T) -> Result<AttributeValue>
    ensures { IfOk result
        (λ v. (log : Log) × T.writes value.now (Some []) log × IsValueOf log (view v)) }
{
    let mut out = Writer::new(alloc);
    value.serialize(&mut out)?;
    out.into_value()
}

/// Writes a value as an item.
///
/// # Errors
///
/// Returns [`ErrorImpl::NotMaplike`] if the value isn't written as a map. Otherwise returns the
/// error of [`to_attribute_value`].
///
/// Returns [`ErrorImpl::OutOfMemory`] if memory runs out.
pub fn to_item<T: Serialize>(alloc: Global, value: &T) -> Result<Item>
    ensures { IfOk result
        (λ item. (log : Log) × T.writes value.now (Some []) log
        × IsValueOf log (av.M (item_view item))) }
{
    match to_attribute_value(alloc, value)? {
        AttributeValue::M(map) => Ok(Item::from(map)),
        _ => Err(fault(ErrorImpl::NotMaplike)),
    }
}

/// Reads a value from a borrowed attribute value.
///
/// # Errors
///
/// Returns the error of the first part that isn't what the type expects, where maps are read in the
/// order of the bytes of their keys: one of the `Expected` kinds of [`ErrorImpl`],
/// [`ErrorImpl::FailedToParseInt`] or [`ErrorImpl::FailedToParseFloat`] for a number, or
/// [`ErrorImpl::Message`], as for a missing field or more than 127 levels of lists and maps.
///
/// Returns [`ErrorImpl::OutOfMemory`] if memory runs out.
pub fn read_attribute_value<T: DeserializeOwned>(
    alloc: Global,
    value: &AttributeValue,
) -> Result<T> {
    read_tape(alloc, Tape::new(alloc, value)?)
}

/// Reads a value from an attribute value.
///
/// # Errors
///
/// Returns the error of [`read_attribute_value`].
pub fn from_attribute_value<T: DeserializeOwned>(
    alloc: Global,
    value: AttributeValue,
) -> Result<T> {
    read_attribute_value(alloc, &value)
}

// Reads a value from a tape.
fn read_tape<T: DeserializeOwned>(alloc: Global, mut tape: Tape<'_>) -> Result<T> {
    T::deserialize_owned(alloc, &mut Deserializer::new(&[], &mut tape))
}

/// Reads a value from a borrowed item, as [`read_attribute_value`] does from the map of its
/// attributes.
///
/// # Errors
///
/// Returns the error of [`read_attribute_value`].
pub fn read_item<T: DeserializeOwned>(alloc: Global, item: &Item) -> Result<T> {
    read_tape(alloc, Tape::of_map(alloc, item.inner())?)
}

/// Reads a value from an item, as [`read_item`] does.
///
/// # Errors
///
/// Returns the error of [`read_attribute_value`].
///
/// # Examples
///
/// ```rust
/// use serde::{Deserialize, Serialize};
///
/// #[derive(Drop, Serialize, Deserialize)]
/// struct Point {
///     x: i32,
///     y: i32,
/// }
///
/// let item = dynamo_serde::to_item(alloc, &Point { x: 3, y: -4 })?;
/// let point: Point = dynamo_serde::from_item(alloc, item)?;
/// assert_eq!(rt; point.x + point.y, -1);
/// ```
pub fn from_item<T: DeserializeOwned>(alloc: Global, item: Item) -> Result<T> {
    read_item(alloc, &item)
}

/// Reads a list of values from a list of items, one from each, in order.
///
/// # Errors
///
/// Returns the first error of reading an item, as [`read_item`] does.
pub fn from_items<T: DeserializeOwned>(alloc: Global, items: Items) -> Result<Vec<T>>
    ensures { IfOk result (λ values. length values.items ≡ length (items_view items)) }
{
    let maps: Vec<HashMap<String, AttributeValue>> = items.into();
    let mut values = Vec::with_capacity(alloc, maps.len())?;
    for map in &maps {
        values.push(read_tape(alloc, Tape::of_map(alloc, map)?)?)?;
    }
    Ok(values)
}
