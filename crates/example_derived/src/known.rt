//! Calls of `to_attribute_value` for types whose events are stated: each says which attribute value
//! it returns. That it succeeds is tested. No contract says which error is returned.
ghost use Rattle.std.specs.Prelude.{◌≡◌, map, string_bytes, IfOk, MatchOption, decimal, true};
ghost use Rattle.std.specs.Fmt.{signed_decimal};
ghost use Rattle.dynamo_value.specs.Av as av;
ghost use Rattle.dynamo_value.specs.Av.{elements_of};
ghost use Rattle.dynamo_value.specs.View.{view};
ghost use Rattle.dynamo_serde.specs.Value.{SendsValue};

use dynamo_serde::to_attribute_value;
use dynamo_value::{AttributeValue, Result};
use serde::{Described, Serialize, Serializer};
use std::alloc::Global;

/// Any attribute value, which is written as it is:
/// `#[serde(with = "dynamo_serde::attribute_value")]` does the same for a field.
#[derive(Drop)]
pub struct Any(pub AttributeValue);

impl Described for Any {
    ghost writes = { λ any. SendsValue (view any.0) };
}

impl Serialize for Any {
    fn serialize<S: Serializer>(&self, out: &mut S) -> std::result::Result<(), S::Error> {
        dynamo_serde::attribute_value::serialize(&self.0, out)
    }
}

/// Writes an attribute value.
///
/// # Errors
///
/// Returns the error of [`to_attribute_value`].
pub fn attribute_value(alloc: Global, value: &Any) -> Result<AttributeValue>
    ensures { IfOk result (λ v. view v ≡ view value.now.0) }
{
    let written = to_attribute_value(alloc, value)?;
    Ok(written)
}

/// Writes a boolean.
///
/// # Errors
///
/// Returns the error of [`to_attribute_value`].
pub fn boolean(alloc: Global, b: bool) -> Result<AttributeValue>
    ensures { IfOk result (λ v. view v ≡ av.Boolean b) }
{
    let value = to_attribute_value(alloc, &b)?;
    Ok(value)
}

/// Writes an integer.
///
/// # Errors
///
/// Returns the error of [`to_attribute_value`].
pub fn integer(alloc: Global, n: &i64) -> Result<AttributeValue>
    ensures { IfOk result (λ v. view v ≡ av.N (signed_decimal n.now)) }
{
    let value = to_attribute_value(alloc, n)?;
    Ok(value)
}

/// Writes a string.
///
/// # Errors
///
/// Returns the error of [`to_attribute_value`].
pub fn text(alloc: Global, text: &String) -> Result<AttributeValue>
    ensures { IfOk result (λ v. view v ≡ av.S (string_bytes text.now)) }
{
    let value = to_attribute_value(alloc, text)?;
    Ok(value)
}

/// Writes a boolean or none.
///
/// # Errors
///
/// Returns the error of [`to_attribute_value`].
pub fn optional(alloc: Global, b: Option<bool>) -> Result<AttributeValue>
    ensures { IfOk result
        (λ v. MatchOption b (view v ≡ av.Null true) (λ c. view v ≡ av.Boolean c)) }
{
    let value = to_attribute_value(alloc, &b)?;
    Ok(value)
}

/// Writes a list of integers.
///
/// # Errors
///
/// Returns the error of [`to_attribute_value`].
pub fn numbers(alloc: Global, numbers: &Vec<u64>) -> Result<AttributeValue>
    ensures { IfOk result
        (λ v. view v ≡ av.L (elements_of (map (λ n. av.N (decimal n)) numbers.now.items))) }
{
    let value = to_attribute_value(alloc, numbers)?;
    Ok(value)
}
