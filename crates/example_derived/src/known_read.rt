//! Reads of scalars, whose implementations serde states: if one returns a value, the attribute
//! value is the one of that value.
ghost use Rattle.std.specs.Prelude.{◌≡◌, ℕ, List, true, string_bytes, IfOk, IfNone};
ghost use Rattle.dynamo_value.specs.Av as av;
ghost use Rattle.dynamo_value.specs.View.{view};
ghost use Rattle.dynamo_serde.specs.Laid.{IsSigned, IsUnsigned};

use dynamo_serde::Tape;
use dynamo_value::{AttributeValue, Result};
use serde::{DeserializeOwned, Deserializer};
use std::alloc::Global;

/// Reads a boolean.
///
/// # Errors
///
/// Returns the error of [`read_attribute_value`](dynamo_serde::read_attribute_value).
pub fn boolean(alloc: Global, value: &AttributeValue) -> Result<bool>
    ensures { IfOk result (λ b. view value.now ≡ av.Boolean b) }
{
    let mut tape = Tape::new(alloc, value)?;
    bool::deserialize_owned(alloc, &mut Deserializer::new(&[], &mut tape))
}

/// Reads an integer, from a number that is its string.
///
/// # Errors
///
/// Returns the error of [`read_attribute_value`](dynamo_serde::read_attribute_value).
pub fn integer(alloc: Global, value: &AttributeValue) -> Result<i64>
    ensures { IfOk result (λ n. (s : List ℕ) × (view value.now ≡ av.N s) × IsSigned n s) }
{
    let mut tape = Tape::new(alloc, value)?;
    i64::deserialize_owned(alloc, &mut Deserializer::new(&[], &mut tape))
}

/// Reads a small integer, if its type holds it.
///
/// # Errors
///
/// Returns the error of [`read_attribute_value`](dynamo_serde::read_attribute_value).
pub fn small(alloc: Global, value: &AttributeValue) -> Result<u8>
    ensures { IfOk result (λ n. (s : List ℕ) × (view value.now ≡ av.N s) × IsUnsigned n s) }
{
    let mut tape = Tape::new(alloc, value)?;
    u8::deserialize_owned(alloc, &mut Deserializer::new(&[], &mut tape))
}

/// Reads a string.
///
/// # Errors
///
/// Returns the error of [`read_attribute_value`](dynamo_serde::read_attribute_value).
pub fn text(alloc: Global, value: &AttributeValue) -> Result<String>
    ensures { IfOk result (λ s. view value.now ≡ av.S (string_bytes s)) }
{
    let mut tape = Tape::new(alloc, value)?;
    String::deserialize_owned(alloc, &mut Deserializer::new(&[], &mut tape))
}

/// Reads a boolean or none. Of an option serde states only when it is none.
///
/// # Errors
///
/// Returns the error of [`read_attribute_value`](dynamo_serde::read_attribute_value).
pub fn optional(alloc: Global, value: &AttributeValue) -> Result<Option<bool>>
    ensures { IfOk result (λ o. IfNone o (view value.now ≡ av.Null true)) }
{
    let mut tape = Tape::new(alloc, value)?;
    Option::<bool>::deserialize_owned(alloc, &mut Deserializer::new(&[], &mut tape))
}
