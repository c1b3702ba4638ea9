//! The writer: a [`Serializer`] of attribute values.
//!
//! Its builders serve any [`Target`], so a serializer of other values can use them, too.
#![tactic(auto)]

ghost use Rattle.dynamo_value.specs.Kind.{fault_of};
ghost use Rattle.dynamo_ser.specs.Writes.{Writes};
ghost use Rattle.dynamo_write.specs.Answers.{AnswersDatum, AnswersItem};

mod builders;
mod fields;
mod serializer;
mod set;
mod target;

pub use builders::{
    SerializerMap, SerializerSeq, SerializerStruct, SerializerStructVariant, SerializerTupleVariant,
};
use dynamo_ser::Serialize;
use dynamo_value::{AttributeValue, Error, ErrorImpl, Item, Result};
pub use serializer::Serializer;
pub use set::SetKind;
use std::alloc::Global;
pub use target::{ListOf, MapOf, StructOf, StructVariantOf, Target, TupleVariantOf};

/// Writes a value as an attribute value.
///
/// # Errors
///
/// Returns the first error in the order in which the value is written:
///
/// - [`ErrorImpl::KeyMustBeAString`] for a map whose key isn't written as a string;
/// - [`ErrorImpl::NotSetlike`], [`ErrorImpl::StringSetExpectedType`],
///   [`ErrorImpl::NumberSetExpectedType`] or [`ErrorImpl::BinarySetExpectedType`] for a set of
///   something else than a list, or of elements of another kind;
/// - [`ErrorImpl::Message`] for an error of the value's own `Serialize` implementation, as of a
///   float in a `serde_json::Value`.
///
/// Returns [`ErrorImpl::OutOfMemory`] if memory runs out.
///
/// # Examples
///
/// ```rust
/// use serde_dynamo::{AttributeValue, to_attribute_value};
///
/// let numbers = vec![in alloc; 1u8, 2]?;
/// let value = to_attribute_value(alloc, &numbers)?;
/// let one = AttributeValue::N(String::from_str(alloc, "1")?);
/// let two = AttributeValue::N(String::from_str(alloc, "2")?);
/// assert_eq!(rt; value, AttributeValue::L(vec![in alloc; one, two]?));
///
/// let none: Option<u8> = None;
/// assert_eq!(rt; to_attribute_value(alloc, &none)?, AttributeValue::Null(true));
/// ```
pub fn to_attribute_value<T: Serialize + Drop>(alloc: Global, value: T) -> Result<AttributeValue>
    ensures { Writes fault_of (T.wants value) AnswersDatum (T.tells value) result }
{
    value.serialize(Serializer::new(alloc))
}

/// Writes a value as an item.
///
/// # Errors
///
/// Returns [`ErrorImpl::NotMaplike`] if the value isn't written as a map: write a struct, a map or
/// an enum whose variant has content. Otherwise returns the error of [`to_attribute_value`].
///
/// Returns [`ErrorImpl::OutOfMemory`] if memory runs out.
///
/// # Examples
///
/// ```rust
/// use serde_dynamo::samples::User;
/// use serde_dynamo::{AttributeValue, ErrorImpl, to_item};
///
/// let id = String::from_str(alloc, "fSsgVtal8TpP")?;
/// let name = String::from_str(alloc, "Arthur Dent")?;
/// let item = to_item(alloc, &User { id, name, age: 42 })?;
/// assert!(rt; matches!(item.get("age"), Some(AttributeValue::N(age)) if age.as_str() == "42"));
///
/// assert!(rt; matches!(to_item(alloc, 42u8), Err(e) if *e.kind() == ErrorImpl::NotMaplike));
/// ```
pub fn to_item<T: Serialize + Drop>(alloc: Global, value: T) -> Result<Item>
    ensures { AnswersItem (T.wants value) (T.tells value) result }
{
    match to_attribute_value(alloc, value)? {
        AttributeValue::M(map) => Ok(Item::from(map)),
        _other => Err(Error::from(ErrorImpl::NotMaplike)),
    }
}
