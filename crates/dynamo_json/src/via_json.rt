ghost use Rattle.dynamo_json.specs.PlainAnswers.{AnswersViaJson};

use crate::to_json_value;
use dynamo_ser::Serialize;
use dynamo_value::{AttributeValue, Result};
use dynamo_write::to_attribute_value;
use std::alloc::Global;

/// Writes a value as an attribute value by way of plain JSON: [`to_json_value`] and then
/// [`to_attribute_value`].
///
/// For most values it returns what [`to_attribute_value`] returns. Byte strings and sets become
/// lists.
///
/// # Errors
///
/// Returns the error of [`to_json_value`]. Plain JSON of a value is always written, unless memory
/// runs out.
///
/// Returns [`ErrorImpl::OutOfMemory`](dynamo_value::ErrorImpl::OutOfMemory) if memory runs out.
///
/// # Examples
///
/// ```rust
/// use serde_dynamo::{AttributeValue, Bytes, to_attribute_value, to_attribute_value_via_json};
///
/// let bytes = Bytes::new(&[1, 2]);
/// assert!(rt; matches!(to_attribute_value(alloc, &bytes)?, AttributeValue::B(_)));
/// assert!(rt; matches!(to_attribute_value_via_json(alloc, &bytes)?, AttributeValue::L(_)));
/// ```
pub fn to_attribute_value_via_json<T: Serialize + Drop>(
    alloc: Global,
    value: T,
) -> Result<AttributeValue>
    ensures { AnswersViaJson (T.wants value) (T.tells value) result }
{
    let json = to_json_value(alloc, value)?;
    to_attribute_value(alloc, json)
}
