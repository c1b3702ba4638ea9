ghost use Rattle.dynamo_value.specs.Kind.{fault_of};
ghost use Rattle.dynamo_ser.specs.Writes.{Writes};
ghost use Rattle.dynamo_json.specs.PlainAnswers.{AnswersPlain};

mod builders;
mod numbers;
mod serializer;

use dynamo_ser::Serialize;
use dynamo_value::Result;
use serde_json::Value;
use serializer::Serializer;
use std::alloc::Global;

/// Writes a value as plain JSON. It returns what `serde_json::to_value` returns in Rust.
///
/// Booleans and integers are themselves. Characters, strings and unit variants are strings, and
/// byte strings are arrays of numbers. `None`, `()` and unit structs are `null`. `Some` and newtype
/// structs, the wrappers of sets among them, are their content. Sequences, tuples and tuple structs
/// are arrays, maps and structs are objects. Other variants are objects of one member, from the
/// variant's name to its content. If keys are equal, the last value counts.
///
/// # Errors
///
/// Returns the first error in the order in which the value is written, for an entry that of its key
/// before that of its value:
///
/// - [`ErrorImpl::Message`](dynamo_value::ErrorImpl::Message) `number out of range` for an integer
///   that neither a `u64` nor an `i64` holds;
/// - [`ErrorImpl::KeyMustBeAString`](dynamo_value::ErrorImpl::KeyMustBeAString) for a map whose key
///   isn't written as a string;
/// - [`ErrorImpl::Message`](dynamo_value::ErrorImpl::Message) for an error of the value's own
///   [`Serialize`] implementation.
///
/// Returns [`ErrorImpl::OutOfMemory`](dynamo_value::ErrorImpl::OutOfMemory) if memory runs out.
///
/// # Examples
///
/// ```rust
/// use serde_dynamo::{StringSet, Text, to_json_value};
///
/// let names = vec![in alloc; Text::new("Giraffe"), Text::new("Hippo")]?;
/// let json = to_json_value(alloc, &StringSet(&names))?;
/// assert_eq!(rt; json.to_string(alloc)?.as_str(), r#"["Giraffe","Hippo"]"#);
/// ```
pub fn to_json_value<T: Serialize + Drop>(alloc: Global, value: T) -> Result<Value>
    ensures { Writes fault_of (T.wants value) AnswersPlain (T.tells value) result }
{
    value.serialize(Serializer::new(alloc))
}
