ghost use Rattle.std.specs.Prelude.{◌≡◌};
ghost use Rattle.dynamo_value.specs.Kind.{fault_of};
ghost use Rattle.dynamo_ser.specs.Writes.{Writes};
ghost use Rattle.dynamo_write.specs.Answers.{AnswersDatum, AnswersItem};
ghost use Rattle.dynamo_place.specs.Placed.{without_place};

use crate::locating::LocatingSerializer;
use crate::trail::Trail;
use crate::{LocatedError, Place};
use dynamo_ser::{Serialize, Serializer};
use dynamo_value::{AttributeValue, Error, Item};
use dynamo_write::{to_attribute_value, to_item};
use std::alloc::Global;

/// Writes a value as an attribute value as `to_attribute_value` does, and says where an error was
/// met.
///
/// The place is that of the part of the value that is refused: of a map whose key isn't a string,
/// of an element that its set can't have, or of what is to be a set and isn't a list. It is empty
/// for the whole value, and if memory for it runs out. A value that is refused is written a second
/// time, to find the place.
///
/// # Errors
///
/// Returns an error that `to_attribute_value` may return, with its place in the value.
///
/// # Examples
///
/// ```rust
/// use dynamo_place::to_attribute_value_located;
/// use serde_dynamo::StringSet;
///
/// let numbers = vec![in alloc; 1u8, 2]?;
/// let Err(error) = to_attribute_value_located(alloc, &(true, StringSet(&numbers))) else {
///     anyhow::bail!("a number is no element of a set of strings");
/// };
/// assert!(rt; error.to_string(alloc)?.as_str().starts_with("[1][0]: "));
/// ```
pub fn to_attribute_value_located<T: Serialize + Drop>(
    alloc: Global,
    value: T,
) -> Result<AttributeValue, LocatedError<Error>>
    ensures { Writes fault_of (T.wants value) AnswersDatum (T.tells value) (without_place result) }
{
    with_place(alloc, &value, to_attribute_value(alloc, &value))
}

/// Writes a value as an item as `to_item` does, and says where an error was met, as
/// [`to_attribute_value_located`] does.
///
/// # Errors
///
/// Returns an error that `to_item` may return, with its place in the value. The place of
/// [`ErrorImpl::NotMaplike`](dynamo_value::ErrorImpl::NotMaplike) is empty.
///
/// # Examples
///
/// ```rust
/// use dynamo_place::to_item_located;
///
/// let parcel: serde_json::Value = serde_json::from_str(alloc, r#"{"weights": [1, 0.5]}"#)?;
/// let Err(error) = to_item_located(alloc, &parcel) else {
///     anyhow::bail!("a float isn't written");
/// };
/// assert_eq!(rt; error.to_string(alloc)?.as_str(), "weights[1]: JSON floats are not supported");
/// ```
pub fn to_item_located<T: Serialize + Drop>(
    alloc: Global,
    value: T,
) -> Result<Item, LocatedError<Error>>
    ensures { AnswersItem (T.wants value) (T.tells value) (without_place result) }
{
    with_place(alloc, &value, to_item(alloc, &value))
}

// What a value was written as, or the error with its place.
fn with_place<T: Serialize, W: Drop>(
    alloc: Global,
    value: &T,
    written: Result<W, Error>,
) -> Result<W, LocatedError<Error>>
    ensures { without_place result ≡ written }
{
    match written {
        Ok(written) => Ok(written),
        Err(error) => Err(LocatedError {
            place: place_of(alloc, value, &error),
            error,
        }),
    }
}

// The place where an error is met when a value is written again, or the empty one if it isn't met
// again.
fn place_of<T: Serialize>(alloc: Global, value: &T, error: &Error) -> Place {
    let trail = Trail::new(alloc);
    match write_to(value, LocatingSerializer::new(alloc, &trail)) {
        Err(again) if again.kind() == error.kind() => trail.into_place(),
        _ => Place::new(),
    }
}

// Writes a value with any serializer, so that the proof of a caller with a certain one is short.
fn write_to<T: Serialize, S: Serializer>(value: &T, serializer: S) -> Result<S::Ok, S::Error> {
    value.serialize(serializer)
}
