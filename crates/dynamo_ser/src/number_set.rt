//! Writes a list of numbers as a number set.
//!
//! [`serialize`] and [`NumberSet`] write a newtype struct with the name [`NEWTYPE_SYMBOL`]. The
//! serializer of attribute values writes its content as the number set `Ns`. Any other serializer
//! sees a newtype struct. The set holds the elements as they come: an empty list and equal elements
//! are not refused.

ghost use Rattle.dynamo_ser.specs.Datum as datum;
ghost use Rattle.dynamo_ser.specs.Symbols.{symbol, numbers};
ghost use Rattle.dynamo_ser.specs.Writes.{Writes};

use crate::{Serialize, Serializer};

/// The name of a newtype struct that is written as a number set: a word between two characters
/// U+037E.
pub const NEWTYPE_SYMBOL: &str = "\u{37e}NUMBERSET\u{37e}";

/// Writes a list of numbers as a number set.
///
/// It is for an `impl Serialize` that writes its own set. [`NumberSet`] does the same as a wrapper.
///
/// # Errors
///
/// Returns the error of the list if the serializer refuses the list itself.
///
/// The serializer of attribute values returns `NotSetlike` if the value isn't written as a list,
/// and `NumberSetExpectedType` if an element isn't written as a number. It returns `OutOfMemory` if
/// memory runs out.
pub fn serialize<T: Serialize, S: Serializer>(value: &T, serializer: S) -> Result<S::Ok, S::Error>
    ensures { Writes S.Error.fault (T.wants value.now) (S.outcome serializer)
        (datum.newtype_struct (symbol numbers) (T.tells value.now)) result }
{
    serializer.serialize_newtype_struct(NEWTYPE_SYMBOL, value)
}

/// A list of numbers that is written as a number set. Writing it fails with the errors of
/// [`serialize`].
///
/// # Examples
///
/// ```rust
/// use serde_dynamo::{AttributeValue, NumberSet, from_attribute_value, to_attribute_value};
///
/// let numbers = vec![in alloc; 3u8, 5]?;
/// let value = to_attribute_value(alloc, &NumberSet(&numbers))?;
/// assert!(rt; matches!(&value, AttributeValue::Ns(set) if set.len() == 2));
///
/// // A list reads from a set as from a list.
/// let back: Vec<u8> = from_attribute_value(alloc, value)?;
/// assert_eq!(rt; back, numbers);
/// ```
#[derive(Clone, Debug, Drop, PartialEq, Eq, PartialOrd, Ord, Hash)]
pub struct NumberSet<T>(pub T);

impl<T: Serialize> Serialize for NumberSet<T> {
    ghost tells = { λ set. datum.newtype_struct (symbol numbers) (T.tells set.0) };

    ghost wants = { λ set. T.wants set.0 };

    fn serialize<S: Serializer>(&self, serializer: S) -> Result<S::Ok, S::Error> {
        serialize(&self.0, serializer)
    }
}
