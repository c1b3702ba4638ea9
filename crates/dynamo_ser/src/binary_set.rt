//! Writes a list of byte strings as a binary set.
//!
//! [`serialize`] and [`BinarySet`] write a newtype struct with the name [`NEWTYPE_SYMBOL`]. The
//! serializer of attribute values writes its content as the binary set `Bs`. Any other serializer
//! sees a newtype struct. The set holds the elements as they come: an empty list and equal elements
//! are not refused.

ghost use Rattle.dynamo_ser.specs.Datum as datum;
ghost use Rattle.dynamo_ser.specs.Symbols.{symbol, blobs};
ghost use Rattle.dynamo_ser.specs.Writes.{Writes};

use crate::{Serialize, Serializer};

/// The name of a newtype struct that is written as a binary set: a word between two characters
/// U+037E.
pub const NEWTYPE_SYMBOL: &str = "\u{37e}BYTESSET\u{37e}";

/// Writes a list of byte strings as a binary set.
///
/// It is for an `impl Serialize` that writes its own set. [`BinarySet`] does the same as a wrapper.
///
/// # Errors
///
/// Returns the error of the list if the serializer refuses the list itself.
///
/// The serializer of attribute values returns `NotSetlike` if the value isn't written as a list,
/// and `BinarySetExpectedType` if an element isn't written as a byte string. An element of type
/// `Vec<u8>` isn't: it is written as a list of numbers. It returns `OutOfMemory` if memory runs
/// out.
pub fn serialize<T: Serialize, S: Serializer>(value: &T, serializer: S) -> Result<S::Ok, S::Error>
    ensures { Writes S.Error.fault (T.wants value.now) (S.outcome serializer)
        (datum.newtype_struct (symbol blobs) (T.tells value.now)) result }
{
    serializer.serialize_newtype_struct(NEWTYPE_SYMBOL, value)
}

/// A list of byte strings that is written as a binary set. Writing it fails with the errors of
/// [`serialize`].
///
/// # Examples
///
/// ```rust
/// use serde_dynamo::{AttributeValue, BinarySet, Bytes, to_attribute_value};
///
/// let keys = vec![in alloc; Bytes::new(b"Sunny"), Bytes::new(b"Rainy")]?;
/// let value = to_attribute_value(alloc, &BinarySet(&keys))?;
/// assert!(rt; matches!(&value, AttributeValue::Bs(set) if set.len() == 2));
/// ```
#[derive(Clone, Debug, Drop, PartialEq, Eq, PartialOrd, Ord, Hash)]
pub struct BinarySet<T>(pub T);

impl<T: Serialize> Serialize for BinarySet<T> {
    ghost tells = { λ set. datum.newtype_struct (symbol blobs) (T.tells set.0) };

    ghost wants = { λ set. T.wants set.0 };

    fn serialize<S: Serializer>(&self, serializer: S) -> Result<S::Ok, S::Error> {
        serialize(&self.0, serializer)
    }
}
