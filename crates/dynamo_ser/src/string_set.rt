//! Writes a list of strings as a string set.
//!
//! [`serialize`] and [`StringSet`] write a newtype struct with the name [`NEWTYPE_SYMBOL`]. The
//! serializer of attribute values writes its content as the string set `Ss`. Any other serializer
//! sees a newtype struct. The set holds the elements as they come: an empty list and equal elements
//! are not refused.

ghost use Rattle.dynamo_ser.specs.Datum as datum;
ghost use Rattle.dynamo_ser.specs.Symbols.{symbol, strings};
ghost use Rattle.dynamo_ser.specs.Writes.{Writes};

use crate::{Serialize, Serializer};

/// The name of a newtype struct that is written as a string set: a word between two characters
/// U+037E.
pub const NEWTYPE_SYMBOL: &str = "\u{37e}STRINGSET\u{37e}";

/// Writes a list of strings as a string set.
///
/// It is for an `impl Serialize` that writes its own set. [`StringSet`] does the same as a wrapper.
///
/// # Errors
///
/// Returns the error of the list if the serializer refuses the list itself.
///
/// The serializer of attribute values returns `NotSetlike` if the value isn't written as a list,
/// and `StringSetExpectedType` if an element isn't written as a string. It returns `OutOfMemory` if
/// memory runs out.
pub fn serialize<T: Serialize, S: Serializer>(value: &T, serializer: S) -> Result<S::Ok, S::Error>
    ensures { Writes S.Error.fault (T.wants value.now) (S.outcome serializer)
        (datum.newtype_struct (symbol strings) (T.tells value.now)) result }
{
    serializer.serialize_newtype_struct(NEWTYPE_SYMBOL, value)
}

/// A list of strings that is written as a string set. Writing it fails with the errors of
/// [`serialize`].
///
/// # Examples
///
/// ```rust
/// use serde_dynamo::{AttributeValue, StringSet, Text, to_attribute_value};
///
/// let names = vec![in alloc; Text::new("Giraffe"), Text::new("Hippo")]?;
/// let value = to_attribute_value(alloc, &StringSet(&names))?;
/// assert!(rt; matches!(&value, AttributeValue::Ss(set) if set.len() == 2));
///
/// // An element that is written as another kind is refused.
/// let numbers = vec![in alloc; 3u8]?;
/// let Err(error) = to_attribute_value(alloc, &StringSet(&numbers)) else {
///     anyhow::bail!("a number is no string");
/// };
/// assert_eq!(
///     rt;
///     error.to_string(alloc)?.as_str(),
///     "String set element does not serialize to string"
/// );
/// ```
#[derive(Clone, Debug, Drop, PartialEq, Eq, PartialOrd, Ord, Hash)]
pub struct StringSet<T>(pub T);

impl<T: Serialize> Serialize for StringSet<T> {
    ghost tells = { λ set. datum.newtype_struct (symbol strings) (T.tells set.0) };

    ghost wants = { λ set. T.wants set.0 };

    fn serialize<S: Serializer>(&self, serializer: S) -> Result<S::Ok, S::Error> {
        serialize(&self.0, serializer)
    }
}
