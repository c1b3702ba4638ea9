ghost use Rattle.dynamo_ser.specs.Datum.{Datum};
ghost use Rattle.dynamo_ser.specs.Writes.{Writes};

use crate::Serializer;

/// A value that can be written, as serde's `Serialize`.
///
/// An implementation calls the serializer as serde's data model has it. Its ghost member `tells`
/// names the datum that these calls mean. A hashed map's datum lists the entries in the order in
/// which the map keeps them.
///
/// # Examples
///
/// ```rust
/// ghost use Rattle.dynamo_ser.specs.Datum as datum;
/// ghost use Rattle.std.specs.Prelude.{pos};
///
/// use serde_dynamo::ser::{Serialize, Serializer};
/// use serde_dynamo::{AttributeValue, to_attribute_value};
///
/// #[derive(Drop)]
/// struct Age(u8);
///
/// impl Serialize for Age {
///     ghost tells = { λ age. datum.integer datum.u8 (pos age.0) };
///
///     fn serialize<S: Serializer>(&self, serializer: S) -> Result<S::Ok, S::Error> {
///         serializer.serialize_u8(self.0)
///     }
/// }
///
/// let value = to_attribute_value(alloc, &Age(42))?;
/// assert_eq!(rt; value, AttributeValue::N(String::from_str(alloc, "42")?));
/// ```
pub trait Serialize {
    // The datum of a value.
    ghost tells: { Self → Datum };

    // Whether writing the value allocates by itself, apart from the serializer. It doesn't, unless
    // a type says so.
    ghost wants: { Self → Type 0 } = { λ _. ⊥ };

    /// Writes the value.
    ///
    /// # Errors
    ///
    /// Returns an error that the serializer returns for the value's datum. If the value itself
    /// allocates, it can also be the serializer's error for out of memory.
    fn serialize<S: Serializer>(&self, serializer: S) -> Result<S::Ok, S::Error>
        ensures { Writes S.Error.fault (wants self.now) (S.outcome serializer) (tells self.now)
            result };
}
