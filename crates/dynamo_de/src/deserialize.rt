ghost use Rattle.std.specs.Prelude.{Result};
ghost use Rattle.dynamo_value.specs.Fault.{Fault};
ghost use Rattle.dynamo_de.specs.Meets.{Meets};
ghost use Rattle.dynamo_de.specs.Source.{Source};

use crate::{Deserializer, Error};
use std::alloc::Global;
use std::marker::PhantomData;

/// A type whose values can be read, as serde's `Deserialize`.
///
/// # Examples
///
/// ```rust
/// ghost use Rattle.dynamo_de.specs.Answer.{Gives};
/// ghost use Rattle.dynamo_de.specs.Reading.{read_integer};
/// ghost use Rattle.dynamo_value.specs.Integer as integers;
/// ghost use Rattle.std.specs.Prelude.{pos};
///
/// use serde_dynamo::de::{Deserialize, Deserializer};
/// use serde_dynamo::{AttributeValue, from_attribute_value};
/// use std::alloc::Global;
///
/// #[derive(Drop)]
/// struct Age(u8);
///
/// impl Deserialize for Age {
///     ghost reads = { λ s. Gives (λ age. pos age.0) (read_integer integers.u8 s) };
///
///     fn deserialize<D: Deserializer>(alloc: Global, deserializer: D) -> Result<Age, D::Error> {
///         Ok(Age(u8::deserialize(alloc, deserializer)?))
///     }
/// }
///
/// let value = AttributeValue::N(String::from_str(alloc, "42")?);
/// let age: Age = from_attribute_value(alloc, value)?;
/// assert_eq!(rt; age.0, 42);
/// ```
pub trait Deserialize: Sized + Drop {
    // The results that the type permits for each source: values or faults.
    ghost reads: { Source → Result Self Fault → Type 0 };

    /// Reads a value.
    ///
    /// # Errors
    ///
    /// Returns an error of the deserializer or of the type, as the ghost member `reads` has it.
    /// Returns the error for out of memory if memory runs out.
    fn deserialize<D: Deserializer>(alloc: Global, deserializer: D) -> Result<Self, D::Error>
        ensures { Meets D.Error.fault (reads (D.source deserializer)) result };
}

/// A reader of values that has some state, as serde's `DeserializeSeed`.
pub trait DeserializeSeed: Sized + Drop {
    /// The type of the value.
    type Value: Drop;

    // The results that the seed permits for each source: values or faults.
    ghost reads: { Self → Source → Result Self.Value Fault → Type 0 };

    /// Reads a value.
    ///
    /// # Errors
    ///
    /// Returns an error of the deserializer or of the seed, as the ghost member `reads` has it.
    /// Returns the error for out of memory if memory runs out.
    fn deserialize<D: Deserializer>(self, deserializer: D) -> Result<Self::Value, D::Error>
        ensures { Meets D.Error.fault (reads self (D.source deserializer)) result };
}

/// The seed that reads a `T` by `T::deserialize`. serde has `PhantomData<T>` for it.
#[derive(Drop)]
pub struct TypeSeed<T> {
    alloc: Global,
    of: PhantomData<T>,
}

impl<T> TypeSeed<T> {
    /// Returns the seed of `T`. It allocates nothing.
    pub fn new(alloc: Global) -> Self {
        TypeSeed {
            alloc,
            of: PhantomData,
        }
    }
}

impl<T: Deserialize> DeserializeSeed for TypeSeed<T> {
    type Value = T;

    ghost reads = { λ _. T.reads };

    fn deserialize<D: Deserializer>(self, deserializer: D) -> Result<T, D::Error> {
        T::deserialize(self.alloc, deserializer)
    }
}
