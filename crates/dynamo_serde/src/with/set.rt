// What reads a set of strings and a set of numbers.
use serde::{DeserializeOwned, Deserializer, Format};
use std::alloc::Global;

/// Reads a set, or a list of its elements.
///
/// # Errors
///
/// Returns the error of reading the value by its type.
pub fn deserialize<T: DeserializeOwned, F: Format>(
    alloc: Global,
    from: &mut Deserializer<'_, '_, F>,
) -> Result<T, F::Error> {
    T::deserialize_owned(alloc, from)
}
