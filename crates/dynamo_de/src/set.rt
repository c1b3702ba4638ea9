//! Reads a list that is written as a set.
ghost use Rattle.dynamo_de.specs.Meets.{Meets};

use crate::{Deserialize, Deserializer, Error};
use std::alloc::Global;

/// Reads a value of any type: a list reads from `Ss`, `Ns` and `Bs` as from `L`.
///
/// It is the counterpart of `serialize` of `string_set`, `number_set` and `binary_set`, for an
/// `impl Deserialize` that reads its own set.
///
/// # Errors
///
/// Returns the error of reading the value by its type.
pub fn deserialize<T: Deserialize, D: Deserializer>(
    alloc: Global,
    deserializer: D,
) -> Result<T, D::Error>
    ensures { Meets D.Error.fault (T.reads (D.source deserializer)) result }
{
    T::deserialize(alloc, deserializer)
}
