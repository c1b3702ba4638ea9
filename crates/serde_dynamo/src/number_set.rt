//! Lists that are written as sets of numbers, and read back as lists.

pub use dynamo_de::set::deserialize;
pub use dynamo_ser::number_set::{NEWTYPE_SYMBOL, NumberSet, serialize};
