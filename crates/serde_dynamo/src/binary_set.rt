//! Lists that are written as sets of byte strings, and read back as lists.

pub use dynamo_de::set::deserialize;
pub use dynamo_ser::binary_set::{BinarySet, NEWTYPE_SYMBOL, serialize};
