//! Lists that are written as sets of strings, and read back as lists.

pub use dynamo_de::set::deserialize;
pub use dynamo_ser::string_set::{NEWTYPE_SYMBOL, StringSet, serialize};
