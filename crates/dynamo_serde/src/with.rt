// What a field names by `#[serde(with = "..")]`.
pub mod attribute_value;
pub mod binary_set;
pub mod byte_buf;
pub mod bytes;
pub mod item;
pub mod number_set;
mod set;
pub mod string_set;
