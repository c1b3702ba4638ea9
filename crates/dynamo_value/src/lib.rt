//! DynamoDB's data: attribute values, items, byte strings, borrowed strings, and the errors of
//! writing and reading them.
#![tactic(auto)]

mod attribute_value;
pub mod base64_text;
mod bytes;
mod entries;
mod error;
mod integer;
mod item;
mod prefix;
pub mod refusal;
pub mod serde_error;
mod text;

pub use attribute_value::AttributeValue;
pub use bytes::{ByteBuf, Bytes};
pub use entries::entries_by_key;
pub use error::{Error, ErrorImpl, Result};
pub use integer::{Integer, IntegerKind};
pub use item::{Item, Items};
pub use prefix::Prefix;
pub use text::Text;
