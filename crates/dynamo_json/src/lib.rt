//! JSON: attribute values and items as DynamoDB JSON, both ways, and values as plain JSON.
#![tactic(auto)]

mod conforms;
mod dynamo;
mod from_json;
mod from_text;
mod json_text;
mod layout;
mod plain;
mod text_error;
mod to_json;
mod under;
mod via_json;
mod without_floats;

pub use dynamo::DynamoJson;
pub use json_text::{plain_text, stored_text};
pub use plain::to_json_value;
pub use text_error::TextError;
pub use under::item_under;
pub use via_json::to_attribute_value_via_json;
pub use without_floats::is_without_floats;
