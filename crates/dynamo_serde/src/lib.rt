//! Types that derive serde's `Serialize` and `Deserialize`, as DynamoDB attribute values and items.
//!
//! A type derives the two traits of the kit's crate `serde`. [`to_item`] and [`to_attribute_value`]
//! write it, [`from_item`], [`from_items`] and [`from_attribute_value`] read it, and [`read_item`]
//! and [`read_attribute_value`] borrow what they read. Floats and serde's attributes work:
//! renaming, defaults, skipping, flattening, and all four enum representations.
//!
//! [`from_item_located`] and its namesakes also say where an error was found, as in
//! `orders[3].price: Expected num`.
//!
//! A field that is a byte string, a set or an attribute value says so, as in the example:
//! [`bytes`], [`byte_buf`], [`string_set`], [`number_set`], [`binary_set`], [`attribute_value`] and
//! [`item`].
//!
//! Lists and maps have at most 127 levels, in what is written and in what is read.
//!
//! # Examples
//!
//! ```rust
//! use serde::{Deserialize, Serialize};
//! use serde_dynamo::{DynamoJson, Item};
//!
//! #[derive(Drop, Serialize, Deserialize)]
//! #[serde(rename_all = "camelCase")]
//! struct Photo {
//!     file_name: String,
//!     #[serde(with = "dynamo_serde::bytes")]
//!     hash: Vec<u8>,
//!     #[serde(with = "dynamo_serde::number_set")]
//!     sizes: Vec<u32>,
//!     #[serde(default)]
//!     stars: u8,
//! }
//!
//! let item = Item::from_json_text(
//!     alloc,
//!     r#"{"fileName": {"S": "a.png"}, "hash": {"B": "AQI="}, "sizes": {"NS": ["16", "32"]}}"#,
//! )?;
//! let photo: Photo = dynamo_serde::read_item(alloc, &item)?;
//! assert_eq!(rt; photo.sizes.as_slice(), [16, 32].as_slice());
//! assert_eq!(rt; photo.stars, 0);
//!
//! let again = dynamo_serde::to_item(alloc, &photo)?;
//! assert!(rt; again.get("hash") == item.get("hash") && again.get("stars").is_some());
//! ```
#![tactic(auto)]

mod builder;
mod events;
mod fault;
mod format;
mod kinds;
mod located;
mod located_tape;
mod open;
mod symbol;
mod tape;
mod trail;
mod typed;
mod with;
mod writer;

pub use located::{
    from_attribute_value_located, from_item_located, from_items_located, read_item_located,
};
pub use tape::{Mark, Tape};
pub use typed::{
    from_attribute_value, from_item, from_items, read_attribute_value, read_item,
    to_attribute_value, to_item,
};
pub use with::{attribute_value, binary_set, byte_buf, bytes, item, number_set, string_set};
