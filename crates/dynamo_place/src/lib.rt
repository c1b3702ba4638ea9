//! Errors with places: a located call reports where in the value an error is, for example
//! `orders[3].price: Expected num`.
//!
//! [`from_attribute_value_located`], [`from_item_located`], [`from_item_ref_located`] and
//! [`from_items_located`] return what their namesakes in `dynamo_read` return, with the [`Place`]
//! of an error. [`read_located`] does the same for any [`Reader`](dynamo_de::Reader).
//!
//! [`to_attribute_value_located`] and [`to_item_located`] return what their namesakes in
//! `dynamo_write` return, with the [`Place`] of an error in the value that is written.
//! [`DynamoJsonLocated`] does the same when DynamoDB JSON is read.
#![tactic(auto)]

mod fault;
mod from_json;
mod located;
mod located_error;
mod locating;
mod locating_parts;
mod place;
mod read;
mod spot;
mod trail;
mod without_indexes;
mod write;

pub use from_json::DynamoJsonLocated;
pub use located::{Located, LocatedChoice, LocatedElements, LocatedEntries};
pub use located_error::LocatedError;
pub use place::{Place, Step};
pub use read::{
    from_attribute_value_located, from_item_located, from_item_ref_located, from_items_located,
    read_located,
};
pub use without_indexes::WithoutIndexes;
pub use write::{to_attribute_value_located, to_item_located};
