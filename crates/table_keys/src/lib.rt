//! What the tables of items share: numbers in order, the keys of items, queries as ranges of keys,
//! and keys as bytes.
//!
//! - [`Number`]: the numbers of DynamoDB, at most 38 digits, compared by value.
//! - [`Key`]: the key of a table's item, which a [`KeySchema`] reads, and how keys compare.
//! - [`Query`] and [`Condition`]: which items a query finds, and whether a change is made. A query
//!   finds the keys of a [`KeyRange`].
//! - [`KeyBytes`]: a key as two byte strings, which are in the order of the keys, and [`Bounds`]:
//!   the bytes of the keys that a query finds.
//!
//! [`laws`] are theorems about keys and numbers.
#![tactic(auto)]

mod bounds;
mod bytes;
mod condition;
mod error;
mod found_range;
mod key;
mod key_range;
pub mod laws;
mod number;
mod place;
mod prefix;
mod query;
mod schema;
mod sort_range;

pub use bounds::Bounds;
pub use bytes::{KeyBytes, bytes_of, sort_bytes};
pub use condition::Condition;
pub use error::TableError;
pub use key::{Key, KeyKind, KeyValue};
pub use key_range::KeyRange;
pub use number::Number;
pub use place::Place;
pub use query::{Query, SortCondition, is_behind};
pub use schema::{KeyAttribute, KeySchema};
