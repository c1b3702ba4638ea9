//! A table in a SQLite database of the values of one type.
//!
//! [`TypedStore`] is the table. A type of its values implements `AsItem` and `Keyed` of
//! `table_typed`.
#![tactic(auto)]

mod change;
mod error;
mod located;
mod store;

pub use error::TypedStoreError;
pub use store::TypedStore;
