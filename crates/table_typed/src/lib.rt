//! A table in memory of the values of one type, for a service and its tests.
//!
//! [`TypedTable`] is the table. A type of its values implements [`AsItem`] and [`Keyed`].
#![tactic(auto)]

mod as_item;
mod change;
mod error;
mod item;
mod keyed;
pub mod laws;
mod located;
mod table;

pub use as_item::AsItem;
pub use error::TypedTableError;
pub use item::{item_of, value_from, value_of};
pub use keyed::Keyed;
pub use located::place_of_error;
pub use table::TypedTable;
