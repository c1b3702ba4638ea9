//! A DynamoDB table in a SQLite database: the calls of the table in memory, for a file.
//!
//! [`TableStore`] is the table. [`rows`] are the rows of the database that hold it.
#![tactic(auto)]

mod depth;
mod error;
mod open;
pub mod rows;
mod store;

pub use error::StoreError;
pub use open::{create_at, create_in_memory, create_in_memory_file, open_at};
pub use store::TableStore;
pub use table_pages::MemoryPages;
