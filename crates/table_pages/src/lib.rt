//! A SQLite database in memory, in which running out of memory is an ordinary error.
//!
//! [`connect`] opens an empty database. Its store is that of a database in a file, over two files in
//! memory ([`Memory`]). If one of these gets no memory, the store reports a failure of the disk,
//! which [`InMemory`] returns as out of memory. The transaction is rolled back, and the database
//! stays open.
#![tactic(auto)]

mod in_memory;
mod memory;
mod open;

pub use in_memory::InMemory;
pub use memory::Memory;
pub use open::{MemoryPages, connect};
