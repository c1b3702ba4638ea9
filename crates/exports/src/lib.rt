//! Reads items from the files of AWS's tools, and finds those that can't be read as a type.
//!
//! - [`Lines`] reads the items of a full export to S3, one in each line. A line without an item is
//!   a [`LineFault`]. Of an incremental export, read each [`Lines::next_text`] as JSON:
//!   [`change_of`] returns the put or the delete of that line.
//! - [`requests_in_file`] reads the request file of `aws dynamodb batch-write-item`.
//! - [`next_value`] reads the next line of an export as a value of a type that implements the
//!   library's `Deserialize`. For a type that derives serde's traits, read the items of [`Lines`]
//!   by `dynamo_serde::from_item_located`. A line that can't be
//!   read is a [`Finding`]. [`Groups`] counts the findings with the same error at the same place,
//!   and [`Summary`] the lines.
//!
//! # Examples
//!
//! ```rust
//! use exports::{Lines, next_value};
//! use serde_dynamo::samples::User;
//!
//! let export = r#"{"Item": {"id": {"S": "a"}, "name": {"S": "b"}, "age": {"S": "42"}}}"#;
//! let mut lines = Lines::with_limit(alloc, export.as_bytes(), 4 << 20);
//! let Some(Err(finding)) = next_value::<User, &[u8]>(alloc, &mut lines) else {
//!     anyhow::bail!("an age isn't a string");
//! };
//! assert!(rt; finding.to_string(alloc)?.as_str() == "line 1: age: Expected num");
//! ```
#![tactic(auto)]

mod bounded;
mod change;
mod check;
mod fault;
mod finding;
mod groups;
mod line;
mod lines;
mod request_places;
mod requests;
mod summary;

pub use change::change_of;
pub use check::{next_value, value_of};
pub use fault::{Fault, Position};
pub use finding::{Finding, Problem};
pub use groups::Groups;
pub use line::{item_alone, item_of_text, json_of};
pub use lines::{Line, LineFault, Lines};
pub use requests::{
    Request, TableRequests, one_request, one_request_located, requests_by_table, requests_in_file,
};
pub use summary::Summary;
