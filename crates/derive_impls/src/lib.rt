//! Prints the implementations by which `dynamo_record` describes structs and enums, with their
//! imports. Lists are on one line, however wide they are: `rt fmt` lays out what is printed.
//!
//! A function returns [`AllocError`](std::alloc::AllocError) if memory runs out, and has no other
//! error unless it names one.
#![tactic(auto)]

mod branch;
mod case;
mod choices;
mod fields;
mod file;
mod heading;
mod impls;
mod imports;
mod module_path;
mod names;
mod newtype;
mod record;
mod record_rules;
mod traits;
mod transparent;
mod tree;
mod tuple_struct;
mod unit_enum;
mod unit_struct;
mod uses;

pub use file::{file_of, impls_of};
pub use module_path::ModulePath;
