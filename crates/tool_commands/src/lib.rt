//! The commands of the program `dynamo_tool`, for any reader and writer.
#![tactic(auto)]

mod check;
mod commands;
mod convert;
mod failure;
mod input;
mod json;
mod output;
mod read_to_end;
pub mod run;
mod stored;
mod user;

pub use input::Input;
pub use output::Output;
