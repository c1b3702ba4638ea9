//! Reads declarations of structs and enums, with the attributes of serde that a description knows.
#![tactic(auto)]

mod attributes;
mod cut;
mod declaration;
mod failure;
mod import;
mod lexer;
mod module;
mod parser;
mod parts;
mod rename;
mod tagged;
mod token;
mod types;
mod variants;

pub use declaration::{
    Body, Contents, Declaration, Field, Form, Parameter, Presence, SetKind, StoredSet, Variant,
};
pub use failure::{Failure, Reason};
pub use import::Import;
pub use module::{Module, read_module};
pub use parser::read_declarations;
pub use rename::RenameRule;
pub use tagged::fields_of;
