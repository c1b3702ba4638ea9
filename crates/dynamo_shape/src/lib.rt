//! Shapes: a shape describes the data that a type's values serialize to. The laws say that written
//! data read back.
//!
//! A shape is **clear** if all data read back as they were written. At every depth
//!
//! - no option holds what may be null itself, as in `Option<Option<u8>>`;
//! - the names of fields differ, and so do those of variants, and no field has the name of a tag;
//! - no field has another name that is the own name of a field;
//! - a field is left out only for a default that nothing else reads back as;
//! - the keys of maps are booleans, integers, characters, strings, enums of unit variants, or
//!   newtype structs of these;
//! - the elements of a set are written as the set's kind, and are neither newtype structs nor
//!   options;
//! - no newtype struct has the name of a set's symbol.
//!
//! Without the first condition a shape is **nearly clear**: some of what is written as null is read
//! as `None`.
#![tactic(auto)]

pub mod laws;
