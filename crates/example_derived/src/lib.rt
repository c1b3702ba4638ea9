//! An order that derives serde's traits, and calls through `dynamo_serde` that say what they write
//! and what they read.
#![tactic(auto)]

pub mod known;
pub mod known_read;
pub mod order;

pub use order::{Delivery, Order};
