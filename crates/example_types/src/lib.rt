//! Types of a user's own, and calls on them whose contracts say what the library's calls promise.
#![tactic(auto)]

pub mod at_shapes;
pub mod by_hand;
pub mod equal;
pub mod forms;
pub mod keyed;
pub mod kinds;
pub mod own_types;
pub mod station;
pub mod tree;
