//! A DynamoDB table in memory, for the tests of a service.
#![tactic(auto)]

mod change;
mod places;
mod query;
mod table;

pub use table::Table;
pub use table_keys::{
    Condition, Key, KeyAttribute, KeyKind, KeySchema, KeyValue, Number, Query, SortCondition,
    TableError,
};
