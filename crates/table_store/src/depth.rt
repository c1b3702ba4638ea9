//! How many levels of lists and maps an item has.
ghost use Rattle.std.specs.Prelude.{◌≡◌};
ghost use Rattle.table_store.specs.Depth.{entries_within, is_kept, nests_within, values_within};

use dynamo_value::{AttributeValue, Item};
use std::alloc::Global;
use std::collections::HashMap;

/// DynamoDB keeps items of at most so many levels (DynamoDB's developer guide, "Quotas").
const LEVELS: u8 = 32;

/// Returns whether DynamoDB keeps an item of so many levels.
pub(crate) fn is_kept(item: &Item) -> bool
    ensures { result ≡ is_kept item.now }
{
    map_within(item.inner(), LEVELS)
}

// Whether a value has so many levels of lists and maps at most.
#[cycle(walk)]
fn nests_within(value: &AttributeValue, levels: u8) -> bool
    ensures { result ≡ nests_within value.now levels }
{
    match value {
        AttributeValue::L(values) => levels > 0 && list_within(values, levels - 1),
        AttributeValue::M(members) => levels > 0 && map_within(members, levels - 1),
        _ => true,
    }
}

// Whether each value of a list has so many levels at most.
#[cycle(walk)]
fn list_within(values: &Vec<AttributeValue>, levels: u8) -> bool
    ensures { result ≡ values_within levels values.now.items }
{
    for value in values {
        if !nests_within(value, levels) {
            return false;
        }
    }
    true
}

// Whether each value of a map has so many levels at most.
#[cycle(walk)]
fn map_within(members: &HashMap<String, AttributeValue>, levels: u8) -> bool
    ensures { result ≡ entries_within levels members.now.entries }
{
    for (_, value) in members.iter() {
        if !nests_within(value, levels) {
            return false;
        }
    }
    true
}
