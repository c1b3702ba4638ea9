//! What holds of each attribute value of a program. It is found by a walk over the value, which
//! allocates nothing.

ghost use Rattle.std.specs.List.{AllByRecursion};
ghost use Rattle.std.specs.Prelude.{map};
ghost use Rattle.base64.specs.GeneralPurpose.{IsBytes};
ghost use Rattle.dynamo_value.specs.HasBytes.{HasBytes, ElementsHaveBytes, MembersHaveBytes};
ghost use Rattle.dynamo_value.specs.View.{view, elements_view, members_view};
ghost use Rattle.dynamo_json.specs.KeysDiffer.{KeysDiffer, ElementsDiffer, EntriesDiffer};

use dynamo_value::AttributeValue;
use std::collections::HashMap;

/// Walks over an attribute value.
#[cycle(walk)]
pub(crate) fn value(value: &AttributeValue)
    ensures bytes { HasBytes (view value.now) }
    ensures keys { KeysDiffer value.now }
{
    match value {
        AttributeValue::B(bytes) => octets(bytes),
        AttributeValue::M(map) => members(map),
        AttributeValue::L(list) => elements(list),
        AttributeValue::Bs(set) => blobs(set),
        _ => {}
    }
}

/// Walks over the values of a map.
#[cycle(walk)]
pub(crate) fn members(map: &HashMap<String, AttributeValue>)
    ensures bytes { MembersHaveBytes (members_view map.now.entries) }
    ensures keys { EntriesDiffer map.now.entries }
{
    for (_, member) in map.iter() {
        value(member);
    }
}

// Walks over the values of a list.
#[cycle(walk)]
fn elements(list: &Vec<AttributeValue>)
    ensures bytes { ElementsHaveBytes (elements_view list.now.items) }
    ensures keys { ElementsDiffer list.now.items }
{
    for element in list {
        value(element);
    }
}

// The byte strings of a set hold bytes.
fn blobs(set: &Vec<Vec<u8>>)
    ensures { AllByRecursion IsBytes (map (λ b. b.items) set.now.items) }
{
    for bytes in set {
        octets(bytes);
    }
}

// A byte string holds bytes.
fn octets(_bytes: &[u8])
    ensures { IsBytes _bytes.now }
{}
