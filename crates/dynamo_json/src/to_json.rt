//! Writing attribute values as DynamoDB JSON.

ghost use Rattle.std.specs.List.{AllByRecursion};
ghost use Rattle.std.specs.Prelude.{◌≡◌, IfOk, OnOk, map, string_bytes};
ghost use Rattle.base64.specs.GeneralPurpose.{IsBytes};
ghost use Rattle.serde_json.specs.View as sj;
ghost use Rattle.dynamo_value.specs.Base64.{base64_text};
ghost use Rattle.dynamo_value.specs.HasBytes.{HasBytes, ElementsHaveBytes, MembersHaveBytes};
ghost use Rattle.dynamo_value.specs.PrefixView.{prefix_view};
ghost use Rattle.dynamo_value.specs.View.{view, elements_view, members_view};
ghost use Rattle.dynamo_json.specs.Json as dynamo;
ghost use Rattle.dynamo_json.specs.Json.{json_of, elements_json, members_json, strings};
ghost use Rattle.dynamo_json.specs.KeysDiffer.{KeysDiffer, ElementsDiffer, EntriesDiffer};
ghost use Rattle.serde_json.specs.Data as json;

use dynamo_value::{AttributeValue, Prefix, base64_text};
use serde_json::{Map, Value};
use std::alloc::{AllocError, Global};
use std::collections::HashMap;

/// The JSON value of an attribute value: an object of one member.
#[cycle(write)]
pub(crate) fn value(alloc: Global, value: &AttributeValue) -> Result<Value, AllocError>
    ensures json { IfOk result (λ j. sj.view j ≡ json_of (view value.now)) }
    ensures bytes { OnOk result (HasBytes (view value.now)) }
    ensures keys { OnOk result (KeysDiffer value.now) }
{
    match value {
        AttributeValue::N(text) => under(alloc, Prefix::N, Value::String(text.clone()?)),
        AttributeValue::S(text) => under(alloc, Prefix::S, Value::String(text.clone()?)),
        AttributeValue::Bool(flag) => under(alloc, Prefix::Bool, Value::Bool(*flag)),
        AttributeValue::B(bytes) => under(
            alloc,
            Prefix::B,
            Value::String(base64_text::encode(alloc, bytes)?),
        ),
        AttributeValue::Null(flag) => under(alloc, Prefix::Null, Value::Bool(*flag)),
        AttributeValue::M(map) => under(alloc, Prefix::M, Value::Object(object(alloc, map)?)),
        AttributeValue::L(list) => under(alloc, Prefix::L, Value::Array(array(alloc, list)?)),
        AttributeValue::Ss(set) => under(alloc, Prefix::Ss, Value::Array(texts(alloc, set)?)),
        AttributeValue::Ns(set) => under(alloc, Prefix::Ns, Value::Array(texts(alloc, set)?)),
        AttributeValue::Bs(set) => under(alloc, Prefix::Bs, Value::Array(blobs(alloc, set)?)),
    }
}

/// The object of the members of a map.
#[cycle(write)]
pub(crate) fn object(
    alloc: Global,
    map: &HashMap<String, AttributeValue>,
) -> Result<Map<String, Value>, AllocError>
    ensures json { IfOk result
        (λ m. sj.members_view m.entries ≡ members_json (members_view map.now.entries)) }
    ensures bytes { OnOk result (MembersHaveBytes (members_view map.now.entries)) }
    ensures keys { OnOk result (EntriesDiffer map.now.entries) }
{
    let mut object = Map::new(alloc);
    for (key, member) in map.iter() {
        let name = key.clone()?;
        drop(object.insert(name, value(alloc, member)?)?);
    }
    Ok(object)
}

// The array of the values of a list, in order.
#[cycle(write)]
fn array(alloc: Global, list: &Vec<AttributeValue>) -> Result<Vec<Value>, AllocError>
    ensures json { IfOk result
        (λ v. sj.items_view v.items ≡ elements_json (elements_view list.now.items)) }
    ensures bytes { OnOk result (ElementsHaveBytes (elements_view list.now.items)) }
    ensures keys { OnOk result (ElementsDiffer list.now.items) }
{
    let mut array = Vec::with_capacity(alloc, list.len())?;
    for element in list {
        array.push(value(alloc, element)?)?;
    }
    Ok(array)
}

// The array of strings, in order.
fn texts(alloc: Global, set: &Vec<String>) -> Result<Vec<Value>, AllocError>
    ensures { IfOk result
        (λ v. json.array (sj.items_view v.items) ≡ strings (map string_bytes set.now.items)) }
{
    let mut array = Vec::with_capacity(alloc, set.len())?;
    for text in set {
        array.push(Value::String(text.clone()?))?;
    }
    Ok(array)
}

// The array of the base64 strings of byte strings, in order.
fn blobs(alloc: Global, set: &Vec<Vec<u8>>) -> Result<Vec<Value>, AllocError>
    ensures json { IfOk result
        (λ v. json.array (sj.items_view v.items)
        ≡ strings (map base64_text (map (λ b. b.items) set.now.items))) }
    ensures bytes { OnOk result (AllByRecursion IsBytes (map (λ b. b.items) set.now.items)) }
{
    let mut array = Vec::with_capacity(alloc, set.len())?;
    for bytes in set {
        array.push(Value::String(base64_text::encode(alloc, bytes)?))?;
    }
    Ok(array)
}

// The object of one member, whose key is a prefix.
fn under(alloc: Global, prefix: Prefix, content: Value) -> Result<Value, AllocError>
    ensures { IfOk result (λ j. sj.view j ≡ dynamo.under (prefix_view prefix) (sj.view content)) }
{
    let key = String::from_str(alloc, prefix.as_str())?;
    let mut object = Map::new(alloc);
    drop(object.insert(key, content)?);
    Ok(Value::Object(object))
}
