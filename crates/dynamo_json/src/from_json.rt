//! Reading attribute values from DynamoDB JSON.

ghost use Rattle.std.specs.Prelude.{◌≡◌, Ok, IfOk, IfErr, map, string_bytes};
ghost use Rattle.serde_json.specs.View as sj;
ghost use Rattle.dynamo_value.specs.Kind.{fault_of};
ghost use Rattle.dynamo_value.specs.PrefixView.{prefix_view};
ghost use Rattle.dynamo_value.specs.Refusal.{Refused, refusal_in};
ghost use Rattle.dynamo_value.specs.View.{view, elements_view, members_view};
ghost use Rattle.dynamo_json.specs.Parsed.{parsed, parsed_content, parsed_elements, parsed_members};
ghost use Rattle.dynamo_json.specs.Parsed.{each_in, string_in, blob_in};

use dynamo_value::{AttributeValue, Prefix, Result, base64_text, refusal};
use serde_json::{Map, Value};
use std::alloc::Global;
use std::collections::HashMap;

/// The attribute value of a JSON value: an object of one member.
#[cycle(read)]
pub(crate) fn value(alloc: Global, json: &Value) -> Result<AttributeValue>
    ensures ok { IfOk result (λ a. parsed (sj.view json.now) ≡ Ok (view a)) }
    ensures err { IfErr result
        (λ e. Refused (refusal_in (parsed (sj.view json.now))) (fault_of e)) }
{
    let Value::Object(object) = json else {
        return Err(refusal::not_an_object(alloc));
    };
    let mut entries = object.iter();
    let Some((key, content)) = entries.next() else {
        return Err(refusal::no_key(alloc));
    };
    if entries.next().is_some() {
        return Err(refusal::several_keys(alloc));
    }
    let Some(prefix) = Prefix::named(key) else {
        return Err(refusal::unknown_key(alloc, key));
    };
    under(alloc, prefix, content)
}

// The attribute value of the content under a prefix.
#[cycle(read)]
fn under(alloc: Global, prefix: Prefix, content: &Value) -> Result<AttributeValue>
    ensures ok { IfOk result
        (λ a. parsed_content (sj.view content.now) (prefix_view prefix) ≡ Ok (view a)) }
    ensures err { IfErr result
        (λ e. Refused (refusal_in (parsed_content (sj.view content.now) (prefix_view prefix)))
        (fault_of e)) }
{
    match (prefix, content) {
        (Prefix::N, Value::String(text)) => Ok(AttributeValue::N(text.clone()?)),
        (Prefix::S, Value::String(text)) => Ok(AttributeValue::S(text.clone()?)),
        (Prefix::Bool, Value::Bool(flag)) => Ok(AttributeValue::Bool(*flag)),
        (Prefix::B, Value::String(text)) => Ok(AttributeValue::B(base64_text::decode(
            alloc, text,
        )?)),
        (Prefix::Null, Value::Bool(flag)) => Ok(AttributeValue::Null(*flag)),
        (Prefix::M, Value::Object(object)) => Ok(AttributeValue::M(members(
            alloc, object,
        )?).fitted()),
        (Prefix::L, Value::Array(array)) => Ok(AttributeValue::L(elements(alloc, array)?)),
        (Prefix::Ss, Value::Array(array)) => Ok(AttributeValue::Ss(strings(alloc, array)?)),
        (Prefix::Ns, Value::Array(array)) => Ok(AttributeValue::Ns(strings(alloc, array)?)),
        (Prefix::Bs, Value::Array(array)) => Ok(AttributeValue::Bs(blobs(alloc, array)?)),
        _ => Err(refusal::wrong_content(alloc, prefix)),
    }
}

/// The map of the members of an object, read in the order of the keys.
#[cycle(read)]
pub(crate) fn members(
    alloc: Global,
    object: &Map<String, Value>,
) -> Result<HashMap<String, AttributeValue>>
    ensures ok { IfOk result
        (λ m. parsed_members (sj.members_view object.now.entries) ≡ Ok (members_view m.entries)) }
    ensures err { IfErr result
        (λ e. Refused (refusal_in (parsed_members (sj.members_view object.now.entries)))
        (fault_of e)) }
{
    let mut map = HashMap::with_capacity(alloc, object.len())?;
    for (key, json) in object.iter() {
        let name = key.clone()?;
        drop(map.insert(name, value(alloc, json)?)?);
    }
    Ok(map)
}

// The values of an array, in order.
#[cycle(read)]
fn elements(alloc: Global, array: &Vec<Value>) -> Result<Vec<AttributeValue>>
    ensures ok { IfOk result
        (λ v. parsed_elements (sj.items_view array.now.items) ≡ Ok (elements_view v.items)) }
    ensures err { IfErr result
        (λ e. Refused (refusal_in (parsed_elements (sj.items_view array.now.items))) (fault_of e)) }
{
    let mut elements = Vec::with_capacity(alloc, array.len())?;
    for json in array {
        elements.push(value(alloc, json)?)?;
    }
    Ok(elements)
}

// The strings of an array, in order.
fn strings(alloc: Global, array: &Vec<Value>) -> Result<Vec<String>>
    ensures ok { IfOk result
        (λ v. each_in string_in (sj.items_view array.now.items) ≡ Ok (map string_bytes v.items)) }
    ensures err { IfErr result
        (λ e. Refused (refusal_in (each_in string_in (sj.items_view array.now.items)))
        (fault_of e)) }
{
    let mut strings = Vec::with_capacity(alloc, array.len())?;
    for json in array {
        strings.push(String::from_str(alloc, string(alloc, json)?)?)?;
    }
    Ok(strings)
}

// The byte strings of an array of base64 strings, in order.
fn blobs(alloc: Global, array: &Vec<Value>) -> Result<Vec<Vec<u8>>>
    ensures ok { IfOk result
        (λ v. each_in blob_in (sj.items_view array.now.items) ≡ Ok (map (λ b. b.items) v.items)) }
    ensures err { IfErr result
        (λ e. Refused (refusal_in (each_in blob_in (sj.items_view array.now.items))) (fault_of e)) }
{
    let mut blobs = Vec::with_capacity(alloc, array.len())?;
    for json in array {
        blobs.push(base64_text::decode(alloc, string(alloc, json)?)?)?;
    }
    Ok(blobs)
}

// The string of a JSON value.
fn string<'a>(alloc: Global, json: &'a Value) -> Result<&'a str>
    ensures ok { IfOk result (λ text. string_in (sj.view json.now) ≡ Ok text.now) }
    ensures err { IfErr result
        (λ e. Refused (refusal_in (string_in (sj.view json.now))) (fault_of e)) }
{
    let Value::String(text) = json else {
        return Err(refusal::message(
            alloc,
            "invalid type: expected a string in the array of a set",
        ));
    };
    Ok(text.as_str())
}
