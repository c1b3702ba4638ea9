//! A field that is an `AttributeValue` of any kind:
//! `#[serde(with = "dynamo_serde::attribute_value")]`.
//!
//! For an optional one or for several, put the attribute in a newtype struct: `Option<Any>` or
//! `Vec<Any>`.
ghost use Rattle.std.specs.Prelude.{map, string_bytes, IfOk, OnOk};
ghost use Rattle.dynamo_value.specs.Av as av;
ghost use Rattle.dynamo_value.specs.View.{view, elements_view, members_view};
ghost use Rattle.dynamo_serde.specs.Fetched.{Fetches, FetchesMap, FetchesList, FetchesTexts};
ghost use Rattle.dynamo_serde.specs.Value.{Logged, SendsValue, value_events};

use crate::fault::LEVELS;
use crate::kinds::{B, BOOL, BS, KINDS, L, M, N, NS, NULL as NULL_KIND, S, SS};
use crate::symbol::{NULL, NUMBER, NUMBER_SET, STRING_SET};
use dynamo_value::AttributeValue;
use serde::{Case, Deserializer, Format, Serializer};
use std::alloc::Global;
use std::collections::HashMap;

/// Writes this attribute value, of any kind, to a writer of this crate.
///
/// # Errors
///
/// Returns an error if the value has more than 127 levels of lists and maps, or if memory runs out.
pub fn serialize<S: Serializer>(value: &AttributeValue, out: &mut S) -> Result<(), S::Error>
    ensures { OnOk result (SendsValue (view value.now) (S.written out.old) (S.written out.new)) }
{
    send(value, out)
}

/// Reads an attribute value, of any kind, from a reader of this crate.
///
/// # Errors
///
/// Returns an error if there is none, if it has more than 127 levels of lists and maps, or if
/// memory runs out.
pub fn deserialize<F: Format>(
    alloc: Global,
    from: &mut Deserializer<'_, '_, F>,
) -> Result<AttributeValue, F::Error>
    ensures { IfOk result (λ v. Fetches F.gives F.stays F.picks (view v) from.old from.new) }
{
    fetch(alloc, from, LEVELS)
}

#[cycle(send)]
fn send<S: Serializer>(value: &AttributeValue, out: &mut S) -> Result<(), S::Error>
    ensures { OnOk result (SendsValue (view value.now) (S.written out.old) (S.written out.new)) }
{
    match value {
        AttributeValue::N(text) => send_number(text.as_str(), out),
        AttributeValue::S(text) => out.str(text.as_str()),
        AttributeValue::Bool(b) => out.bool(*b),
        AttributeValue::B(bytes) => out.bytes(bytes.as_slice()),
        AttributeValue::Null(b) => send_null(*b, out),
        AttributeValue::M(map) => send_map(map, out),
        AttributeValue::L(items) => send_list(items, out),
        AttributeValue::Ss(texts) => send_texts(texts, out),
        AttributeValue::Ns(texts) => send_numbers(texts, out),
        AttributeValue::Bs(blobs) => super::binary_set::serialize(blobs, out),
    }
}

#[cycle(send)]
fn send_list<S: Serializer>(items: &Vec<AttributeValue>, out: &mut S) -> Result<(), S::Error>
    ensures { OnOk result
        (SendsValue (av.L (elements_view items.now.items)) (S.written out.old)
        (S.written out.new)) }
{
    out.begin_seq(Some(items.len()))?;
    for item in items {
        send(item, out)?;
    }
    out.end_seq()
}

#[cycle(send)]
pub(crate) fn send_map<S: Serializer>(
    map: &HashMap<String, AttributeValue>,
    out: &mut S,
) -> Result<(), S::Error>
    ensures { OnOk result
        (SendsValue (av.M (members_view map.now.entries)) (S.written out.old) (S.written out.new)) }
{
    out.begin_map(Some(map.len()))?;
    for (key, value) in map.iter() {
        out.key(key.as_str())?;
        send(value, out)?;
    }
    out.end_map()
}

fn send_number<S: Serializer>(text: &str, out: &mut S) -> Result<(), S::Error>
    ensures { OnOk result
        (Logged (value_events (av.N text.now)) (S.written out.old) (S.written out.new)) }
{
    out.begin_map(Some(1))?;
    out.variant_key(NUMBER, Case::AsIs)?;
    out.str(text)?;
    out.end_map()
}

fn send_null<S: Serializer>(b: bool, out: &mut S) -> Result<(), S::Error>
    ensures { OnOk result
        (Logged (value_events (av.Null b)) (S.written out.old) (S.written out.new)) }
{
    out.begin_map(Some(1))?;
    out.variant_key(NULL, Case::AsIs)?;
    out.bool(b)?;
    out.end_map()
}

fn send_texts<S: Serializer>(texts: &Vec<String>, out: &mut S) -> Result<(), S::Error>
    ensures { OnOk result
        (Logged (value_events (av.Ss (map string_bytes texts.now.items))) (S.written out.old)
        (S.written out.new)) }
{
    out.begin_map(Some(1))?;
    out.variant_key(STRING_SET, Case::AsIs)?;
    out.begin_seq(Some(texts.len()))?;
    for text in texts {
        out.str(text.as_str())?;
    }
    out.end_seq()?;
    out.end_map()
}

fn send_numbers<S: Serializer>(texts: &Vec<String>, out: &mut S) -> Result<(), S::Error>
    ensures { OnOk result
        (Logged (value_events (av.Ns (map string_bytes texts.now.items))) (S.written out.old)
        (S.written out.new)) }
{
    out.begin_map(Some(1))?;
    out.variant_key(NUMBER_SET, Case::AsIs)?;
    out.begin_seq(Some(texts.len()))?;
    for text in texts {
        send_number(text.as_str(), out)?;
    }
    out.end_seq()?;
    out.end_map()
}

// Lists and maps may have `levels` more levels.
#[cycle(fetch)]
fn fetch<F: Format>(
    alloc: Global,
    from: &mut Deserializer<'_, '_, F>,
    levels: usize,
) -> Result<AttributeValue, F::Error>
    ensures { IfOk result (λ v. Fetches F.gives F.stays F.picks (view v) from.old from.new) }
{
    match from.variant(&KINDS)? {
        N => Ok(AttributeValue::N(from.string(alloc)?)),
        S => Ok(AttributeValue::S(from.string(alloc)?)),
        BOOL => Ok(AttributeValue::Bool(from.bool()?)),
        B => Ok(AttributeValue::B(from.byte_buf(alloc)?)),
        NULL_KIND => Ok(AttributeValue::Null(from.bool()?)),
        M => Ok(AttributeValue::M(fetch_map(alloc, from, levels)?)),
        L => Ok(AttributeValue::L(fetch_list(alloc, from, levels)?)),
        SS => Ok(AttributeValue::Ss(fetch_texts(alloc, from, S)?)),
        NS => Ok(AttributeValue::Ns(fetch_texts(alloc, from, N)?)),
        BS => Ok(AttributeValue::Bs(super::binary_set::deserialize(alloc, from)?)),
        _ => Err(from.invalid()),
    }
}

#[cycle(fetch)]
fn fetch_list<F: Format>(
    alloc: Global,
    from: &mut Deserializer<'_, '_, F>,
    levels: usize,
) -> Result<Vec<AttributeValue>, F::Error>
    ensures { IfOk result
        (λ items. FetchesList F.gives F.stays F.picks (elements_view items.items) from.old
        from.new) }
{
    let Some(levels) = levels.checked_sub(1) else {
        return Err(from.invalid());
    };
    from.begin_seq()?;
    let mut items = Vec::new(alloc);
    for _ in 0..u64::MAX {
        if !from.next_item()? {
            return Ok(items);
        }
        if items.push(fetch(alloc, from, levels)?).is_err() {
            return Err(from.no_memory());
        }
    }
    Err(from.no_memory())
}

#[cycle(fetch)]
pub(crate) fn fetch_map<F: Format>(
    alloc: Global,
    from: &mut Deserializer<'_, '_, F>,
    levels: usize,
) -> Result<HashMap<String, AttributeValue>, F::Error>
    ensures { IfOk result
        (λ map. FetchesMap F.gives F.stays F.picks (members_view map.entries) from.old from.new) }
{
    let Some(levels) = levels.checked_sub(1) else {
        return Err(from.invalid());
    };
    from.begin_map()?;
    let mut members = HashMap::new(alloc);
    for _ in 0..u64::MAX {
        if !from.next_entry()? {
            return Ok(members);
        }
        let key = from.string(alloc)?;
        let value = fetch(alloc, from, levels)?;
        if members.insert(key, value).is_err() {
            return Err(from.no_memory());
        }
    }
    Err(from.no_memory())
}

// Strings of this kind, which are strings or numbers.
fn fetch_texts<F: Format>(
    alloc: Global,
    from: &mut Deserializer<'_, '_, F>,
    kind: usize,
) -> Result<Vec<String>, F::Error>
    ensures { IfOk result
        (λ texts. FetchesTexts F.gives F.stays F.picks kind (map string_bytes texts.items) from.old
        from.new) }
{
    from.begin_seq()?;
    let mut texts = Vec::new(alloc);
    for _ in 0..u64::MAX {
        if !from.next_item()? {
            return Ok(texts);
        }
        if from.variant(&KINDS)? != kind {
            return Err(from.invalid());
        }
        if texts.push(from.string(alloc)?).is_err() {
            return Err(from.no_memory());
        }
    }
    Err(from.no_memory())
}
