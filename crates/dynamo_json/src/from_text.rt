//! Reads attribute values from the text of DynamoDB JSON, token by token, without a JSON value in
//! between.
//!
//! It follows only what reads as an attribute value. At anything else it stops, and the caller
//! makes the JSON value of the text, to find the error.

ghost use Rattle.std.specs.List.{AllByRecursion};
ghost use Rattle.std.specs.Prelude.{◌≡◌, ◌≢◌, ◌<◌, ℕ, List, [], ◌∷◌, length, map, Some, IfOk};
ghost use Rattle.std.specs.Prelude.{IfErr, OnOk, OnErr, string_bytes};
ghost use Rattle.base64.specs.GeneralPurpose.{IsBytes};
ghost use Rattle.json.specs.Json.{read_key};
ghost use Rattle.json.specs.Token as token;
ghost use Rattle.serde_json.specs.Read.{read};
ghost use Rattle.dynamo_value.specs.Av.{Members};
ghost use Rattle.dynamo_value.specs.Base64.{base64_text};
ghost use Rattle.dynamo_value.specs.HasBytes.{HasBytes, ElementsHaveBytes, MembersHaveBytes};
ghost use Rattle.dynamo_value.specs.PrefixView.{prefix_view};
ghost use Rattle.dynamo_value.specs.View.{view, elements_view, members_view};
ghost use Rattle.dynamo_json.specs.Followed.{SpellsItem, ValueIsNext, ContentIsNext};
ghost use Rattle.dynamo_json.specs.Followed.{ElementsAreNext, MembersAreNext, TextsAreNext};
ghost use Rattle.dynamo_json.specs.Followed.{BlobsAreNext};
ghost use Rattle.dynamo_json.specs.Json.{json_of, item_json, elements_json, members_json};
ghost use Rattle.dynamo_json.specs.OfText.{Stands, ContentStands, ItemsStand, MembersStand};
ghost use Rattle.dynamo_json.specs.OfText.{texts_json};
ghost use Rattle.dynamo_json.specs.OneMember.{one_member};

use crate::layout::Layout;
use dynamo_value::{AttributeValue, Error, ErrorImpl, Prefix, base64_text};
use json::{Invalid, Reader, Scratch, Token};
use std::alloc::{AllocError, AllocFailed, Global};
use std::collections::HashMap;

// How deep the arrays and objects of a JSON text nest at most, as `Value::from_str` reads them.
const MAX_DEPTH: usize = 127;

/// Why reading stopped.
#[derive(Clone, Copy, Debug, Drop)]
pub(crate) enum Stop {
    /// The text is no attribute value.
    Unlike,

    /// An allocation failed.
    OutOfMemory,
}

impl From<Invalid> for Stop {
    fn from(_: Invalid) -> Stop {
        Stop::Unlike
    }
}

impl From<AllocError> for Stop {
    ghost use Rattle.dynamo_json.specs.declared.from_text.Stop.{Stop};

    ghost from_gives = { λ _ stop. stop ≡ Stop.OutOfMemory };

    fn from(_: AllocError) -> Stop {
        Stop::OutOfMemory
    }
}

impl<T: Drop> From<AllocFailed<T>> for Stop {
    ghost use Rattle.dynamo_json.specs.declared.from_text.Stop.{Stop};

    ghost from_gives = { λ _ stop. stop ≡ Stop.OutOfMemory };

    fn from(_: AllocFailed<T>) -> Stop {
        Stop::OutOfMemory
    }
}

impl From<Error> for Stop {
    ghost use Rattle.dynamo_value.specs.Fault.{out_of_memory};
    ghost use Rattle.dynamo_value.specs.Kind.{fault_of};
    ghost use Rattle.dynamo_json.specs.declared.from_text.Stop.{Stop};

    ghost from_gives = { λ error stop. fault_of error ≡ out_of_memory → stop ≡ Stop.OutOfMemory };

    fn from(error: Error) -> Stop {
        match error.kind() {
            ErrorImpl::OutOfMemory => Stop::OutOfMemory,
            _ => Stop::Unlike,
        }
    }
}

/// The attribute value of a text.
pub(crate) fn attribute_value(alloc: Global, text: &str) -> Result<AttributeValue, Stop>
    ensures value { IfOk result (λ a. read text.now ≡ Some (json_of (view a))) }
    ensures bytes { IfOk result (λ a. HasBytes (view a)) }
{
    let mut scratch = Scratch::new(alloc);
    let mut reader = Reader::new(text, &mut scratch)?;
    let value = value(alloc, Layout::AsRead, &mut reader, MAX_DEPTH)?;
    at_end(&mut reader)?;
    Ok(value)
}

/// The attributes of a text, which is an object of them.
pub(crate) fn attributes(alloc: Global, text: &str) -> Result<HashMap<String, AttributeValue>, Stop>
    ensures members { IfOk result (λ m. read text.now ≡ Some (item_json (members_view m.entries))) }
    ensures bytes { IfOk result (λ m. MembersHaveBytes (members_view m.entries)) }
{
    let mut scratch = Scratch::new(alloc);
    let mut reader = Reader::new(text, &mut scratch)?;
    begin_object(&mut reader)?;
    let map = members(alloc, Layout::AsRead, &mut reader, MAX_DEPTH - 1)?;
    at_end(&mut reader)?;
    Ok(map)
}

/// The attributes under this name in a text, which is an object of this one member. The buffers
/// are those of `scratch`.
pub(crate) fn attributes_under(
    alloc: Global,
    scratch: &mut Scratch,
    name: &str,
    text: &str,
) -> Result<HashMap<String, AttributeValue>, Stop>
    ensures members { IfOk result (λ m.
        read text.now ≡ Some (one_member name.now (item_json (members_view m.entries)))) }
    ensures bytes { IfOk result (λ m. MembersHaveBytes (members_view m.entries)) }
    ensures follows { IfErr result
        (λ stop. stop ≡ Stop.Unlike → (ms : Members) → SpellsItem text.now name.now ms → ⊥) }
{
    let mut reader = Reader::new(text, scratch)?;
    begin_object(&mut reader)?;
    key_named(&mut reader, name)?;
    begin_object(&mut reader)?;
    let map = members(alloc, Layout::ByName, &mut reader, MAX_DEPTH - 2)?;
    end_object(&mut reader)?;
    at_end(&mut reader)?;
    Ok(map)
}

// The next attribute value: an object of one member.
#[cycle(follow)]
fn value(
    alloc: Global,
    layout: Layout,
    reader: &mut Reader<'_>,
    depth: usize,
) -> Result<AttributeValue, Stop>
    ensures value { IfOk result (λ a. Stands depth reader.old (json_of (view a)) reader.new) }
    ensures bytes { IfOk result (λ a. HasBytes (view a)) }
    ensures follows { IfErr result (λ stop. stop ≡ Stop.Unlike → ValueIsNext depth reader.old → ⊥) }
    ensures shorter { OnOk result (length reader.new < length reader.old) }
{
    if depth == 0 {
        return Err(Stop::Unlike);
    }
    begin_object(reader)?;
    let Some(key) = reader.next_key()? else {
        return Err(Stop::Unlike);
    };
    let Some(prefix) = Prefix::named(key) else {
        return Err(Stop::Unlike);
    };
    let value = content(alloc, layout, reader, prefix, depth - 1)?;
    end_object(reader)?;
    Ok(value)
}

// The attribute value of the next content, under a prefix.
#[cycle(follow)]
fn content(
    alloc: Global,
    layout: Layout,
    reader: &mut Reader<'_>,
    prefix: Prefix,
    depth: usize,
) -> Result<AttributeValue, Stop>
    ensures value { IfOk result
        (λ a. ContentStands depth reader.old (prefix_view prefix) (view a) reader.new) }
    ensures bytes { IfOk result (λ a. HasBytes (view a)) }
    ensures follows { IfErr result
        (λ stop. stop ≡ Stop.Unlike → ContentIsNext depth (prefix_view prefix) reader.old → ⊥) }
    ensures shorter { OnOk result (length reader.new < length reader.old) }
{
    match (prefix, reader.next().ok_or(Stop::Unlike)?) {
        (Prefix::N, Token::String(text)) => {
            Ok(AttributeValue::N(String::from_str(alloc, text)?))
        }
        (Prefix::S, Token::String(text)) => {
            Ok(AttributeValue::S(String::from_str(alloc, text)?))
        }
        (Prefix::Bool, Token::Bool(flag)) => Ok(AttributeValue::Bool(flag)),
        (Prefix::B, Token::String(text)) => {
            Ok(AttributeValue::B(base64_text::decode(alloc, text)?))
        }
        (Prefix::Null, Token::Bool(flag)) => Ok(AttributeValue::Null(flag)),
        (Prefix::M, Token::BeginObject) if depth > 0 => {
            Ok(AttributeValue::M(members(alloc, layout, reader, depth - 1)?).fitted())
        }
        (Prefix::L, Token::BeginArray) if depth > 0 => {
            Ok(AttributeValue::L(elements(alloc, layout, reader, depth - 1)?))
        }
        (Prefix::Ss, Token::BeginArray) if depth > 0 => {
            Ok(AttributeValue::Ss(strings(alloc, layout, reader)?))
        }
        (Prefix::Ns, Token::BeginArray) if depth > 0 => {
            Ok(AttributeValue::Ns(strings(alloc, layout, reader)?))
        }
        (Prefix::Bs, Token::BeginArray) if depth > 0 => {
            Ok(AttributeValue::Bs(blobs(alloc, layout, reader)?))
        }
        _ => Err(Stop::Unlike),
    }
}

// The map of the next members, to the end of their object. If a key is repeated, the last value
// counts.
#[cycle(follow)]
fn members(
    alloc: Global,
    layout: Layout,
    reader: &mut Reader<'_>,
    depth: usize,
) -> Result<HashMap<String, AttributeValue>, Stop>
    ensures members { IfOk result
        (λ m. MembersStand depth reader.old (members_json (members_view m.entries)) reader.new) }
    ensures bytes { IfOk result (λ m. MembersHaveBytes (members_view m.entries)) }
    ensures follows { IfErr result
        (λ stop. stop ≡ Stop.Unlike → MembersAreNext depth reader.old → ⊥) }
    ensures shorter { OnOk result (length reader.new < length reader.old) }
{
    let mut map = HashMap::new(alloc);
    'members: while let Some(key) = reader.next_key()? {
        let name = String::from_str(alloc, key)?;
        let value = value(alloc, layout, reader, depth)?;
        drop(map.insert(name, value)?);
    }
    Ok(layout.map(alloc, map)?)
}

// The next values, to the end of their array.
#[cycle(follow)]
fn elements(
    alloc: Global,
    layout: Layout,
    reader: &mut Reader<'_>,
    depth: usize,
) -> Result<Vec<AttributeValue>, Stop>
    ensures elements { IfOk result
        (λ v. ItemsStand depth reader.old (elements_json (elements_view v.items)) reader.new) }
    ensures bytes { IfOk result (λ v. ElementsHaveBytes (elements_view v.items)) }
    ensures follows { IfErr result
        (λ stop. stop ≡ Stop.Unlike → ElementsAreNext depth reader.old → ⊥) }
    ensures shorter { OnOk result (length reader.new < length reader.old) }
{
    let mut elements = Vec::new(alloc);
    'elements: while !reader.take_end_array() {
        let value = value(alloc, layout, reader, depth)?;
        elements.push(value)?;
    }
    Ok(layout.list(elements))
}

// The next strings, to the end of their array.
fn strings(alloc: Global, layout: Layout, reader: &mut Reader<'_>) -> Result<Vec<String>, Stop>
    ensures strings { IfOk result
        (λ v. (depth : ℕ)
        → ItemsStand depth reader.old (texts_json (map string_bytes v.items)) reader.new) }
    ensures follows { IfErr result (λ stop. stop ≡ Stop.Unlike → TextsAreNext reader.old → ⊥) }
    ensures shorter { OnOk result (length reader.new < length reader.old) }
{
    let mut strings = Vec::new(alloc);
    'strings: while !reader.take_end_array() {
        let text = string(reader)?;
        strings.push(String::from_str(alloc, text)?)?;
    }
    Ok(layout.list(strings))
}

// The byte strings of the next base64 strings, to the end of their array.
fn blobs(alloc: Global, layout: Layout, reader: &mut Reader<'_>) -> Result<Vec<Vec<u8>>, Stop>
    ensures blobs { IfOk result
        (λ v. (depth : ℕ)
        → ItemsStand depth reader.old (texts_json (map base64_text (map (λ b. b.items) v.items)))
        reader.new) }
    ensures bytes { IfOk result (λ v. AllByRecursion IsBytes (map (λ b. b.items) v.items)) }
    ensures follows { IfErr result (λ stop. stop ≡ Stop.Unlike → BlobsAreNext reader.old → ⊥) }
    ensures shorter { OnOk result (length reader.new < length reader.old) }
{
    let mut blobs = Vec::new(alloc);
    'blobs: while !reader.take_end_array() {
        let text = string(reader)?;
        blobs.push(base64_text::decode(alloc, text)?)?;
    }
    Ok(layout.list(blobs))
}

// ---- a token

fn string<'a>(reader: &mut Reader<'a>) -> Result<&'a str, Stop>
    ensures ok { IfOk result (λ text. reader.old ≡ token.string text.now ∷ reader.new) }
    ensures err { OnErr result
        ((text : List ℕ) (rest : List token.Token) → reader.old ≢ token.string text ∷ rest) }
{
    match reader.next() {
        Some(Token::String(text)) => Ok(text),
        _ => Err(Stop::Unlike),
    }
}

fn begin_object(reader: &mut Reader<'_>) -> Result<(), Stop>
    ensures ok { OnOk result (reader.old ≡ token.begin_object ∷ reader.new) }
    ensures err { OnErr result
        ((rest : List token.Token) → reader.old ≢ token.begin_object ∷ rest) }
{
    match reader.next() {
        Some(Token::BeginObject) => Ok(()),
        _ => Err(Stop::Unlike),
    }
}

fn end_object(reader: &mut Reader<'_>) -> Result<(), Stop>
    ensures ok { OnOk result (reader.old ≡ token.end_object ∷ reader.new) }
    ensures err { OnErr result ((rest : List token.Token) → reader.old ≢ token.end_object ∷ rest) }
{
    match reader.next() {
        Some(Token::EndObject) => Ok(()),
        _ => Err(Stop::Unlike),
    }
}

// Checks that the next token is the key of this name.
fn key_named(reader: &mut Reader<'_>, name: &str) -> Result<(), Stop>
    ensures ok { OnOk result (read_key reader.old ≡ Some (Some name.now, reader.new)) }
    ensures err { OnErr result
        ((rest : List token.Token) → read_key reader.old ≢ Some (Some name.now, rest)) }
{
    match reader.next_key()? {
        Some(key) if key == name => Ok(()),
        _ => Err(Stop::Unlike),
    }
}

// Checks that no token follows.
fn at_end(reader: &mut Reader<'_>) -> Result<(), Stop>
    ensures ok { OnOk result (reader.old ≡ []) }
    ensures err { OnErr result (reader.old ≢ []) }
{
    match reader.next() {
        None => Ok(()),
        Some(_) => Err(Stop::Unlike),
    }
}
