ghost use Rattle.std.specs.Prelude.{◌≡◌, MatchResult, encode_utf8, if◌then◌else◌, string_bytes};
ghost use Rattle.std.specs.Str.{is_utf8};
ghost use Rattle.dynamo_value.specs.Bytes.{octets_of};
ghost use Rattle.dynamo_value.specs.Fault.{out_of_memory};
ghost use Rattle.dynamo_de.specs.Answer as answer;
ghost use Rattle.dynamo_de.specs.Answer.{Gives, value_or};
ghost use Rattle.dynamo_de.specs.Meets.{Meets};
ghost use Rattle.dynamo_de.specs.Reading.{read_char, read_string, read_bytes};
ghost use Rattle.dynamo_de.specs.Visitors.{one_char};

use crate::{Deserialize, Deserializer, Error, Request, Showing};
use dynamo_value::ByteBuf;
use std::alloc::Global;

// A character as a string.
pub(crate) fn char_text<E: Error>(alloc: Global, v: char) -> Result<String, E>
    ensures { MatchResult result (λ t. string_bytes t ≡ encode_utf8 v)
        (λ e. E.fault e ≡ out_of_memory) }
{
    match v.to_string(alloc) {
        Ok(text) => Ok(text),
        Err(_) => Err(E::out_of_memory()),
    }
}

// The only character of a string, or an error if it has none or several.
#[tactic(auto, using(crate::proofs::Chars::no_char, crate::proofs::Chars::one_alone, crate::proofs::Chars::too_many))]
fn only_char<E: Error>(alloc: Global, v: &str) -> Result<char, E>
    ensures { Meets E.fault (Gives (λ c. c) (value_or (one_char v.now) answer.refused)) result }
{
    let expected = "invalid value: string, expected a character";
    let mut chars = v.chars();
    let Some(c) = chars.next() else {
        return Err(E::custom(alloc, expected));
    };
    let None = chars.next() else {
        return Err(E::custom(alloc, expected));
    };
    Ok(c)
}

impl Deserialize for char {
    ghost reads = { λ s. Gives (λ c. c) (read_char s) };

    fn deserialize<D: Deserializer>(alloc: Global, deserializer: D) -> Result<char, D::Error> {
        match deserializer.surface(Request::Char)? {
            Showing::Char(v) => Ok(v),
            Showing::FirstChar(_) => Err(D::more_than_one_char()),
            Showing::Text(v) => only_char(alloc, v.as_str()),
            other => Err(other.refused(alloc, "a character")),
        }
    }
}

// The string of bytes that are UTF-8, or an error.
#[tactic(auto, using(crate::proofs::Chars::utf8_told, crate::proofs::Chars::utf8_denied))]
fn utf8_text<E: Error>(alloc: Global, v: Vec<u8>) -> Result<String, E>
    ensures { Meets E.fault
        (Gives string_bytes (if is_utf8 v.items then answer.value v.items else answer.refused))
        result }
{
    match String::from_utf8(v) {
        Ok(text) => Ok(text),
        Err(_) => Err(E::custom(alloc, "invalid value: byte array, expected a string")),
    }
}

impl Deserialize for String {
    ghost reads = { λ s. Gives string_bytes (read_string s) };

    fn deserialize<D: Deserializer>(alloc: Global, deserializer: D) -> Result<String, D::Error> {
        match deserializer.surface(Request::String)? {
            Showing::Text(v) => Ok(v),
            Showing::Char(v) => char_text(alloc, v),
            Showing::FirstChar(_) => Err(D::more_than_one_char()),
            Showing::Bytes(v) => utf8_text(alloc, v),
            other => Err(other.refused(alloc, "a string")),
        }
    }
}

impl Deserialize for ByteBuf {
    ghost reads = { λ s. Gives octets_of (read_bytes s) };

    fn deserialize<D: Deserializer>(alloc: Global, deserializer: D) -> Result<ByteBuf, D::Error> {
        match deserializer.surface(Request::ByteBuf)? {
            Showing::Bytes(v) => Ok(ByteBuf::from(v)),
            Showing::Text(v) => Ok(ByteBuf::from(v.into_bytes())),
            Showing::Char(v) => Ok(ByteBuf::from(char_text(alloc, v)?.into_bytes())),
            Showing::FirstChar(_) => Err(D::more_than_one_char()),
            other => Err(other.refused(alloc, "byte array")),
        }
    }
}
