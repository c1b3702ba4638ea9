//! Writes attribute values as plain JSON text, without a JSON value in between.

ghost use Rattle.std.specs.Prelude.{◌≡◌, map, Ok, Some, MatchResult, string_bytes};
ghost use Rattle.serde_json.specs.Data.{Data};
ghost use Rattle.serde_json.specs.Written.{compact_text};
ghost use Rattle.dynamo_value.specs.View.{view, elements_view, members_view};
ghost use Rattle.dynamo_value.specs.Kind.{fault_of};
ghost use Rattle.dynamo_value.specs.Refusal.{Refused, any_message, refusal_in};
ghost use Rattle.dynamo_de.specs.ReadJson.{read_value};
ghost use Rattle.dynamo_json.specs.StoredText.{PrintsPlain, plain, plain_elements, plain_members};
ghost use Rattle.dynamo_json.specs.StoredText.{plain_number, plain_numbers, plain_blobs};
ghost use Rattle.dynamo_json.specs.StoredText.{number_refusal};

use super::Printer;
use dynamo_de::{Kind, invalid_type, is_float_text, parse_i64, parse_u64};
use dynamo_value::{AttributeValue, Error, ErrorImpl, Result, entries_by_key};
use std::alloc::Global;
use std::collections::HashMap;

/// Returns the plain JSON text of an attribute value. It is the string that
/// `from_attribute_value::<serde_json::Value>` and then `to_string` return, but no JSON value is
/// made.
///
/// # Errors
///
/// Returns the error of `from_attribute_value` if the attribute value isn't read as a JSON value:
///
/// - [`ErrorImpl::Message`] for a byte string, and for a number that neither an `i64` nor a `u64`
///   holds;
/// - [`ErrorImpl::FailedToParseFloat`] for a number whose string isn't one;
/// - [`ErrorImpl::ExpectedUnit`] for `NULL` that is false.
///
/// Returns [`ErrorImpl::OutOfMemory`] if memory runs out.
///
/// # Examples
///
/// ```rust
/// use dynamo_json::plain_text;
/// use serde_dynamo::{AttributeValue, DynamoJson};
///
/// let value = AttributeValue::from_json_text(alloc, r#"{"L": [{"N": "1"}, {"S": "a"}]}"#)?;
/// assert_eq!(rt; plain_text(alloc, &value)?.as_str(), r#"[1,"a"]"#);
/// ```
pub fn plain_text(alloc: Global, value: &AttributeValue) -> Result<String>
    ensures { MatchResult result
        (λ text. (json : Data) × (read_value (view value.now) ≡ Ok json)
        × (string_bytes text ≡ compact_text json))
        (λ e. Refused (refusal_in (read_value (view value.now))) (fault_of e)) }
{
    let mut text = String::new(alloc);
    let mut printer = Printer::after(&mut text);
    printer.plain(value)?;
    Ok(printer.into_text(0, true))
}

impl Printer {
    // The JSON value of an attribute value.
    #[cycle(plain)]
    fn plain(&mut self, value: &AttributeValue) -> Result<()>
        ensures tokens { PrintsPlain result (plain self.old.out.tokens (view value.now))
            self.new.out.tokens }
        ensures before { self.new.out.before ≡ self.old.out.before }
    {
        match value {
            AttributeValue::N(text) => self.plain_number(text),
            AttributeValue::S(text) => Ok(self.out.string(text)?),
            AttributeValue::Bool(flag) => Ok(self.out.boolean(*flag)?),
            AttributeValue::B(_) => Err(self.not_plain(Kind::Bytes)),
            AttributeValue::Null(true) => Ok(self.out.null()?),
            AttributeValue::Null(false) => Err(Error::from(ErrorImpl::ExpectedUnit)),
            AttributeValue::M(map) => self.plain_members(map),
            AttributeValue::L(list) => self.plain_elements(list),
            AttributeValue::Ss(set) => Ok(self.array(set)?),
            AttributeValue::Ns(set) => self.plain_numbers(set),
            AttributeValue::Bs(set) => self.plain_blobs(set),
        }
    }

    // The object of the members of a map, in the order of their keys.
    #[cycle(plain)]
    fn plain_members(&mut self, map: &HashMap<String, AttributeValue>) -> Result<()>
        ensures tokens { PrintsPlain result
            (plain_members self.old.out.tokens (members_view map.now.entries)) self.new.out.tokens }
        ensures before { self.new.out.before ≡ self.old.out.before }
    {
        let members = entries_by_key(*self.room.allocator(), map)?;
        self.out.begin_object()?;
        for member in members.iter() {
            self.out.key(member.0.as_str())?;
            self.plain(member.1)?;
        }
        Ok(self.out.end_object()?)
    }

    // The array of the values of a list, in order.
    #[cycle(plain)]
    fn plain_elements(&mut self, list: &Vec<AttributeValue>) -> Result<()>
        ensures tokens { PrintsPlain result
            (plain_elements self.old.out.tokens (elements_view list.now.items))
            self.new.out.tokens }
        ensures before { self.new.out.before ≡ self.old.out.before }
    {
        self.out.begin_array()?;
        for element in list {
            self.plain(element)?;
        }
        Ok(self.out.end_array()?)
    }

    // The array of the numbers of a set, in order.
    #[inline(never)]
    fn plain_numbers(&mut self, set: &Vec<String>) -> Result<()>
        ensures tokens { PrintsPlain result
            (plain_numbers self.old.out.tokens (map string_bytes set.now.items))
            self.new.out.tokens }
        ensures before { self.new.out.before ≡ self.old.out.before }
    {
        self.out.begin_array()?;
        for text in set {
            self.plain_number(text.as_str())?;
        }
        Ok(self.out.end_array()?)
    }

    // The array of a set of byte strings, which is read only if there are none.
    #[inline(never)]
    fn plain_blobs(&mut self, set: &Vec<Vec<u8>>) -> Result<()>
        ensures tokens { PrintsPlain result
            (plain_blobs self.old.out.tokens (map (λ b. b.items) set.now.items))
            self.new.out.tokens }
        ensures before { self.new.out.before ≡ self.old.out.before }
    {
        if !set.is_empty() {
            return Err(self.not_plain(Kind::Bytes));
        }
        self.out.begin_array()?;
        Ok(self.out.end_array()?)
    }

    // The number that a string is read as: an i64, or else a u64.
    #[inline(never)]
    #[tactic(auto, using(crate::proofs::Unstored::signed_read, crate::proofs::Unstored::unsigned_read, crate::proofs::Unstored::no_number))]
    fn plain_number(&mut self, text: &str) -> Result<()>
        ensures tokens { PrintsPlain result (plain_number self.old.out.tokens text.now)
            self.new.out.tokens }
        ensures before { self.new.out.before ≡ self.old.out.before }
    {
        if let Ok(n) = parse_i64(text) {
            return Ok(self.out.i64(n)?);
        }
        match parse_u64(text) {
            Ok(n) => Ok(self.out.u64(n)?),
            Err(_) => Err(self.no_integer(text)),
        }
    }

    // The error for the string of a number that is no integer of 64 bits.
    fn no_integer(&self, text: &str) -> Error
        ensures { Refused (Some (number_refusal text.now)) (fault_of result) }
    {
        if is_float_text(text) {
            return self.not_plain(Kind::NumberText);
        }
        match String::from_str(*self.room.allocator(), text) {
            Ok(text) => Error::from(ErrorImpl::FailedToParseFloat(text)),
            Err(_) => Error::from(ErrorImpl::OutOfMemory),
        }
    }

    // The error for data that no JSON value holds.
    fn not_plain(&self, found: Kind) -> Error
        ensures { Refused (Some any_message) (fault_of result) }
    {
        invalid_type(*self.room.allocator(), found, "any valid JSON value")
    }
}
