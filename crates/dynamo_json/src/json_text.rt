//! Writes attribute values as the text of their DynamoDB JSON, without a JSON value in between.

ghost use Rattle.std.specs.Prelude.{◌≡◌, [], ◌++◌, OnOk, IsUtf8, MatchResult, length, map};
ghost use Rattle.std.specs.Prelude.{string_bytes, if◌then◌else◌};
ghost use Rattle.json.specs.Print.{print};
ghost use Rattle.serde_json.specs.Written.{compact_text};
ghost use Rattle.dynamo_value.specs.Base64.{base64_text};
ghost use Rattle.dynamo_value.specs.Prefix as kind;
ghost use Rattle.dynamo_value.specs.PrefixView.{prefix_view};
ghost use Rattle.dynamo_value.specs.View.{view, elements_view, members_view};
ghost use Rattle.dynamo_json.specs.Json.{json_of, item_json, elements_json, strings, under};
ghost use Rattle.dynamo_json.specs.Tokens.{tokens_of, begun, ended};
ghost use Rattle.serde_json.specs.Data as json;

mod plain;
mod stored;

use base64::engine::general_purpose::STANDARD;
use dynamo_value::{AttributeValue, Prefix, entries_by_key};
use json::Writer;
pub use plain::plain_text;
use std::alloc::{AllocError, Global};
use std::collections::HashMap;
use std::mem;
pub use stored::stored_text;

/// Appends the JSON text of an attribute value. If memory runs out, the string is unchanged.
pub(crate) fn push_value(text: &mut String, value: &AttributeValue) -> Result<(), AllocError>
    ensures { MatchResult result
        (λ _. string_bytes text.new
        ≡ string_bytes text.old ++ compact_text (json_of (view value.now)))
        (λ _. string_bytes text.new ≡ string_bytes text.old) }
{
    let before = text.len();
    let mut printer = Printer::after(text);
    let done = printer.value(value);
    *text = printer.into_text(before, done.is_ok());
    done
}

/// Appends the JSON text of the members of a map. If memory runs out, the string is unchanged.
pub(crate) fn push_members(
    text: &mut String,
    map: &HashMap<String, AttributeValue>,
) -> Result<(), AllocError>
    ensures { MatchResult result
        (λ _. string_bytes text.new
        ≡ string_bytes text.old ++ compact_text (item_json (members_view map.now.entries)))
        (λ _. string_bytes text.new ≡ string_bytes text.old) }
{
    let before = text.len();
    let mut printer = Printer::after(text);
    let done = printer.object(map);
    *text = printer.into_text(before, done.is_ok());
    done
}

// A string, taken out of its place, and what is written after it.
#[derive(Drop)]
struct Printer {
    out: Writer,
    // A buffer for the base64 string of a byte string.
    room: String,
}

impl Printer {
    // Takes a string out of its place.
    fn after(text: &mut String) -> Printer
        ensures before { result.out.before ≡ string_bytes text.old }
        ensures none { result.out.tokens ≡ [] }
        ensures utf8 { IsUtf8 (string_bytes text.old) }
    {
        let alloc = *text.allocator();
        let before = mem::replace(text, String::new(alloc));
        Printer {
            out: Writer::new(before.into_bytes()),
            room: String::new(alloc),
        }
    }

    // On success the extended string, otherwise the original string, cut back to `before` bytes.
    fn into_text(self, before: usize, whole: bool) -> String
        requires utf8 { IsUtf8 self.out.before }
        requires len { before ≡ length self.out.before }
        ensures { string_bytes result
            ≡ (if whole then self.out.before ++ print self.out.tokens else self.out.before) }
    {
        let Printer { out, .. } = self;
        let mut bytes = out.into_inner();
        if !whole {
            bytes.truncate(before);
        }
        unsafe { String::from_utf8_unchecked(bytes) }
    }

    // The object of one member that an attribute value is.
    #[cycle(print)]
    fn value(&mut self, value: &AttributeValue) -> Result<(), AllocError>
        ensures ok { OnOk result
            (self.new.out.tokens ≡ self.old.out.tokens ++ tokens_of (json_of (view value.now))) }
        ensures before { self.new.out.before ≡ self.old.out.before }
    {
        match value {
            AttributeValue::N(text) => self.text(Prefix::N, text),
            AttributeValue::S(text) => self.text(Prefix::S, text),
            AttributeValue::Bool(flag) => self.flag(Prefix::Bool, *flag),
            AttributeValue::B(bytes) => self.bytes(bytes),
            AttributeValue::Null(flag) => self.flag(Prefix::Null, *flag),
            AttributeValue::M(map) => {
                self.begin(Prefix::M)?;
                self.object(map)?;
                self.end()
            }
            AttributeValue::L(list) => {
                self.begin(Prefix::L)?;
                self.elements(list)?;
                self.end()
            }
            AttributeValue::Ss(set) => self.texts(Prefix::Ss, set),
            AttributeValue::Ns(set) => self.texts(Prefix::Ns, set),
            AttributeValue::Bs(set) => self.blobs(set),
        }
    }

    // The object of the members of a map.
    #[cycle(print)]
    fn object(&mut self, map: &HashMap<String, AttributeValue>) -> Result<(), AllocError>
        ensures ok { OnOk result
            (self.new.out.tokens
            ≡ self.old.out.tokens ++ tokens_of (item_json (members_view map.now.entries))) }
        ensures before { self.new.out.before ≡ self.old.out.before }
    {
        let members = entries_by_key(*self.room.allocator(), map)?;
        self.out.begin_object()?;
        for member in members.iter() {
            self.out.key(member.0.as_str())?;
            self.value(member.1)?;
        }
        self.out.end_object()
    }

    // The array of the values of a list, in order.
    #[cycle(print)]
    fn elements(&mut self, list: &Vec<AttributeValue>) -> Result<(), AllocError>
        ensures ok { OnOk result
            (self.new.out.tokens
            ≡ self.old.out.tokens
            ++ tokens_of (json.array (elements_json (elements_view list.now.items)))) }
        ensures before { self.new.out.before ≡ self.old.out.before }
    {
        self.out.begin_array()?;
        for element in list {
            self.value(element)?;
        }
        self.out.end_array()
    }

    // A number or a string: its string under the prefix.
    #[inline(never)]
    fn text(&mut self, prefix: Prefix, text: &str) -> Result<(), AllocError>
        ensures ok { OnOk result
            (self.new.out.tokens
            ≡ self.old.out.tokens
            ++ tokens_of (under (prefix_view prefix) (json.string text.now))) }
        ensures before { self.new.out.before ≡ self.old.out.before }
    {
        self.begin(prefix)?;
        self.out.string(text)?;
        self.end()
    }

    // A boolean under the prefix.
    #[inline(never)]
    fn flag(&mut self, prefix: Prefix, flag: bool) -> Result<(), AllocError>
        ensures ok { OnOk result
            (self.new.out.tokens
            ≡ self.old.out.tokens ++ tokens_of (under (prefix_view prefix) (json.boolean flag))) }
        ensures before { self.new.out.before ≡ self.old.out.before }
    {
        self.begin(prefix)?;
        self.out.boolean(flag)?;
        self.end()
    }

    // A byte string: its base64 string.
    #[inline(never)]
    fn bytes(&mut self, bytes: &[u8]) -> Result<(), AllocError>
        ensures ok { OnOk result
            (self.new.out.tokens
            ≡ self.old.out.tokens
            ++ tokens_of (under kind.B (json.string (base64_text bytes.now)))) }
        ensures before { self.new.out.before ≡ self.old.out.before }
    {
        self.begin(Prefix::B)?;
        self.base64(bytes)?;
        self.end()
    }

    // The array of strings under the prefix, in order.
    #[inline(never)]
    fn texts(&mut self, prefix: Prefix, set: &Vec<String>) -> Result<(), AllocError>
        ensures ok { OnOk result
            (self.new.out.tokens
            ≡ self.old.out.tokens
            ++ tokens_of (under (prefix_view prefix) (strings (map string_bytes set.now.items)))) }
        ensures before { self.new.out.before ≡ self.old.out.before }
    {
        self.begin(prefix)?;
        self.array(set)?;
        self.end()
    }

    // The array of strings, in order.
    #[inline(never)]
    fn array(&mut self, set: &Vec<String>) -> Result<(), AllocError>
        ensures ok { OnOk result
            (self.new.out.tokens
            ≡ self.old.out.tokens ++ tokens_of (strings (map string_bytes set.now.items))) }
        ensures before { self.new.out.before ≡ self.old.out.before }
    {
        self.out.begin_array()?;
        for text in set {
            self.out.string(text.as_str())?;
        }
        self.out.end_array()
    }

    // The array of the base64 strings of byte strings, in order.
    #[inline(never)]
    fn blobs(&mut self, set: &Vec<Vec<u8>>) -> Result<(), AllocError>
        ensures ok { OnOk result
            (self.new.out.tokens
            ≡ self.old.out.tokens
            ++ tokens_of
            (under kind.Bs (strings (map base64_text (map (λ b. b.items) set.now.items))))) }
        ensures before { self.new.out.before ≡ self.old.out.before }
    {
        self.begin(Prefix::Bs)?;
        self.out.begin_array()?;
        for bytes in set {
            self.base64(bytes)?;
        }
        self.out.end_array()?;
        self.end()
    }

    // The base64 string of bytes.
    fn base64(&mut self, bytes: &[u8]) -> Result<(), AllocError>
        ensures ok { OnOk result
            (self.new.out.tokens
            ≡ self.old.out.tokens ++ tokens_of (json.string (base64_text bytes.now))) }
        ensures before { self.new.out.before ≡ self.old.out.before }
    {
        self.room.clear();
        STANDARD.encode_string(bytes, &mut self.room)?;
        self.out.string(self.room.as_str())
    }

    // The beginning of the object of one member: its key is the prefix.
    fn begin(&mut self, prefix: Prefix) -> Result<(), AllocError>
        ensures ok { OnOk result
            (self.new.out.tokens ≡ self.old.out.tokens ++ begun (prefix_view prefix)) }
        ensures before { self.new.out.before ≡ self.old.out.before }
    {
        self.out.begin_object()?;
        self.out.key(prefix.as_str())
    }

    // The end of that object.
    fn end(&mut self) -> Result<(), AllocError>
        ensures ok { OnOk result (self.new.out.tokens ≡ self.old.out.tokens ++ ended) }
        ensures before { self.new.out.before ≡ self.old.out.before }
    {
        self.out.end_object()
    }
}
