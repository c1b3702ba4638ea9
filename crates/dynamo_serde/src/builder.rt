// The attribute value that is being built, event by event.
ghost use Rattle.std.specs.Prelude.{◌≡◌, [], false, string_bytes, Some, IfOk, OnOk};
ghost use Rattle.serde.specs.Event.{boolean, signed, unsigned, single, double, character};
ghost use Rattle.serde.specs.Event.{text as text_event, octets, nothing, unit_variant, seq_begins};
ghost use Rattle.serde.specs.Event.{seq_ends, map_begins, map_ends, field_key};
ghost use Rattle.serde.specs.Event.{variant_key as variant_event, key_begins, key_ends};
ghost use Rattle.serde.specs.Event.{flattens as flatten_event};
ghost use Rattle.serde.specs.Spelling.{spelled};
ghost use Rattle.dynamo_value.specs.Av as av;
ghost use Rattle.dynamo_value.specs.View.{view};
ghost use Rattle.dynamo_serde.specs.Sent.{start, whole, Puts, Keys, Adds, IsValue, Opens, Closes};
ghost use Rattle.dynamo_serde.specs.Sent.{Takes};
ghost use Rattle.dynamo_serde.specs.Building.{state, frame};

use crate::fault::{LEVELS, fault, message, no_memory, too_deep};
use crate::open::{Open, OpenMap};
use crate::symbol::symbol_named;
use dynamo_value::{AttributeValue, Error, ErrorImpl, Result};
use serde::{Case, NameKind};
use std::alloc::Global;
use std::collections::HashMap;
use std::fmt::Display;

#[derive(Drop)]
pub(crate) struct Builder {
    alloc: Global,
    // What is open round the innermost, the outermost first.
    below: Vec<Open>,
    // The innermost.
    top: Open,
    // Whether the next scalar is the key of a map's entry.
    at_key: bool,
    // Whether the members of the next map go into the map that is open.
    flattens: bool,
}

// How many members a map has room for at first: as many as are foretold, and no more than a struct
// has.
fn room(len: Option<usize>) -> usize {
    len.unwrap_or(0).min(64)
}

impl Builder {
    pub(crate) fn new(alloc: Global) -> Builder
        ensures { state result ≡ start }
    {
        Builder {
            alloc,
            below: Vec::new(alloc),
            top: Open::Whole(None),
            at_key: false,
            flattens: false,
        }
    }

    pub(crate) fn into_value(self) -> Result<AttributeValue>
        ensures { IfOk result
            (λ v. ((state self).below ≡ []) × ((state self).top ≡ whole (Some (view v)))) }
    {
        let Builder {
            alloc,
            below,
            top,
            ..
        } = self;
        match top {
            Open::Whole(Some(value)) if below.is_empty() => Ok(value),
            _ => Err(message(alloc, "no value was written")),
        }
    }

    fn no_key(&self) -> Result<()>
        ensures { OnOk result (self.now.at_key ≡ false) }
    {
        if self.at_key {
            Err(fault(ErrorImpl::KeyMustBeAString))
        } else {
            Ok(())
        }
    }

    // Only a map can be flattened.
    fn not_flat(&self) -> Result<()>
        ensures { OnOk result (self.now.flattens ≡ false) }
    {
        if self.flattens {
            Err(message(self.alloc, "can only flatten structs and maps"))
        } else {
            Ok(())
        }
    }

    // Neither: a value that isn't a scalar comes.
    fn is_value(&self) -> Result<()>
        ensures { OnOk result (IsValue (state self.now)) }
    {
        self.no_key()?;
        self.not_flat()
    }

    fn put(&mut self, value: AttributeValue) -> Result<()>
        ensures { OnOk result (Puts (state self.old) (view value) (state self.new)) }
    {
        self.top.put(self.alloc, value)
    }

    // The map may be one too deep, since a symbol could have come for its key.
    fn set_key(&mut self, key: String) -> Result<()>
        ensures { OnOk result (Keys (state self.old) (string_bytes key) (state self.new)) }
    {
        if self.reaches(LEVELS + 1) {
            return Err(too_deep(self.alloc));
        }
        self.top.set_key(key)
    }

    // Whether so many lists and maps are open, not counting those of a symbol.
    fn reaches(&self, levels: usize) -> bool {
        if self.below.len() < levels {
            return false;
        }
        let mut open = 0;
        for outer in &self.below {
            open = outer.levels_after(open);
        }
        self.top.levels_after(open) >= levels
    }

    fn put_text(&mut self, text: String) -> Result<()>
        ensures { OnOk result
            (Adds (state self.old) (string_bytes text) (av.S (string_bytes text))
            (state self.new)) }
    {
        self.not_flat()?;
        if self.at_key {
            self.set_key(text)
        } else {
            self.put(AttributeValue::S(text))
        }
    }

    fn put_number(&mut self, text: String) -> Result<()>
        ensures { OnOk result
            (Adds (state self.old) (string_bytes text) (av.N (string_bytes text))
            (state self.new)) }
    {
        self.not_flat()?;
        if self.at_key {
            self.set_key(text)
        } else {
            self.put(AttributeValue::N(text))
        }
    }

    #[tactic(auto, using(crate::proofs::Names::as_is))]
    fn spelled(&self, name: &str, case: Case, kind: NameKind) -> Result<String>
        ensures { IfOk result (λ s. string_bytes s ≡ spelled case kind name.now) }
    {
        if let Case::AsIs = case {
            let text = String::from_str(self.alloc, name)?;
            return Ok(text);
        }
        let mut text = String::new(self.alloc);
        case.append(kind, name, &mut text)?;
        Ok(text)
    }

    fn open(&mut self, inner: Open) -> Result<()>
        ensures { OnOk result (Opens (state self.old) (frame inner) (state self.new)) }
    {
        let outer = std::mem::replace(&mut self.top, inner);
        self.below.push(outer)?;
        Ok(())
    }

    // Closes the innermost, with this value in its place.
    fn close(&mut self, value: AttributeValue) -> Result<()>
        ensures { OnOk result (Closes (state self.old) (view value) (state self.new)) }
    {
        match self.below.pop() {
            Some(outer) => {
                self.top = outer;
                self.top.put(self.alloc, value)
            }
            None => Err(fault(ErrorImpl::ExpectedSeq)),
        }
    }
}

// The methods of `Serializer`.
impl Builder {
    pub(crate) fn bool(&mut self, v: bool) -> Result<()>
        ensures { OnOk result (Takes (state self.old) (boolean v) (state self.new)) }
    {
        self.not_flat()?;
        if self.at_key {
            let text = String::from_str(self.alloc, if v { "true" } else { "false" })?;
            return self.set_key(text);
        }
        self.put(AttributeValue::Bool(v))
    }

    pub(crate) fn i64(&mut self, v: i64) -> Result<()>
        ensures { OnOk result (Takes (state self.old) (signed v) (state self.new)) }
    {
        let text = v.to_string(self.alloc)?;
        self.put_number(text)
    }

    pub(crate) fn u64(&mut self, v: u64) -> Result<()>
        ensures { OnOk result (Takes (state self.old) (unsigned v) (state self.new)) }
    {
        let text = v.to_string(self.alloc)?;
        self.put_number(text)
    }

    pub(crate) fn i128(&mut self, v: i128) -> Result<()>
        ensures { OnOk result (Takes (state self.old) (signed v) (state self.new)) }
    {
        let text = v.to_string(self.alloc)?;
        self.put_number(text)
    }

    pub(crate) fn u128(&mut self, v: u128) -> Result<()>
        ensures { OnOk result (Takes (state self.old) (unsigned v) (state self.new)) }
    {
        let text = v.to_string(self.alloc)?;
        self.put_number(text)
    }

    pub(crate) fn f32(&mut self, v: f32) -> Result<()>
        ensures { OnOk result (Takes (state self.old) (single v) (state self.new)) }
    {
        self.is_value()?;
        if !v.is_finite() {
            return Err(message(self.alloc, "DynamoDB has no infinite numbers, and no NaN"));
        }
        let text = String::from_str(self.alloc, ryu::Buffer::new().format_finite(v))?;
        self.put(AttributeValue::N(text))
    }

    pub(crate) fn f64(&mut self, v: f64) -> Result<()>
        ensures { OnOk result (Takes (state self.old) (double v) (state self.new)) }
    {
        self.is_value()?;
        if !v.is_finite() {
            return Err(message(self.alloc, "DynamoDB has no infinite numbers, and no NaN"));
        }
        let text = String::from_str(self.alloc, ryu::Buffer::new().format_finite(v))?;
        self.put(AttributeValue::N(text))
    }

    pub(crate) fn char(&mut self, v: char) -> Result<()>
        ensures { OnOk result (Takes (state self.old) (character v) (state self.new)) }
    {
        let text = v.to_string(self.alloc)?;
        self.put_text(text)
    }

    pub(crate) fn str(&mut self, v: &str) -> Result<()>
        ensures { OnOk result (Takes (state self.old) (text_event v.now) (state self.new)) }
    {
        let text = String::from_str(self.alloc, v)?;
        self.put_text(text)
    }

    pub(crate) fn bytes(&mut self, v: &[u8]) -> Result<()>
        ensures { OnOk result (Takes (state self.old) (octets v.now) (state self.new)) }
    {
        self.is_value()?;
        let bytes = v.to_vec(self.alloc)?;
        self.put(AttributeValue::B(bytes))
    }

    pub(crate) fn unit(&mut self) -> Result<()>
        ensures { OnOk result (Takes (state self.old) nothing (state self.new)) }
    {
        self.no_key()?;
        if self.flattens {
            self.flattens = false;
            return Ok(());
        }
        self.put(AttributeValue::Null(true))
    }

    pub(crate) fn str_cased(&mut self, name: &str, case: Case) -> Result<()>
        ensures { OnOk result
            (Takes (state self.old) (unit_variant name.now case) (state self.new)) }
    {
        let text = self.spelled(name, case, NameKind::Variant)?;
        self.put_text(text)
    }

    pub(crate) fn begin_seq(&mut self, _len: Option<usize>) -> Result<()>
        ensures { OnOk result (Takes (state self.old) (seq_begins _len) (state self.new)) }
    {
        self.is_value()?;
        if self.reaches(LEVELS) {
            return Err(too_deep(self.alloc));
        }
        self.open(Open::List(Vec::new(self.alloc)))
    }

    pub(crate) fn end_seq(&mut self) -> Result<()>
        ensures { OnOk result (Takes (state self.old) seq_ends (state self.new)) }
    {
        match std::mem::replace(&mut self.top, Open::Whole(None)) {
            Open::List(items) => self.close(AttributeValue::L(items)),
            _ => Err(fault(ErrorImpl::ExpectedSeq)),
        }
    }

    pub(crate) fn begin_map(&mut self, len: Option<usize>) -> Result<()>
        ensures { OnOk result (Takes (state self.old) (map_begins len) (state self.new)) }
    {
        self.no_key()?;
        if self.flattens {
            self.flattens = false;
            let Open::Map(map) = &mut self.top else {
                return Err(fault(ErrorImpl::ExpectedMap));
            };
            let Some(shared) = map.shared.checked_add(1) else {
                return Err(no_memory());
            };
            map.shared = shared;
            return Ok(());
        }
        if self.reaches(LEVELS + 1) {
            return Err(too_deep(self.alloc));
        }
        let entries = HashMap::with_capacity(self.alloc, room(len))?;
        self.open(Open::Map(OpenMap {
            entries,
            key: None,
            shared: 0,
        }))
    }

    pub(crate) fn end_map(&mut self) -> Result<()>
        ensures { OnOk result (Takes (state self.old) map_ends (state self.new)) }
    {
        match std::mem::replace(&mut self.top, Open::Whole(None)) {
            Open::Map(mut map) if map.shared > 0 => {
                map.shared -= 1;
                self.top = Open::Map(map);
                Ok(())
            }
            Open::Map(map) => {
                if self.reaches(LEVELS) {
                    return Err(too_deep(self.alloc));
                }
                let OpenMap { entries, .. } = map;
                self.close(AttributeValue::M(entries))?;
                Ok(())
            }
            Open::Marked(_, Some(value)) => self.close(value),
            Open::Marked(_, None) => Err(fault(ErrorImpl::NotSetlike)),
            _ => Err(fault(ErrorImpl::ExpectedMap)),
        }
    }

    pub(crate) fn key_cased(&mut self, name: &str, case: Case) -> Result<()>
        ensures { OnOk result (Takes (state self.old) (field_key name.now case) (state self.new)) }
    {
        let key = self.spelled(name, case, NameKind::Field)?;
        self.set_key(key)
    }

    pub(crate) fn variant_key(&mut self, name: &str, case: Case) -> Result<()>
        ensures { OnOk result
            (Takes (state self.old) (variant_event name.now case) (state self.new)) }
    {
        match symbol_named(name) {
            Some(symbol) => self.top.set_symbol(symbol),
            None => {
                let key = self.spelled(name, case, NameKind::Variant)?;
                self.set_key(key)
            }
        }
    }

    pub(crate) fn begin_key(&mut self) -> Result<()>
        ensures { OnOk result (Takes (state self.old) key_begins (state self.new)) }
    {
        self.at_key = true;
        Ok(())
    }

    pub(crate) fn end_key(&mut self) -> Result<()>
        ensures { OnOk result (Takes (state self.old) key_ends (state self.new)) }
    {
        self.at_key = false;
        Ok(())
    }

    pub(crate) fn flatten_next(&mut self) -> Result<()>
        ensures { OnOk result (Takes (state self.old) flatten_event (state self.new)) }
    {
        self.flattens = true;
        Ok(())
    }

    pub(crate) fn custom(&self, text: &str) -> Error {
        message(self.alloc, text)
    }

    pub(crate) fn collect_str<T: Display>(&mut self, value: &T) -> Result<()> {
        match format!(in self.alloc; "{value}") {
            Ok(text) => self.put_text(text),
            Err(_) => Err(no_memory()),
        }
    }
}
