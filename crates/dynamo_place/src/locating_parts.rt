ghost use Rattle.std.specs.Prelude.{◌≡◌, None, option_map, string_bytes};

use crate::locating::{LocatingSerializer, Written};
use dynamo_ser::{
    ListBuilder, Outcomes, SerializeMap, SerializeSeq, SerializeStruct, SerializeStructVariant,
    SerializeTuple, SerializeTupleStruct, SerializeTupleVariant, StructBuilder,
};
use dynamo_value::{Error, Result};
use std::alloc::Global;

/// The builder of every value with parts. It goes to each part on the trail while it is written.
#[derive(Drop)]
pub struct LocatingParts<'a> {
    serializer: LocatingSerializer<'a>,
    // How many steps lead to the whole value, and how many to the value whose parts these are.
    whole: usize,
    depth: usize,
    // What is written by the parts so far.
    written: Written,
    // The index of the next element.
    index: usize,
    next_key: Option<String>,
}

impl<'a> LocatingParts<'a> {
    /// Returns the builder of a value whose parts are right inside it, and which is written as this
    /// if it has none.
    pub(crate) fn new(serializer: LocatingSerializer<'a>, written: Written) -> Self
        ensures { result.next_key ≡ None }
    {
        let depth = serializer.trail.depth();
        LocatingParts {
            serializer,
            whole: depth,
            depth,
            written,
            index: 0,
            next_key: None,
        }
    }

    /// Returns the builder of a variant, whose parts are under its name.
    pub(crate) fn under(serializer: LocatingSerializer<'a>, variant: &str) -> Self {
        let whole = serializer.trail.depth();
        serializer.go_to(variant);
        let mut parts = LocatingParts::new(serializer, Written::Other);
        parts.whole = whole;
        parts
    }

    fn go_back(&self) {
        self.serializer.trail.back_to(self.depth);
    }

    fn leave(&self) {
        self.serializer.trail.back_to(self.whole);
    }

    fn go_to(&self, key: &str) {
        self.go_back();
        self.serializer.go_to(key);
    }
}

impl<'a> ListBuilder<LocatingSerializer<'a>> for LocatingParts<'a> {
    type Ok = Written;

    type Error = Error;

    ghost gives = { λ b pieces r. Unit {0} };

    ghost writer = { λ b. b.serializer };

    fn element_serializer(&self) -> LocatingSerializer<'a> {
        self.go_back();
        self.serializer.trail.to_element(self.index);
        self.serializer
    }

    fn push_element(&mut self, written: Written) -> Result<()> {
        self.go_back();
        if let Written::List(misfits) = self.written {
            self.written = Written::List(misfits.and(self.index, written));
        }
        self.index = self.index.wrapping_add(1);
        Ok(())
    }

    fn finish(self) -> Result<Written> {
        self.leave();
        Ok(self.written)
    }
}

impl<'a> SerializeSeq<LocatingSerializer<'a>> for LocatingParts<'a> {}

impl<'a> SerializeTuple<LocatingSerializer<'a>> for LocatingParts<'a> {}

impl<'a> SerializeTupleStruct<LocatingSerializer<'a>> for LocatingParts<'a> {}

impl<'a> SerializeTupleVariant<LocatingSerializer<'a>> for LocatingParts<'a> {}

impl<'a> SerializeMap<LocatingSerializer<'a>> for LocatingParts<'a> {
    type Ok = Written;

    type Error = Error;

    ghost gives = { λ b pieces r. Unit {0} };

    ghost pending = { λ b. option_map string_bytes b.next_key };

    ghost writer = { λ b. b.serializer };

    fn alloc(&self) -> Global {
        self.serializer.alloc()
    }

    fn refused(&self, error: Error) -> Error {
        self.go_back();
        error
    }

    fn has_key(&self) -> bool {
        self.next_key.is_some()
    }

    fn set_key(&mut self, key: String) {
        self.next_key = Some(key);
    }

    fn take_key(&mut self) -> Option<String> {
        self.next_key.take()
    }

    fn begin_value(&self, key: &str) {
        self.go_to(key);
    }

    fn value_serializer(&self) -> LocatingSerializer<'a> {
        self.serializer
    }

    fn push_entry(&mut self, _key: String, _written: Written) -> Result<()> {
        self.go_back();
        Ok(())
    }

    fn end(self) -> Result<Written> {
        self.leave();
        Ok(self.written)
    }
}

impl<'a> StructBuilder<LocatingSerializer<'a>> for LocatingParts<'a> {
    type Ok = Written;

    type Error = Error;

    ghost gives = { λ b pieces r. Unit {0} };

    ghost writer = { λ b. b.serializer };

    fn begin_field(&self, key: &str) {
        self.go_to(key);
    }

    fn field_serializer(&self) -> LocatingSerializer<'a> {
        self.serializer
    }

    fn push_field(&mut self, _key: &'static str, _written: Written) -> Result<()> {
        self.go_back();
        Ok(())
    }

    fn finish(self) -> Result<Written> {
        self.leave();
        Ok(self.written)
    }
}

impl<'a> SerializeStruct<LocatingSerializer<'a>> for LocatingParts<'a> {}

impl<'a> SerializeStructVariant<LocatingSerializer<'a>> for LocatingParts<'a> {}
