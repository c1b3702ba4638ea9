// A builder that knows the events which it was sent, for proofs.
ghost use Rattle.std.specs.Prelude.{◌≡◌, [], Some, IfSome, OnOk, IfOk};
ghost use Rattle.serde.specs.Event.{Logs};
ghost use Rattle.dynamo_value.specs.View.{view};
ghost use Rattle.dynamo_serde.specs.Sent.{State, start, Takes, Follows, IsValueOf};
ghost use Rattle.dynamo_serde.specs.Called.{event_of};
ghost use Rattle.dynamo_serde.specs.Building.{state};

use crate::builder::Builder;
use crate::events::{Call, Events};
use dynamo_value::{AttributeValue, Error, Result};
use serde::{Case, Serializer};
use std::alloc::Global;
use std::fmt::Display;

#[derive(Drop)]
pub(crate) struct Writer {
    builder: Builder,
    events: Events,
    ghost follows: { Follows start events.sent (state builder) },
}

impl Writer {
    pub(crate) fn new(alloc: Global) -> Writer
        ensures { result.events.sent ≡ Some [] }
    {
        Writer {
            builder: Builder::new(alloc),
            events: Events::none(),
        }
    }

    pub(crate) fn into_value(self) -> Result<AttributeValue>
        ensures { IfOk result (λ v. IsValueOf self.events.sent (view v)) }
    {
        let Writer { builder, .. } = self;
        builder.into_value()
    }
}

// The events with that of a call that was done, or nothing known of them if it failed.
#[inline(always)]
fn after(events: &Events, done: &Result<()>, call: Call<'_>) -> Events
    ensures logs { OnOk done.now (IfSome (event_of call.entry) (Logs events.now.sent result.sent)) }
    ensures follows { (first old new : State) → Follows first events.now.sent old
        → OnOk done.now (IfSome (event_of call.entry) (λ e. Takes old e new))
        → Follows first result.sent new }
{
    match done {
        Ok(()) => events.and(&call),
        Err(_) => events.and(&Call::Unknown),
    }
}

// Makes a call of the builder, and adds its event to those that were sent.
macro_rules! send {
    ($writer:ident, $done:expr, $call:expr) => {{
        let done = $done;
        $writer.events = after(&$writer.events, &done, $call);
        done
    }};
}

impl Serializer for Writer {
    type Error = Error;

    ghost written = { λ w. w.events.sent };

    #[inline(always)]
    fn bool(&mut self, v: bool) -> Result<()> {
        send!(self, self.builder.bool(v), Call::Bool(v))
    }

    #[inline(always)]
    fn i64(&mut self, v: i64) -> Result<()> {
        send!(self, self.builder.i64(v), Call::Signed(i128::from(v)))
    }

    #[inline(always)]
    fn u64(&mut self, v: u64) -> Result<()> {
        send!(self, self.builder.u64(v), Call::Unsigned(u128::from(v)))
    }

    #[inline(always)]
    fn i128(&mut self, v: i128) -> Result<()> {
        send!(self, self.builder.i128(v), Call::Signed(v))
    }

    #[inline(always)]
    fn u128(&mut self, v: u128) -> Result<()> {
        send!(self, self.builder.u128(v), Call::Unsigned(v))
    }

    #[inline(always)]
    fn f32(&mut self, v: f32) -> Result<()> {
        send!(self, self.builder.f32(v), Call::Single(v))
    }

    #[inline(always)]
    fn f64(&mut self, v: f64) -> Result<()> {
        send!(self, self.builder.f64(v), Call::Double(v))
    }

    #[inline(always)]
    fn char(&mut self, v: char) -> Result<()> {
        send!(self, self.builder.char(v), Call::Char(v))
    }

    #[inline(always)]
    fn str(&mut self, v: &str) -> Result<()> {
        send!(self, self.builder.str(v), Call::Text(v))
    }

    #[inline(always)]
    fn bytes(&mut self, v: &[u8]) -> Result<()> {
        send!(self, self.builder.bytes(v), Call::Bytes(v))
    }

    #[inline(always)]
    fn unit(&mut self) -> Result<()> {
        send!(self, self.builder.unit(), Call::Unit)
    }

    #[inline(always)]
    fn str_cased(&mut self, name: &str, case: Case) -> Result<()> {
        send!(
            self,
            self.builder.str_cased(name, case),
            Call::UnitVariant(name, case)
        )
    }

    #[inline(always)]
    fn begin_seq(&mut self, len: Option<usize>) -> Result<()> {
        send!(self, self.builder.begin_seq(len), Call::BeginSeq(len))
    }

    #[inline(always)]
    fn end_seq(&mut self) -> Result<()> {
        send!(self, self.builder.end_seq(), Call::EndSeq)
    }

    #[inline(always)]
    fn begin_map(&mut self, len: Option<usize>) -> Result<()> {
        send!(self, self.builder.begin_map(len), Call::BeginMap(len))
    }

    #[inline(always)]
    fn end_map(&mut self) -> Result<()> {
        send!(self, self.builder.end_map(), Call::EndMap)
    }

    #[inline(always)]
    fn key_cased(&mut self, name: &str, case: Case) -> Result<()> {
        send!(
            self,
            self.builder.key_cased(name, case),
            Call::FieldKey(name, case)
        )
    }

    #[inline(always)]
    fn variant_key(&mut self, name: &str, case: Case) -> Result<()> {
        send!(
            self,
            self.builder.variant_key(name, case),
            Call::VariantKey(name, case)
        )
    }

    #[inline(always)]
    fn begin_key(&mut self) -> Result<()> {
        send!(self, self.builder.begin_key(), Call::BeginKey)
    }

    #[inline(always)]
    fn end_key(&mut self) -> Result<()> {
        send!(self, self.builder.end_key(), Call::EndKey)
    }

    #[inline(always)]
    fn flatten_next(&mut self) -> Result<()> {
        send!(self, self.builder.flatten_next(), Call::Flatten)
    }

    fn collect_str<T: Display>(&mut self, value: &T) -> Result<()> {
        let done = self.builder.collect_str(value);
        self.events = self.events.and(&Call::Unknown);
        done
    }

    fn custom(&self, message: &str) -> Error {
        self.builder.custom(message)
    }
}
