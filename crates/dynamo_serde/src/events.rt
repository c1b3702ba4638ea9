// The events that a writer was sent, for proofs alone: at run time nothing of them is kept.
ghost use Rattle.std.specs.Prelude.{◌≡◌, [], Some};
ghost use base.Fml.{ftrue};
ghost use Rattle.serde.specs.Event.{Log};

use serde::Case;
use std::marker::Model;

#[derive(Drop)]
pub(crate) struct Events {
    ghost sent: { Log },
}

impl Model for Events {
    ghost also_owns = { λ _. ftrue };
}

// One call of a `Serializer`, or `Unknown` where a call failed, and so nothing is known of the
// events from there on.
#[derive(Clone, Copy, Drop)]
pub(crate) enum Call<'a> {
    Bool(bool),
    Signed(i128),
    Unsigned(u128),
    Single(f32),
    Double(f64),
    Char(char),
    Text(&'a str),
    Bytes(&'a [u8]),
    Unit,
    UnitVariant(&'a str, Case),
    BeginSeq(Option<usize>),
    EndSeq,
    BeginMap(Option<usize>),
    EndMap,
    FieldKey(&'a str, Case),
    VariantKey(&'a str, Case),
    BeginKey,
    EndKey,
    Flatten,
    Unknown,
}

impl Events {
    ghost use Rattle.dynamo_serde.specs.Called.{event_of, and_then};

    // No event was sent yet.
    pub(crate) fn none() -> Events
        ensures { result.sent ≡ Some [] }
    {
        Events {}
    }

    // These events, and the one of this call.
    #[inline(always)]
    pub(crate) fn and(&self, _call: &Call<'_>) -> Events
        ensures { result.sent ≡ and_then self.now.sent (event_of _call.now) }
    {
        Events {}
    }
}
