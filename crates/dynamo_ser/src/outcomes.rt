ghost use Rattle.std.specs.Prelude.{◌≡◌, ℕ, List, Result, Ok, Err};
ghost use Rattle.dynamo_value.specs.Fault.{message};
ghost use Rattle.dynamo_ser.specs.Datum as datum;
ghost use Rattle.dynamo_ser.specs.Datum.{Datum};

use crate::Error;
use std::alloc::Global;

/// The results of a serializer: the part of [`Serializer`](crate::Serializer) that its builders
/// know of.
pub trait Outcomes: Sized + Drop {
    /// The value that a written datum gives.
    type Ok: Drop;

    /// The error of a serializer.
    type Error: Error;

    // The results that a datum may have, out of memory among them where writing the datum may
    // allocate.
    ghost outcome: { Self → Datum → Result Self.Ok Self.Error → Type 0 };

    /// Returns the allocator of what is written. A value that builds a string or a message takes it
    /// from here.
    fn alloc(&self) -> Global;

    // An implementation's own error may be passed on.
    ghost refusal: { (s : Self) (text : List ℕ) (e : Self.Error) → Self.Error.fault e ≡ message text
        → outcome s (datum.refuse text) (Err e) };
}
