//! A field of type `Vec<u8>` that is a byte string, `B`: `#[serde(with = "dynamo_serde::bytes")]`.
ghost use Rattle.std.specs.Prelude.{IfOk, OnOk};
ghost use Rattle.serde.specs.Event.{Logs, octets};
ghost use Rattle.serde.specs.Steps.{Gives};

use serde::{Deserializer, Format, Serializer};
use std::alloc::Global;

/// Writes the bytes as a byte string. Without the attribute they are a list of numbers.
///
/// # Errors
///
/// Returns the serializer's error, as that for out of memory.
pub fn serialize<S: Serializer>(bytes: &Vec<u8>, out: &mut S) -> Result<(), S::Error>
    ensures { OnOk result (Logs (S.written out.old) (S.written out.new) (octets bytes.now.items)) }
{
    out.bytes(bytes.as_slice())
}

/// Reads a byte string.
///
/// # Errors
///
/// Returns `ExpectedBytes` for anything else, and `OutOfMemory` if memory runs out.
pub fn deserialize<F: Format>(
    alloc: Global,
    from: &mut Deserializer<'_, '_, F>,
) -> Result<Vec<u8>, F::Error>
    ensures { IfOk result (λ bytes. Gives F.gives from.old (octets bytes.items) from.new) }
{
    from.byte_buf(alloc)
}
