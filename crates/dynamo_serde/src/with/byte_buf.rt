//! A field of type `ByteBuf` that is a byte string, `B`:
//! `#[serde(with = "dynamo_serde::byte_buf")]`.
ghost use Rattle.std.specs.Prelude.{IfOk, OnOk};
ghost use Rattle.serde.specs.Event.{Logs, octets};
ghost use Rattle.serde.specs.Steps.{Gives};
ghost use Rattle.dynamo_value.specs.Bytes.{octets_of};

use dynamo_value::ByteBuf;
use serde::{Deserializer, Format, Serializer};
use std::alloc::Global;

/// Writes the bytes as a byte string.
///
/// # Errors
///
/// Returns the serializer's error, as that for out of memory.
pub fn serialize<S: Serializer>(bytes: &ByteBuf, out: &mut S) -> Result<(), S::Error>
    ensures { OnOk result
        (Logs (S.written out.old) (S.written out.new) (octets (octets_of bytes.now))) }
{
    out.bytes(bytes.as_slice())
}

/// Reads a byte string.
///
/// # Errors
///
/// Returns `ExpectedBytes` for anything else, and `OutOfMemory` if memory runs out.
pub fn deserialize<F: Format>(
    alloc: Global,
    from: &mut Deserializer<'_, '_, F>,
) -> Result<ByteBuf, F::Error>
    ensures { IfOk result (λ bytes. Gives F.gives from.old (octets (octets_of bytes)) from.new) }
{
    match from.byte_buf(alloc) {
        Ok(bytes) => Ok(ByteBuf::from(bytes)),
        Err(error) => Err(error),
    }
}
