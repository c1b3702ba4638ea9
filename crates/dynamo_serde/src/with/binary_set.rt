//! A field that is a set of byte strings, `BS`: `#[serde(with = "dynamo_serde::binary_set")]`.
ghost use Rattle.std.specs.Prelude.{map, IfOk, OnOk};
ghost use Rattle.dynamo_value.specs.Av as av;
ghost use Rattle.dynamo_serde.specs.Fetched.{ReadsBlobs};
ghost use Rattle.dynamo_serde.specs.Value.{Logged, value_events};

use crate::symbol::BINARY_SET;
use serde::{Case, Deserializer, Format, Serializer};
use std::alloc::Global;

/// Writes the byte strings as a set.
///
/// # Errors
///
/// Returns the serializer's error, as that for out of memory.
pub fn serialize<S: Serializer>(blobs: &Vec<Vec<u8>>, out: &mut S) -> Result<(), S::Error>
    ensures { OnOk result
        (Logged (value_events (av.Bs (map (λ b. b.items) blobs.now.items))) (S.written out.old)
        (S.written out.new)) }
{
    out.begin_map(Some(1))?;
    out.variant_key(BINARY_SET, Case::AsIs)?;
    out.begin_seq(Some(blobs.len()))?;
    for blob in blobs {
        out.bytes(blob.as_slice())?;
    }
    out.end_seq()?;
    out.end_map()
}

/// Reads a set of byte strings, or a list of them.
///
/// # Errors
///
/// Returns `ExpectedSeq` for anything else, and `ExpectedBytes` for an element of another kind.
/// Returns `OutOfMemory` if memory runs out.
pub fn deserialize<F: Format>(
    alloc: Global,
    from: &mut Deserializer<'_, '_, F>,
) -> Result<Vec<Vec<u8>>, F::Error>
    ensures { IfOk result
        (λ blobs. ReadsBlobs F.gives F.stays (map (λ b. b.items) blobs.items) from.old from.new) }
{
    from.begin_seq()?;
    let mut blobs = Vec::new(alloc);
    for _ in 0..u64::MAX {
        if !from.next_item()? {
            return Ok(blobs);
        }
        let blob = from.byte_buf(alloc)?;
        if blobs.push(blob).is_err() {
            return Err(from.no_memory());
        }
    }
    Err(from.no_memory())
}
