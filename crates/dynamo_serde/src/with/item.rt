//! A field that is an `Item`, as the map of its attributes, `M`:
//! `#[serde(with = "dynamo_serde::item")]`.
ghost use Rattle.std.specs.Prelude.{IfOk, OnOk};
ghost use Rattle.dynamo_value.specs.Av as av;
ghost use Rattle.dynamo_value.specs.Item.{item_view};
ghost use Rattle.dynamo_serde.specs.Fetched.{FetchesMap};
ghost use Rattle.dynamo_serde.specs.Value.{SendsValue};

use crate::fault::LEVELS;
use crate::with::attribute_value::{fetch_map, send_map};
use dynamo_value::Item;
use serde::{Deserializer, Format, Serializer};
use std::alloc::Global;

/// Writes the map of the item's attributes, each as [`attribute_value`](crate::attribute_value)
/// writes it.
///
/// # Errors
///
/// Returns an error if the item has more than 127 levels of lists and maps, or if memory runs out.
pub fn serialize<S: Serializer>(item: &Item, out: &mut S) -> Result<(), S::Error>
    ensures { OnOk result
        (SendsValue (av.M (item_view item.now)) (S.written out.old) (S.written out.new)) }
{
    send_map(item.inner(), out)
}

/// Reads a map, each of its values as [`attribute_value`](crate::attribute_value) reads it.
///
/// # Errors
///
/// Returns `ExpectedMap` for anything else. Returns an error if it has more than 127 levels of
/// lists and maps, or if memory runs out.
pub fn deserialize<F: Format>(
    alloc: Global,
    from: &mut Deserializer<'_, '_, F>,
) -> Result<Item, F::Error>
    ensures { IfOk result
        (λ item. FetchesMap F.gives F.stays F.picks (item_view item) from.old from.new) }
{
    match fetch_map(alloc, from, LEVELS) {
        Ok(map) => Ok(Item::from(map)),
        Err(error) => Err(error),
    }
}
