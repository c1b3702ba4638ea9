//! Values as items, and back.

ghost use Rattle.std.specs.Prelude.{◌≡◌, ◌⊎◌, Err, IfOk, IfErr, MatchResult};
ghost use Rattle.dynamo_value.specs.Av as av;
ghost use Rattle.dynamo_value.specs.Fault.{out_of_memory};
ghost use Rattle.dynamo_value.specs.Item.{item_view};
ghost use Rattle.dynamo_value.specs.Kind.{fault_of};
ghost use Rattle.dynamo_de.specs.Meets.{Meets};
ghost use Rattle.dynamo_de.specs.Source.{attribute};
ghost use Rattle.dynamo_write.specs.Written.{item_written};
ghost use Rattle.dynamo_shape.specs.Clear.{Clear};
ghost use Rattle.table_keys.specs.Queries.{seen};
ghost use Rattle.table_typed.specs.Stored.{ReadEach, RefusesFirst};
ghost use Rattle.table_typed.specs.Written.{IsItemOf};

use crate::AsItem;
use dynamo_read::{from_item, from_item_ref};
use dynamo_record::Shaped;
use dynamo_value::{Item, Result};
use dynamo_write::to_item;
use std::alloc::Global;
use table_keys::Key;

/// Returns the item of a value.
///
/// # Errors
///
/// Returns the error of writing the value as an item.
///
/// Returns [`ErrorImpl::OutOfMemory`](dynamo_value::ErrorImpl::OutOfMemory) if memory runs out.
pub fn item_of<T: Shaped>(alloc: Global, value: &T) -> Result<Item>
    ensures ok { IfOk result (λ item. IsItemOf T.about.shape T.tells value.now item) }
    ensures err { IfErr result
        (λ e. (item_written (T.tells value.now) ≡ Err (fault_of e))
        ⊎ (fault_of e ≡ out_of_memory)) }
{
    value.conforms();
    to_item(alloc, value)
}

/// Reads a value from a borrowed item. From the item of a value it reads the same value, if the
/// shape is clear.
///
/// # Errors
///
/// Returns the error of reading the item.
///
/// Returns [`ErrorImpl::OutOfMemory`](dynamo_value::ErrorImpl::OutOfMemory) if memory runs out.
pub fn value_of<T: Shaped>(alloc: Global, item: &Item) -> Result<T>
    ensures read { Meets fault_of (T.reads (attribute (av.M (item_view item.now)))) result }
    ensures clear { Clear T.about.shape → (value : T)
        → IsItemOf T.about.shape T.tells value item.now
        → MatchResult result (λ w. T.about.same value w) (λ e. fault_of e ≡ out_of_memory) }
{
    let value: T = from_item_ref(alloc, item)?;
    value.conforms();
    Ok(value)
}

/// Reads a value from an item, as [`value_of`] does. It moves the parts of the item.
///
/// # Errors
///
/// Returns the error of reading the item.
///
/// Returns [`ErrorImpl::OutOfMemory`](dynamo_value::ErrorImpl::OutOfMemory) if memory runs out.
pub fn value_from<T: Shaped>(alloc: Global, item: Item) -> Result<T>
    ensures read { Meets fault_of (T.reads (attribute (av.M (item_view item)))) result }
    ensures clear { Clear T.about.shape → (value : T) → IsItemOf T.about.shape T.tells value item
        → MatchResult result (λ w. T.about.same value w) (λ e. fault_of e ≡ out_of_memory) }
{
    let value: T = from_item(alloc, item)?;
    value.conforms();
    Ok(value)
}

/// Reads a value from each of these items.
///
/// # Errors
///
/// Returns the error of reading the first of them that doesn't read, or `OutOfMemory` if memory
/// runs out.
pub(crate) fn values_of<T: AsItem>(alloc: Global, found: &[(&Key, &Item)]) -> Result<Vec<T>>
    ensures read { IfOk result (λ values. ReadEach T.reads_item (seen found.now) values.items) }
    ensures err { IfErr result
        (λ e. (fault_of e ≡ out_of_memory)
        ⊎ RefusesFirst T.reads_item (fault_of e) (seen found.now)) }
{
    let mut values = Vec::with_capacity(alloc, found.len())?;
    for (_, item) in found {
        values.push(T::read_item(alloc, item)?)?;
    }
    Ok(values)
}
