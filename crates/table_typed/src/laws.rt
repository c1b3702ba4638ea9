//! The promise of a table: `get` returns the value that `put` stored.
ghost use Rattle.std.specs.Prelude.{◌≡◌, ◌⊎◌, Result, Err, IfErr, IfOk, MatchOption};
ghost use Rattle.dynamo_value.specs.Av as av;
ghost use Rattle.dynamo_value.specs.Fault.{Fault};
ghost use Rattle.dynamo_value.specs.Item.{item_view};
ghost use Rattle.dynamo_value.specs.declared.item.Item.{Item};
ghost use Rattle.dynamo_de.specs.Source.{attribute};
ghost use Rattle.dynamo_write.specs.Written.{item_written};
ghost use Rattle.dynamo_shape.specs.Clear.{Clear};
ghost use Rattle.table_memory.specs.Content.{schema_of};
ghost use Rattle.table_typed.specs.Stored.{FailsToPut, FailsToReread, table_of};
ghost use Rattle.table_typed.specs.Written.{IsItemOf};

use crate::{AsItem, Keyed, TypedTable, TypedTableError};
use dynamo_record::Shaped;

/// Puts a value into a table, and gets the value under its key. If the type promises that its
/// values read back, there is a value, and it is the same.
///
/// # Errors
///
/// Returns the error of [`TypedTable::put`].
///
/// Returns [`TypedTableError::Value`] with the error of reading the item, or with `OutOfMemory` if
/// memory runs out.
pub fn put_then_get<T: AsItem + Keyed>(
    table: &mut TypedTable<T>,
    value: &T,
) -> Result<Option<T>, TypedTableError>
    ensures back { T.reads_back → IfOk result (λ found. MatchOption found ⊥ (T.alike value.now)) }
    ensures err { IfErr result
        (λ e. FailsToPut T.written T.unwritten (schema_of (table_of table.old)) value.now e
        ⊎ FailsToReread T.written T.reads_item value.now e) }
{
    let key = table.put(value)?;
    Ok(table.get(&key)?)
}

/// The promise of [`AsItem`] for a type with a shape: if the shape is clear, its values read back,
/// and two values are the same as the shape has it.
pub fn of_shaped<T: Shaped>()
    ensures back { Clear T.about.shape → ⟦<T as AsItem>⟧.reads_back }
    ensures alike { (v w : T) → ⟦<T as AsItem>⟧.alike v w → T.about.same v w }
    ensures written { (v : T) (item : Item) → ⟦<T as AsItem>⟧.written v item
        → IsItemOf T.about.shape T.tells v item }
    ensures unwritten { (v : T) (f : Fault) → ⟦<T as AsItem>⟧.unwritten v f
        → item_written (T.tells v) ≡ Err f }
    ensures reads { (item : Item) (r : Result T Fault) → ⟦<T as AsItem>⟧.reads_item item r
        → T.reads (attribute (av.M (item_view item))) r }
{}
