//! The order of a page of items, by their own keys.
ghost use Rattle.std.specs.Prelude.{◌≡◌, IfOk};
ghost use Rattle.std.specs.Option.{option_copied};
ghost use Rattle.table_store.specs.Order.{AreBehind, IfBehind, ReadsOwnKey};
ghost use Rattle.table_store.specs.Runs.{listed};

use crate::StoreError;
use dynamo_value::Item;
use std::alloc::Global;
use table_keys::{Key, KeySchema, TableError, is_behind};

/// Returns the key that an item in a row has itself.
///
/// # Errors
///
/// Returns [`StoreError::Unreadable`] if it has none, and [`StoreError::OutOfMemory`] if memory
/// runs out.
pub fn own_key(schema: &KeySchema, item: &Item) -> Result<Key, StoreError>
    ensures { ReadsOwnKey schema.now item.now result }
{
    match schema.key_of(item) {
        Ok(key) => Ok(key),
        Err(TableError::OutOfMemory) => Err(StoreError::OutOfMemory),
        Err(_) => Err(StoreError::Unreadable),
    }
}

/// Returns the items of a page if the key of each comes after that of the item before it, and the
/// first after `start_after`. Otherwise no call of `TableStore` wrote one of the rows.
///
/// # Errors
///
/// Returns [`StoreError::Unreadable`] if an item has no key, or one that doesn't come after.
///
/// Returns [`StoreError::OutOfMemory`] if memory runs out.
pub fn in_order(
    schema: &KeySchema,
    start_after: Option<&Key>,
    items: Vec<Item>,
) -> Result<Vec<Item>, StoreError>
    ensures same { IfOk result (λ kept. kept ≡ items) }
    ensures behind { IfOk result (λ kept.
        AreBehind schema.now (option_copied start_after.entry) kept.items) }
    ensures exact { IfBehind schema.now (option_copied start_after.entry) items.items items.items
        (listed result) }
{
    let mut last: Option<Key> = None;
    for item in &items {
        let key = own_key(schema, item)?;
        if !is_behind(false, last.as_ref().or(start_after), &key) {
            return Err(StoreError::Unreadable);
        }
        last = Some(key);
    }
    Ok(items)
}
