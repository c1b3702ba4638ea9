//! Puts on the map of a table's items, each with one search.
ghost use Rattle.std.specs.BTreeMap.{IsOrdered, get, insert_entry, keys};
ghost use Rattle.std.specs.Bool.{OnTrue};
ghost use Rattle.std.specs.Prelude.{◌≡◌, ◌↔◌, IfOk, IsTrue, MatchOption, None, OnErr, OnOk};
ghost use Rattle.std.specs.Prelude.{if◌then◌else◌};
ghost use Rattle.std.specs.Fn.{FnOnceReturnsAt};
ghost use Rattle.table_memory.specs.Change.{ChangesItem};
ghost use Rattle.table_memory.specs.Places.{IsPut, Stays, TakesPlace};
ghost use Rattle.table_keys.specs.KeyOrder.{key_cmp};

use dynamo_value::Item;
use std::alloc::AllocError;
use std::collections::BTreeMap;
use std::collections::btree_map::Entry;
use std::mem;
use table_keys::{Key, KeySchema, TableError};

// Puts an item in the place of the one under the key, and returns that one. A key without an item
// gets none.
pub(crate) fn replace(items: &mut BTreeMap<Key, Item>, key: &Key, item: Item) -> Option<Item>
    ensures { MatchOption result
        ((get key_cmp items.old key.now ≡ None) × Stays items.old items.new)
        (λ before. TakesPlace key.now item before items.old items.new) }
{
    match items.get_mut(key) {
        Some(place) => Some(mem::replace(place, item)),
        None => None,
    }
}

// Puts an item under a key that has none, and returns whether it did.
pub(crate) fn add(items: &mut BTreeMap<Key, Item>, key: Key, item: Item) -> Result<bool, AllocError>
    ensures there { IfOk result (λ added. get key_cmp items.old key ≡ None ↔ IsTrue added) }
    ensures put { IfOk result (λ added. OnTrue added (IsPut key item items.old items.new)) }
    ensures entries { IfOk result (λ added. items.new.entries
        ≡ (if added then insert_entry key_cmp items.old.entries key item else items.old.entries)) }
    ensures err { OnErr result
        ((get key_cmp items.old key ≡ None) × (items.new.entries ≡ items.old.entries)) }
    ensures ordered { IsOrdered key_cmp items.new }
{
    let Ok(entry) = items.entry(key) else {
        return Err(AllocError);
    };
    match entry {
        Entry::Occupied(_) => Ok(false),
        Entry::Vacant(place) => {
            place.insert(item);
            Ok(true)
        }
    }
}

// Puts what `change` makes of the item under the key in its place, where that has the same key.
pub(crate) fn change<E: From<TableError>, F: FnOnce(&Item) -> Result<Item, E>>(
    items: &mut BTreeMap<Key, Item>,
    schema: &KeySchema,
    key: &Key,
    change: F,
) -> Result<(), E>
    requires { F.IsAlwaysCallable change }
    ensures changes { ChangesItem E.from_gives (FnOnceReturnsAt F.FnOnce change) schema.now key.now
        items.old items.new result }
    ensures keys { keys items.new ≡ keys items.old }
    ensures ordered { OnOk result (IsOrdered key_cmp items.new) }
{
    let Some(place) = items.get_mut(key) else {
        return Err(E::from(TableError::NoItem));
    };
    let item = change(place)?;
    let own_key = schema.key_of(&item)?;
    if own_key.cmp(key).is_ne() {
        return Err(E::from(TableError::KeyChanged));
    }
    *place = item;
    Ok(())
}
