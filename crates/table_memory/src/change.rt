ghost use Rattle.std.specs.Prelude.{◌≡◌, None, [], IsTrue, ◌↔◌, length, option_map, OnOk};
ghost use Rattle.std.specs.BTreeMap.{get, IsOrdered, Updates};
ghost use Rattle.std.specs.Fn.{FnOnceReturnsAt};
ghost use Rattle.table_memory.specs.Change.{DeletesIf, PutsIf, PutsItem, PutsItemIf, PutsUnder};
ghost use Rattle.table_memory.specs.Change.{UpdatesItem};
ghost use Rattle.table_memory.specs.Content.{items_of, entries_of, schema_of};
ghost use Rattle.table_keys.specs.Held.{IsHeldKey};
ghost use Rattle.table_keys.specs.KeyOf.{ReadsKey};
ghost use Rattle.table_keys.specs.KeyOrder.{key_cmp};
ghost use Rattle.table_keys.specs.declared.condition.Condition.TheVariants.{Always};

use crate::{Table, places};
use dynamo_value::Item;
use std::alloc::Global;
use std::collections::BTreeMap;
use table_keys::{Condition, Key, KeySchema, TableError};

impl Table {
    /// Returns an empty table, which takes no memory.
    pub fn new(alloc: Global, schema: KeySchema) -> Self
        ensures schema { schema_of result ≡ schema }
        ensures empty { entries_of result ≡ [] }
    {
        Table {
            schema,
            items: BTreeMap::new(alloc),
        }
    }

    /// Returns the attributes of the table's key.
    pub fn schema(&self) -> &KeySchema
        ensures { result.now ≡ schema_of self.now }
    {
        &self.schema
    }

    /// Returns the key of an item of this table.
    ///
    /// # Errors
    ///
    /// Returns the error of [`KeySchema::key_of`].
    pub fn key_of(&self, item: &Item) -> Result<Key, TableError>
        ensures { ReadsKey (schema_of self.now) item.now result }
    {
        self.schema.key_of(item)
    }

    /// Returns the number of items. They are in the order of their keys, each key once.
    pub fn len(&self) -> usize
        ensures len { result ≡ length (entries_of self.now) }
        ensures ordered { IsOrdered key_cmp (items_of self.now) }
    {
        self.items.len()
    }

    /// Returns whether the table is empty.
    pub fn is_empty(&self) -> bool
        ensures { IsTrue result ↔ (length (entries_of self.now) ≡ 0) }
    {
        self.items.is_empty()
    }

    /// Returns the item under a key, or `None`.
    pub fn get(&self, key: &Key) -> Option<&Item>
        ensures { option_map (λ item. item.now) result ≡ get key_cmp (items_of self.now) key.now }
    {
        self.items.get(key)
    }

    /// Puts an item under its key, and returns the item that was there.
    ///
    /// # Errors
    ///
    /// Returns the error of [`KeySchema::key_of`].
    ///
    /// Returns [`TableError::OutOfMemory`] if memory runs out.
    pub fn put(&mut self, item: Item) -> Result<Option<Item>, TableError>
        ensures puts { PutsIf Always item self.old self.new result }
        ensures ordered { OnOk result (IsOrdered key_cmp (items_of self.new)) }
        ensures schema { schema_of self.new ≡ schema_of self.old }
    {
        self.put_if(Condition::Always, item)
    }

    /// Puts an item under its key if the condition holds there, and returns the item that was
    /// there.
    ///
    /// # Errors
    ///
    /// Returns the error of [`KeySchema::key_of`].
    ///
    /// Returns [`TableError::ConditionFailed`] if the condition doesn't hold.
    ///
    /// Returns [`TableError::OutOfMemory`] if memory runs out.
    ///
    /// # Examples
    ///
    /// ```rust
    /// use serde_dynamo::{DynamoJson, Item};
    /// use table_memory::{Condition, KeySchema, Table};
    ///
    /// let mut users = Table::new(alloc, KeySchema::parse(alloc, &["name:S"])?);
    /// let text = r#"{"name": {"S": "Arthur"}}"#;
    /// let user = Item::from_json_text(alloc, text)?;
    /// assert!(rt; users.put_if(Condition::NotExists, user)?.is_none());
    ///
    /// let again = Item::from_json_text(alloc, text)?;
    /// assert!(rt; users.put_if(Condition::NotExists, again).is_err());
    /// ```
    pub fn put_if(&mut self, condition: Condition, item: Item) -> Result<Option<Item>, TableError>
        ensures puts { PutsIf condition item self.old self.new result }
        ensures ordered { OnOk result (IsOrdered key_cmp (items_of self.new)) }
        ensures schema { schema_of self.new ≡ schema_of self.old }
    {
        let key = self.schema.key_of(&item)?;
        self.put_under(condition, key, item)
    }

    // Puts an item under a key, its own, where the condition holds there, and returns the item that
    // was there.
    #[tactic(auto, using(crate::proofs::HeldKeys::kept, crate::proofs::HeldKeys::inserted))]
    fn put_under(
        &mut self,
        condition: Condition,
        key: Key,
        item: Item,
    ) -> Result<Option<Item>, TableError>
        requires held { IsHeldKey key }
        ensures puts { PutsUnder condition key item self.old self.new result }
        ensures ordered { OnOk result (IsOrdered key_cmp (items_of self.new)) }
        ensures schema { schema_of self.new ≡ schema_of self.old }
    {
        match condition {
            Condition::Always => Ok(self.items.insert(key, item)?),
            Condition::Exists => match places::replace(&mut self.items, &key, item) {
                Some(before) => Ok(Some(before)),
                None => Err(TableError::ConditionFailed),
            },
            Condition::NotExists => {
                if places::add(&mut self.items, key, item)? {
                    Ok(None)
                } else {
                    Err(TableError::ConditionFailed)
                }
            }
        }
    }

    /// Puts an item under its key, and returns the key. An item that was there is dropped.
    ///
    /// # Errors
    ///
    /// Returns the error of [`KeySchema::key_of`].
    ///
    /// Returns [`TableError::OutOfMemory`] if memory runs out.
    pub fn put_returning_key(&mut self, item: Item) -> Result<Key, TableError>
        ensures puts { PutsItem item self.old self.new result }
        ensures ordered { OnOk result (IsOrdered key_cmp (items_of self.new)) }
        ensures schema { schema_of self.new ≡ schema_of self.old }
    {
        self.put_if_returning_key(Condition::Always, item)
    }

    /// Puts an item under its key if the condition holds there, and returns the key. An item that
    /// was there is dropped.
    ///
    /// # Errors
    ///
    /// Returns the error of [`KeySchema::key_of`].
    ///
    /// Returns [`TableError::ConditionFailed`] if the condition doesn't hold.
    ///
    /// Returns [`TableError::OutOfMemory`] if memory runs out.
    pub fn put_if_returning_key(
        &mut self,
        condition: Condition,
        item: Item,
    ) -> Result<Key, TableError>
        ensures puts { PutsItemIf condition item self.old self.new result }
        ensures ordered { OnOk result (IsOrdered key_cmp (items_of self.new)) }
        ensures schema { schema_of self.new ≡ schema_of self.old }
    {
        let key = self.schema.key_of(&item)?;
        let copy = key.clone()?;
        self.put_under(condition, key, item)?;
        Ok(copy)
    }

    /// Deletes the item under a key, and returns it, or `None` if there was none.
    #[tactic(auto, using(crate::proofs::HeldKeys::removed))]
    pub fn delete(&mut self, key: &Key) -> Option<Item>
        ensures before { result ≡ get key_cmp (items_of self.old) key.now }
        ensures updates { Updates key_cmp (items_of self.old) (items_of self.new) key.now None }
        ensures ordered { IsOrdered key_cmp (items_of self.new) }
        ensures schema { schema_of self.new ≡ schema_of self.old }
    {
        self.items.remove(key)
    }

    /// Deletes the item under a key if the condition holds there, and returns it, or `None` if
    /// there was none.
    ///
    /// # Errors
    ///
    /// Returns [`TableError::ConditionFailed`] if the condition doesn't hold.
    #[tactic(auto, using(crate::proofs::HeldKeys::removed))]
    pub fn delete_if(&mut self, condition: Condition, key: &Key) -> Result<Option<Item>, TableError>
        ensures deletes { DeletesIf condition key.now self.old self.new result }
        ensures ordered { OnOk result (IsOrdered key_cmp (items_of self.new)) }
        ensures schema { schema_of self.new ≡ schema_of self.old }
    {
        match condition {
            Condition::Always => Ok(self.items.remove(key)),
            Condition::Exists => match self.items.remove(key) {
                Some(item) => Ok(Some(item)),
                None => Err(TableError::ConditionFailed),
            },
            // Of a search alone, only `get_mut` says that the items are in order.
            Condition::NotExists => match self.items.get_mut(key) {
                Some(_) => Err(TableError::ConditionFailed),
                None => Ok(None),
            },
        }
    }

    /// Replaces the item under a key by the item that `change` makes of it.
    ///
    /// The errors are of any type that an error of the table converts to, such as one of the
    /// caller's own.
    ///
    /// # Errors
    ///
    /// Returns [`TableError::NoItem`] if the key has no item.
    ///
    /// Returns the error of `change`, or that of [`KeySchema::key_of`] for the changed item.
    ///
    /// Returns [`TableError::KeyChanged`] if the changed item has another key.
    ///
    /// # Examples
    ///
    /// ```rust
    /// use serde_dynamo::{DynamoJson, Item};
    /// use table_memory::{KeySchema, Table};
    ///
    /// let mut users = Table::new(alloc, KeySchema::parse(alloc, &["name:S"])?);
    /// let text = r#"{"name": {"S": "Arthur"}}"#;
    /// let key = users.put_returning_key(Item::from_json_text(alloc, text)?)?;
    ///
    /// let text = r#"{"name": {"S": "Arthur"}, "age": {"N": "42"}}"#;
    /// users.update::<anyhow::Error, _>(&key, |_user| Ok(Item::from_json_text(alloc, text)?))?;
    /// assert!(rt; matches!(users.get(&key), Some(user) if user.get("age").is_some()));
    /// ```
    #[tactic(auto, using(crate::proofs::HeldKeys::kept))]
    pub fn update<E: From<TableError>, F: FnOnce(&Item) -> Result<Item, E>>(
        &mut self,
        key: &Key,
        change: F,
    ) -> Result<(), E>
        requires { F.IsAlwaysCallable change }
        ensures updates { UpdatesItem E.from_gives (FnOnceReturnsAt F.FnOnce change) key.now
            self.old self.new result }
        ensures ordered { OnOk result (IsOrdered key_cmp (items_of self.new)) }
        ensures schema { schema_of self.new ≡ schema_of self.old }
    {
        places::change(&mut self.items, &self.schema, key, change)
    }
}
