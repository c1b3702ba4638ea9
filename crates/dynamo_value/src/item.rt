ghost use Rattle.std.specs.Prelude.{◌≡◌, [], option_map};
ghost use Rattle.std.specs.Borrow.{Lends, sem};
ghost use Rattle.std.specs.Bool.{Decides};
ghost use Rattle.std.specs.Cmp.{partial_equiv_from_equiv, on_equiv};
ghost use Rattle.std.specs.HashMap.{get_by_text};
ghost use Rattle.dynamo_value.specs.Equal.{members_eq, members_eq_equiv, items_eq, items_eq_equiv};
ghost use Rattle.dynamo_value.specs.Item.{map_of, maps_of, item_of, item_view, items_view};

use crate::AttributeValue;
use crate::attribute_value::{copy_map, same_maps};
use std::alloc::{AllocError, Global};
use std::collections::HashMap;

/// An item: attribute values by the names of their attributes.
///
/// Two items are equal if they have the same attributes with equal values. `clone` returns an equal
/// item.
///
/// # Examples
///
/// ```rust
/// use serde_dynamo::{AttributeValue, Item};
/// use std::collections::HashMap;
///
/// let mut attributes = HashMap::new(alloc);
/// drop(attributes.insert(String::from_str(alloc, "active")?, AttributeValue::Bool(true))?);
/// let item = Item::from(attributes);
/// assert!(rt; matches!(item.get("active"), Some(AttributeValue::Bool(true))));
/// assert!(rt; item.get("age").is_none());
/// ```
#[derive(Debug, Drop)]
pub struct Item {
    map: HashMap<String, AttributeValue>,
}

impl Item {
    ghost use Rattle.dynamo_value.specs.Table.{table_row};
    ghost use Rattle.dynamo_value.specs.contracts.item.Item.{the_row};

    /// Returns an item without attributes. It allocates nothing.
    pub fn new(alloc: Global) -> Self
        ensures { (map_of result).entries ≡ [] }
    {
        Item {
            map: HashMap::new(alloc),
        }
    }

    /// Returns the map of attributes.
    pub fn inner(&self) -> &HashMap<String, AttributeValue>
        ensures { result.now ≡ map_of self.now }
    {
        &self.map
    }

    /// Returns the map of attributes for writing.
    ///
    /// # Examples
    ///
    /// ```rust
    /// use serde_dynamo::{AttributeValue, Item};
    ///
    /// let mut item = Item::new(alloc);
    /// let name = String::from_str(alloc, "active")?;
    /// drop(item.inner_mut().insert(name, AttributeValue::Bool(true))?);
    /// assert_eq!(rt; item.inner().len(), 1);
    /// ```
    pub fn inner_mut(&mut self) -> &mut HashMap<String, AttributeValue>
        ensures* writes_back { sem 𝓛 (Lends the_row table_row self.entry result item_of) }
        ensures value { result.now ≡ map_of self.old }
    {
        &mut self.map
    }

    /// Returns the map of attributes and consumes the item.
    pub fn into_inner(self) -> HashMap<String, AttributeValue>
        ensures { result ≡ map_of self }
    {
        HashMap::from(self)
    }

    /// Returns the value of the attribute with this name, or `None`.
    pub fn get(&self, key: &str) -> Option<&AttributeValue>
        ensures { option_map (λ a. a.now) result ≡ get_by_text (map_of self.now) key.now }
    {
        self.map.get(key)
    }
}

/// Compares by value: the same attributes with equal values.
impl PartialEq for Item {
    ghost eq = { λ a b. members_eq (item_view a) (item_view b) };

    ghost laws = { partial_equiv_from_equiv (on_equiv item_view members_eq_equiv) };

    fn eq(&self, other: &Item) -> bool
        ensures { Decides result (item_view self.now ≡ item_view other.now) }
    {
        same_maps(&self.map, &other.map)
    }
}

impl Eq for Item {
    ghost laws = { on_equiv item_view members_eq_equiv };
}

/// The clone is equal. Returns [`AllocError`] if memory runs out.
impl Clone for Item {
    ghost is_clone = { λ item copy. item_view copy ≡ item_view item };

    fn clone(&self) -> Result<Item, AllocError> {
        Ok(Item {
            map: copy_map(&self.map)?,
        })
    }
}

/// The item of this map.
impl From<HashMap<String, AttributeValue>> for Item {
    ghost from_gives = { λ m item. map_of item ≡ m };

    fn from(map: HashMap<String, AttributeValue>) -> Item {
        Item { map }
    }
}

/// The map of the item.
impl From<Item> for HashMap<String, AttributeValue> {
    ghost from_gives = { λ item m. m ≡ map_of item };

    fn from(item: Item) -> HashMap<String, AttributeValue> {
        item.map
    }
}

/// A list of items, each kept as its map.
///
/// # Examples
///
/// ```rust
/// use serde_dynamo::{AttributeValue, Items, from_items};
/// use std::collections::HashMap;
///
/// let mut attributes = HashMap::new(alloc);
/// drop(attributes.insert(String::from_str(alloc, "active")?, AttributeValue::Bool(true))?);
/// let items = Items::from(vec![in alloc; attributes]?);
/// let rows: Vec<HashMap<String, bool>> = from_items(alloc, items)?;
/// assert_eq!(rt; rows.len(), 1);
/// ```
#[derive(Debug, Drop)]
pub struct Items {
    maps: Vec<HashMap<String, AttributeValue>>,
}

/// Compares by value: as many items, each equal to the other one at its index.
impl PartialEq for Items {
    ghost eq = { λ a b. items_eq (items_view a) (items_view b) };

    ghost laws = { partial_equiv_from_equiv (on_equiv items_view items_eq_equiv) };

    fn eq(&self, other: &Items) -> bool
        ensures { Decides result (items_view self.now ≡ items_view other.now) }
    {
        if self.maps.len() != other.maps.len() {
            return false;
        }
        for (map, others) in self.maps.iter().zip(other.maps.iter()) {
            if !same_maps(map, others) {
                return false;
            }
        }
        true
    }
}

impl Eq for Items {
    ghost laws = { on_equiv items_view items_eq_equiv };
}

/// The clone is equal. Returns [`AllocError`] if memory runs out.
impl Clone for Items {
    ghost is_clone = { λ items copy. items_view copy ≡ items_view items };

    fn clone(&self) -> Result<Items, AllocError> {
        let mut maps = Vec::with_capacity(*self.maps.allocator(), self.maps.len())?;
        for map in &self.maps {
            maps.push(copy_map(map)?)?;
        }
        Ok(Items { maps })
    }
}

/// The items of these maps, in order.
impl From<Vec<HashMap<String, AttributeValue>>> for Items {
    ghost from_gives = { λ maps items. maps_of items ≡ maps.items };

    fn from(maps: Vec<HashMap<String, AttributeValue>>) -> Items {
        Items { maps }
    }
}

/// The maps of the items, in order.
impl From<Items> for Vec<HashMap<String, AttributeValue>> {
    ghost from_gives = { λ items maps. maps.items ≡ maps_of items };

    fn from(items: Items) -> Vec<HashMap<String, AttributeValue>> {
        items.maps
    }
}
