//! The readers of attribute values and items.
//!
//! | What is read | Its reader |
//! |---|---|
//! | an attribute value | [`Deserializer`] |
//! | a borrowed attribute value or map | [`LentDeserializer`] |
//! | a list, element by element | [`DeserializerSeq`] |
//! | an item or a map, entry by entry | [`DeserializerMap`] |
//! | a variant that is a map of one entry | [`DeserializerEnum`] |
//! | the content of a variant | [`DeserializerVariant`] |
//!
//! [`from_attribute_value`], [`from_item`] and [`from_items`] read a value from an attribute value,
//! an item or a list of items. [`from_item_ref`] borrows its item.
#![tactic(auto)]

ghost use Rattle.std.specs.Prelude.{◌≡◌, map, IfOk, IfErr};
ghost use Rattle.dynamo_value.specs.Av as av;
ghost use Rattle.dynamo_value.specs.Fault.{out_of_memory};
ghost use Rattle.dynamo_value.specs.Item.{item_view, items_view};
ghost use Rattle.dynamo_value.specs.Kind.{fault_of};
ghost use Rattle.dynamo_value.specs.View.{view};
ghost use Rattle.dynamo_value.specs.declared.attribute_value.AttributeValue as AttributeValue;
ghost use Rattle.dynamo_de.specs.Meets.{Meets};
ghost use Rattle.dynamo_de.specs.Reads.{ReadsList};
ghost use Rattle.dynamo_de.specs.Source.{attribute};

mod deserializer;
mod deserializer_enum;
mod deserializer_map;
mod deserializer_seq;
mod entries;
mod lent_deserializer;
mod lent_show;
mod lent_unread;
mod show;
mod unread;

pub use deserializer::Deserializer;
pub use deserializer_enum::{DeserializerEnum, DeserializerVariant};
pub use deserializer_map::DeserializerMap;
pub use deserializer_seq::DeserializerSeq;
use dynamo_de::Deserialize;
use dynamo_value::{AttributeValue, Item, Items, Result};
pub use lent_deserializer::LentDeserializer;
use std::alloc::Global;
use std::collections::HashMap;

/// Reads a value from an attribute value. The value is allocated in `alloc`.
///
/// # Errors
///
/// Returns the first error that the type has for the attribute value: one of the `Expected` kinds
/// of [`ErrorImpl`](dynamo_value::ErrorImpl) for another kind of value,
/// [`FailedToParseInt`](dynamo_value::ErrorImpl::FailedToParseInt) for a number that the integer
/// type doesn't hold, or [`Message`](dynamo_value::ErrorImpl::Message) for an error of the type
/// itself, as a missing field.
///
/// Returns [`ErrorImpl::OutOfMemory`](dynamo_value::ErrorImpl::OutOfMemory) if memory runs out.
///
/// # Examples
///
/// ```rust
/// use serde_dynamo::{AttributeValue, from_attribute_value};
///
/// let age = AttributeValue::N(String::from_str(alloc, "42")?);
/// assert_eq!(rt; from_attribute_value::<u8>(alloc, age)?, 42);
///
/// let null = AttributeValue::Null(true);
/// let name: Option<String> = from_attribute_value(alloc, null)?;
/// assert!(rt; name.is_none());
/// ```
pub fn from_attribute_value<T: Deserialize>(alloc: Global, value: AttributeValue) -> Result<T>
    ensures { Meets fault_of (T.reads (attribute (view value))) result }
{
    T::deserialize(alloc, Deserializer::from_attribute_value(alloc, value))
}

/// Reads a value from an item. The value is allocated in `alloc`.
///
/// It is the value that [`from_attribute_value`] reads from the map of the item's attributes.
///
/// # Errors
///
/// Returns the first error that the type has for the map, as [`from_attribute_value`] does.
///
/// Returns [`ErrorImpl::OutOfMemory`](dynamo_value::ErrorImpl::OutOfMemory) if memory runs out.
///
/// # Examples
///
/// ```rust
/// use serde_dynamo::samples::User;
/// use serde_dynamo::{Item, from_item, to_item};
///
/// let id = String::from_str(alloc, "fSsgVtal8TpP")?;
/// let name = String::from_str(alloc, "Arthur Dent")?;
/// let item = to_item(alloc, &User { id, name, age: 42 })?;
/// let user: User = from_item(alloc, item)?;
/// assert_eq!(rt; user.age, 42);
///
/// let Err(error) = from_item::<User>(alloc, Item::new(alloc)) else {
///     anyhow::bail!("an empty item is no user");
/// };
/// assert_eq!(rt; error.to_string(alloc)?.as_str(), "missing field `id`");
/// ```
#[tactic(auto, using(dynamo_value::proofs::Views::view_map))]
pub fn from_item<T: Deserialize>(alloc: Global, item: Item) -> Result<T>
    ensures { Meets fault_of (T.reads (attribute (av.M (item_view item)))) result }
{
    from_attribute_value(alloc, AttributeValue::M(item.into_inner()))
}

/// Reads a value from a borrowed item, which stays as it is. The value is allocated in `alloc`.
///
/// It is the value that [`from_item`] reads from an equal item. The item isn't cloned: only the
/// keys, strings and byte strings that the value keeps are, the string of a number that no 64-bit
/// integer holds, and a list of each map's entries while the map is read.
///
/// # Errors
///
/// Returns the first error that the type has for the item's map, as [`from_attribute_value`] does.
///
/// Returns [`ErrorImpl::OutOfMemory`](dynamo_value::ErrorImpl::OutOfMemory) if memory runs out.
///
/// # Examples
///
/// ```rust
/// use serde_dynamo::samples::User;
/// use serde_dynamo::{from_item_ref, to_item};
///
/// let id = String::from_str(alloc, "fSsgVtal8TpP")?;
/// let name = String::from_str(alloc, "Arthur Dent")?;
/// let item = to_item(alloc, &User { id, name, age: 42 })?;
///
/// let first: User = from_item_ref(alloc, &item)?;
/// let second: User = from_item_ref(alloc, &item)?;
/// assert_eq!(rt; first, second);
/// ```
pub fn from_item_ref<T: Deserialize>(alloc: Global, item: &Item) -> Result<T>
    ensures { Meets fault_of (T.reads (attribute (av.M (item_view item.now)))) result }
{
    T::deserialize(alloc, LentDeserializer::from_map(alloc, item.inner()))
}

/// Reads a list of values from a list of items, one from each, in order. The values are allocated
/// in `alloc`.
///
/// # Errors
///
/// Returns the first error of reading an item, as [`from_item`] does.
///
/// Returns [`ErrorImpl::OutOfMemory`](dynamo_value::ErrorImpl::OutOfMemory) if memory runs out.
///
/// # Examples
///
/// ```rust
/// use serde_dynamo::samples::User;
/// use serde_dynamo::{Items, from_items, to_item};
///
/// let id = String::from_str(alloc, "fSsgVtal8TpP")?;
/// let name = String::from_str(alloc, "Arthur Dent")?;
/// let item = to_item(alloc, &User { id, name, age: 42 })?;
///
/// let items = Items::from(vec![in alloc; item.into_inner()]?);
/// let users: Vec<User> = from_items(alloc, items)?;
/// assert!(rt; matches!(users.as_slice(), [user] if user.age == 42));
/// ```
#[tactic(auto, using(crate::proofs::Views::elements_of_maps))]
pub fn from_items<T: Deserialize>(alloc: Global, items: Items) -> Result<Vec<T>>
    ensures { Meets fault_of (ReadsList T.reads (map (λ m. attribute (av.M m)) (items_view items)))
        result }
{
    let values = as_values(alloc, Vec::from(items))?;
    from_attribute_value(alloc, AttributeValue::L(values))
}

// Each map as an attribute value.
fn as_values(
    alloc: Global,
    maps: Vec<HashMap<String, AttributeValue>>,
) -> Result<Vec<AttributeValue>>
    ensures ok { IfOk result (λ values. values.items ≡ map (λ m. AttributeValue.M m) maps.items) }
    ensures err { IfErr result (λ e. fault_of e ≡ out_of_memory) }
{
    let values = maps.into_iter().map(|map| AttributeValue::M(map));
    Ok(values.collect(alloc)?)
}
