ghost use Rattle.std.specs.BTreeMap.{keys};
ghost use Rattle.std.specs.List.{All};
ghost use Rattle.table_keys.specs.Held.{IsHeldKey};

use dynamo_value::Item;
use std::collections::BTreeMap;
use table_keys::{Key, KeySchema};

/// A DynamoDB table in memory: items by their keys, in the order of the keys.
///
/// # Examples
///
/// ```rust
/// use serde_dynamo::{DynamoJson, Item};
/// use table_memory::{KeySchema, Query, Table};
///
/// let schema = KeySchema::parse(alloc, &["customer:S", "placed_at:N"])?;
/// let mut orders = Table::new(alloc, schema);
/// let text = r#"{"customer": {"S": "Arthur"}, "placed_at": {"N": "2024"}}"#;
/// orders.put(Item::from_json_text(alloc, text)?)?;
///
/// let key = orders.schema().key_from(alloc, "Arthur", Some("2024"))?;
/// assert!(rt; orders.get(&key).is_some());
/// assert_eq!(rt; orders.query(alloc, &Query::of(&key.partition))?.len(), 1);
/// ```
#[derive(Debug, Drop)]
pub struct Table {
    pub(crate) schema: KeySchema,
    pub(crate) items: BTreeMap<Key, Item>,

    // Its keys are read from items, so their values are ones that DynamoDB keeps.
    ghost held: { ∥ All IsHeldKey (keys items) ∥₁ },
}
