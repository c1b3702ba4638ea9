ghost use Rattle.std.specs.Prelude.{◌≡◌, IfOk};
ghost use Rattle.std.specs.declared.cmp.Ordering.TheVariants.{Less};
ghost use Rattle.dynamo_value.specs.View.{text_cmp};
ghost use Rattle.table_keys.specs.declared.key.Key.{Key};
ghost use Rattle.table_keys.specs.KeyBytes.{IsKeyBytes, IsSortBytes, IsValueBytes};

use crate::{Key, KeyValue};
use std::alloc::{AllocError, Global};

/// A key as two byte strings, by which a row of a database is found.
///
/// Rows in the order of the first and then of the second are in the order of their keys
/// ([`laws::bytes_in_order`](crate::laws::bytes_in_order)).
///
/// # Examples
///
/// ```rust
/// use table_keys::{KeyBytes, KeySchema};
///
/// let schema = KeySchema::parse(alloc, &["customer:S", "placed_at:N"])?;
/// let nine = KeyBytes::of(alloc, &schema.key_from(alloc, "Arthur", Some("9"))?)?;
/// let ten = KeyBytes::of(alloc, &schema.key_from(alloc, "Arthur", Some("10"))?)?;
/// assert!(rt; nine.partition == ten.partition);
/// assert!(rt; nine.sort < ten.sort);
/// ```
#[derive(Drop)]
pub struct KeyBytes {
    /// The bytes of the partition key.
    pub partition: Vec<u8>,

    /// The bytes of the sort key, none if there is no sort key.
    pub sort: Vec<u8>,
}

impl KeyBytes {
    /// Returns the bytes of a key.
    ///
    /// # Errors
    ///
    /// Returns [`AllocError`] if memory runs out.
    pub fn of(alloc: Global, key: &Key) -> Result<KeyBytes, AllocError>
        ensures { IfOk result (IsKeyBytes key.now) }
    {
        Ok(KeyBytes {
            partition: bytes_of(alloc, &key.partition)?,
            sort: sort_bytes(alloc, &key.sort)?,
        })
    }

    /// Returns bytes that are less than those of each key.
    pub fn before_all(alloc: Global) -> KeyBytes
        ensures { (key : Key) (bytes : KeyBytes) → IsKeyBytes key bytes
            → text_cmp result.partition.items bytes.partition.items ≡ Less }
    {
        KeyBytes {
            partition: Vec::new(alloc),
            sort: Vec::new(alloc),
        }
    }
}

/// Returns the bytes of a sort key, none if there is no sort key.
///
/// # Errors
///
/// Returns [`AllocError`] if memory runs out.
pub fn sort_bytes(alloc: Global, sort: &Option<KeyValue>) -> Result<Vec<u8>, AllocError>
    ensures { IfOk result (λ bytes. IsSortBytes sort.now bytes.items) }
{
    match sort {
        Some(value) => bytes_of(alloc, value),
        None => Ok(Vec::new(alloc)),
    }
}

/// Returns the bytes of a value: one byte of its kind, and then those of the string, the number or
/// the byte string.
///
/// # Errors
///
/// Returns [`AllocError`] if memory runs out.
pub fn bytes_of(alloc: Global, value: &KeyValue) -> Result<Vec<u8>, AllocError>
    ensures { IfOk result (λ bytes. IsValueBytes value.now bytes.items) }
{
    let mut bytes = Vec::new(alloc);
    bytes.push(value.rank())?;
    match value {
        KeyValue::S(text) => bytes.extend_from_slice(text.as_bytes())?,
        KeyValue::N(number) => bytes.extend_from_slice(&number.to_bytes())?,
        KeyValue::B(content) => bytes.extend_from_slice(content.as_slice())?,
    }
    Ok(bytes)
}
