ghost use Rattle.std.specs.Prelude.{◌≡◌, ◌⊎◌, IfOk, IfErr, map, option_map, string_bytes};
ghost use Rattle.table_keys.specs.Held.{IsHeld, IsHeldKey};
ghost use Rattle.table_keys.specs.KeyOf.{AreNamed, AreNoWords, IsNamed, IsNoWord, Reads, ReadsAs};
ghost use Rattle.table_keys.specs.KeyOf.{ReadsKey, Says, SaysKey, word_of, words_of};
ghost use Rattle.table_keys.specs.declared.error.TableError.TheVariants.{NotAnAttribute};
ghost use Rattle.table_keys.specs.declared.error.TableError.TheVariants.{OutOfMemory};

use crate::{Key, KeyKind, KeyValue, Number, TableError};
use dynamo_value::{AttributeValue, ErrorImpl, Item, base64_text};
use std::alloc::{AllocError, Global};

/// An attribute of a table's key.
#[derive(Debug, Drop, PartialEq, Eq)]
pub struct KeyAttribute {
    /// The name of the attribute.
    pub name: String,

    /// The kind of its values.
    pub kind: KeyKind,
}

/// The attributes of a table's key: a partition key, and a sort key if the table has one.
///
/// # Examples
///
/// ```rust
/// use serde_dynamo::{DynamoJson, Item};
/// use table_keys::{KeySchema, KeyValue, Number};
///
/// let schema = KeySchema::parse(alloc, &["customer:S", "placed_at:N"])?;
/// let text = r#"{"customer": {"S": "Arthur"}, "placed_at": {"N": "2024"}}"#;
/// let key = schema.key_of(&Item::from_json_text(alloc, text)?)?;
/// assert!(rt; key.partition == KeyValue::S(String::from_str(alloc, "Arthur")?));
/// assert!(rt; key.sort == Number::parse("2024").map(|number| KeyValue::N(number)));
/// ```
#[derive(Debug, Drop, PartialEq, Eq)]
pub struct KeySchema {
    /// The partition key.
    pub partition: KeyAttribute,

    /// The sort key, or `None` if the table has none.
    pub sort: Option<KeyAttribute>,
}

impl KeyAttribute {
    /// Returns the attribute that an argument `NAME:KIND` names, as `at:N`. The kind is after the
    /// last colon.
    ///
    /// # Errors
    ///
    /// Returns [`TableError::NotAnAttribute`] if the argument has another form, or no name.
    ///
    /// Returns [`TableError::OutOfMemory`] if memory runs out.
    pub fn parse(alloc: Global, word: &str) -> Result<KeyAttribute, TableError>
        ensures ok { IfOk result (λ attribute. (word.now ≡ word_of attribute) × IsNamed attribute) }
        ensures err { IfErr result
            (λ e. (e ≡ OutOfMemory) ⊎ ((e ≡ NotAnAttribute) × IsNoWord word.now)) }
    {
        let Some((name, kind)) = word.rsplit_once(':') else {
            return Err(TableError::NotAnAttribute);
        };
        if name.is_empty() {
            return Err(TableError::NotAnAttribute);
        }
        let Some(kind) = KeyKind::parse(kind) else {
            return Err(TableError::NotAnAttribute);
        };
        let name = String::from_str(alloc, name)?;
        Ok(KeyAttribute { name, kind })
    }

    /// Returns this attribute as the argument `NAME:KIND` that [`KeyAttribute::parse`] reads.
    ///
    /// # Errors
    ///
    /// Returns [`AllocError`] if memory runs out.
    pub fn to_word(&self, alloc: Global) -> Result<String, AllocError>
        ensures { IfOk result (λ word. string_bytes word ≡ word_of self.now) }
    {
        let mut word = String::from_str(alloc, self.name.as_str())?;
        word.push(':')?;
        word.push_str(self.kind.name())?;
        Ok(word)
    }

    /// Returns the value of this attribute in an item.
    ///
    /// # Errors
    ///
    /// Returns [`TableError::Missing`] if the item has no such attribute.
    ///
    /// Returns [`TableError::WrongKind`] if its value is of another kind.
    ///
    /// Returns [`TableError::Empty`] if it is a string or a byte string without bytes.
    ///
    /// Returns [`TableError::NotANumber`] if its string isn't a number that DynamoDB keeps.
    ///
    /// Returns [`TableError::OutOfMemory`] if memory runs out.
    pub fn value_in(&self, item: &Item) -> Result<KeyValue, TableError>
        ensures reads { Reads self.now item.now result }
        ensures held { IfOk result IsHeld }
    {
        let Some(value) = item.get(self.name.as_str()) else {
            return Err(TableError::Missing);
        };
        match (self.kind, value) {
            (KeyKind::S, AttributeValue::S(text)) => text_value(*text.allocator(), text.as_str()),
            (KeyKind::N, AttributeValue::N(text)) => number_value(text.as_str()),
            (KeyKind::B, AttributeValue::B(bytes)) => {
                bytes_value(*bytes.allocator(), bytes.as_slice())
            }
            _ => Err(TableError::WrongKind),
        }
    }

    /// Returns the value of this attribute that an argument says: a string as it is, a number in
    /// digits, a byte string in base64 (RFC 4648, section 4).
    ///
    /// # Errors
    ///
    /// Returns [`TableError::Empty`] if the attribute is a string or a byte string and the argument
    /// has no bytes.
    ///
    /// Returns [`TableError::NotANumber`] if the attribute is a number and the argument isn't one
    /// that DynamoDB keeps.
    ///
    /// Returns [`TableError::NotBase64`] if the attribute is a byte string and the argument isn't
    /// base64.
    ///
    /// Returns [`TableError::OutOfMemory`] if memory runs out.
    pub fn value_of(&self, alloc: Global, word: &str) -> Result<KeyValue, TableError>
        ensures { Says self.now.kind word.now result }
    {
        match self.kind {
            KeyKind::S => text_value(alloc, word),
            KeyKind::N => number_value(word),
            KeyKind::B => match base64_text::decode(alloc, word) {
                Ok(bytes) => bytes_value(alloc, bytes.as_slice()),
                Err(error) => Err(match error.kind() {
                    ErrorImpl::Message(_) => TableError::NotBase64,
                    _ => TableError::OutOfMemory,
                }),
            },
        }
    }
}

fn text_value(alloc: Global, text: &str) -> Result<KeyValue, TableError>
    ensures reads { ReadsAs KeyKind.S text.now result }
    ensures held { IfOk result IsHeld }
{
    if text.is_empty() {
        return Err(TableError::Empty);
    }
    Ok(KeyValue::S(String::from_str(alloc, text)?))
}

fn number_value(text: &str) -> Result<KeyValue, TableError>
    ensures reads { ReadsAs KeyKind.N text.now result }
    ensures held { IfOk result IsHeld }
{
    match Number::parse(text) {
        Some(number) => Ok(KeyValue::N(number)),
        None => Err(TableError::NotANumber),
    }
}

fn bytes_value(alloc: Global, bytes: &[u8]) -> Result<KeyValue, TableError>
    ensures reads { ReadsAs KeyKind.B bytes.now result }
    ensures held { IfOk result IsHeld }
{
    if bytes.is_empty() {
        return Err(TableError::Empty);
    }
    Ok(KeyValue::B(Vec::from_slice(alloc, bytes)?))
}

impl KeySchema {
    /// Returns the keys that one argument or two name, the partition key first, each as
    /// [`KeyAttribute::parse`] reads it.
    ///
    /// # Errors
    ///
    /// Returns [`TableError::NotAnAttribute`] if there is no argument, or more than two.
    ///
    /// Otherwise returns the error of [`KeyAttribute::parse`], for the sort key before the
    /// partition key.
    pub fn parse(alloc: Global, words: &[&str]) -> Result<KeySchema, TableError>
        ensures ok { IfOk result
            (λ schema. (map (λ w. w.now) words.now ≡ words_of schema) × AreNamed schema) }
        ensures err { IfErr result
            (λ e. (e ≡ OutOfMemory)
            ⊎ ((e ≡ NotAnAttribute) × AreNoWords (map (λ w. w.now) words.now))) }
    {
        let (partition, sort) = match words {
            [partition] => (partition, None),
            [partition, sort] => (partition, Some(KeyAttribute::parse(alloc, sort)?)),
            _ => return Err(TableError::NotAnAttribute),
        };
        let partition = KeyAttribute::parse(alloc, partition)?;
        Ok(KeySchema { partition, sort })
    }

    /// Returns the key that arguments say, each as [`KeyAttribute::value_of`] reads it. `sort` is
    /// `None` if the table has no sort key.
    ///
    /// # Errors
    ///
    /// Returns [`TableError::Missing`] if the table has a sort key and `sort` is `None`.
    ///
    /// Returns [`TableError::NoSortKey`] if the table has no sort key and `sort` is an argument.
    ///
    /// Otherwise returns the error of [`KeyAttribute::value_of`].
    ///
    /// # Examples
    ///
    /// ```rust
    /// use table_keys::KeySchema;
    ///
    /// let schema = KeySchema::parse(alloc, &["customer:S", "placed_at:N"])?;
    /// let key = schema.key_from(alloc, "Arthur", Some("2024"))?;
    /// assert!(rt; key.sort.is_some());
    /// assert!(rt; schema.key_from(alloc, "Arthur", None).is_err());
    /// ```
    pub fn key_from(
        &self,
        alloc: Global,
        partition: &str,
        sort: Option<&str>,
    ) -> Result<Key, TableError>
        ensures { SaysKey self.now partition.now (option_map (λ w. w.now) sort.entry) result }
    {
        let partition = self.partition.value_of(alloc, partition)?;
        let sort = match (&self.sort, sort) {
            (Some(attribute), Some(word)) => Some(attribute.value_of(alloc, word)?),
            (Some(_), None) => return Err(TableError::Missing),
            (None, Some(_)) => return Err(TableError::NoSortKey),
            (None, None) => None,
        };
        Ok(Key { partition, sort })
    }

    /// Returns the key of an item.
    ///
    /// # Errors
    ///
    /// Returns the error of [`KeyAttribute::value_in`], for the partition key before the sort key.
    pub fn key_of(&self, item: &Item) -> Result<Key, TableError>
        ensures reads { ReadsKey self.now item.now result }
        ensures held { IfOk result IsHeldKey }
    {
        let partition = self.partition.value_in(item)?;
        let sort = match &self.sort {
            Some(attribute) => Some(attribute.value_in(item)?),
            None => None,
        };
        Ok(Key { partition, sort })
    }
}
