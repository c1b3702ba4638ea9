ghost use Rattle.std.specs.Prelude.{◌≡◌, ◌≢◌, refl, MatchOption};
ghost use Rattle.std.specs.Cmp.{partial_equiv_from_equiv, eq_by_cmp_equiv, po};
ghost use Rattle.std.specs.Ordering.{eq_by_cmp, as_partial_cmp};
ghost use Rattle.std.specs.declared.cmp.Ordering.TheVariants.{Equal};
ghost use Rattle.table_keys.specs.KeyOrder.{key_cmp, kind_name, kind_rank, value_cmp};
ghost use Rattle.table_keys.specs.KeyLaws.{value_total};

use crate::Number;
use std::alloc::AllocError;
use std::cmp::Ordering;

/// The kind of an attribute of a key.
#[derive(Clone, Copy, Debug, PartialEq, Eq)]
pub enum KeyKind {
    /// A string.
    S,

    /// A number.
    N,

    /// A byte string.
    B,
}

/// The value of a partition key or a sort key.
///
/// Strings and byte strings compare by their bytes, numbers by value. A string is less than each
/// number, and a number less than each byte string.
#[derive(Debug, Drop)]
pub enum KeyValue {
    /// A string.
    S(String),

    /// A number.
    N(Number),

    /// A byte string.
    B(Vec<u8>),
}

/// The key of an item: its partition key, and its sort key if the table has one.
///
/// Keys compare by the partition key and then by the sort key.
///
/// # Examples
///
/// ```rust
/// use table_keys::KeySchema;
///
/// let schema = KeySchema::parse(alloc, &["customer:S", "placed_at:N"])?;
/// let first = schema.key_from(alloc, "Arthur", Some("9"))?;
/// let second = schema.key_from(alloc, "Arthur", Some("10"))?;
/// assert!(rt; first < second);
/// ```
#[derive(Debug, Drop, PartialEq, Eq, PartialOrd, Ord)]
pub struct Key {
    /// The value of the partition key.
    pub partition: KeyValue,

    /// The value of the sort key, or `None` if the table has none.
    pub sort: Option<KeyValue>,
}

impl KeyKind {
    /// Returns the letter of this kind, as DynamoDB writes it: `S`, `N` or `B`.
    pub fn name(self) -> &'static str
        ensures { result.now ≡ kind_name self }
    {
        match self {
            KeyKind::S => "S",
            KeyKind::N => "N",
            KeyKind::B => "B",
        }
    }

    /// Returns the kind with this letter, or `None` if no kind has it.
    pub fn parse(name: &str) -> Option<KeyKind>
        ensures { MatchOption result ((kind : KeyKind) → name.now ≢ kind_name kind)
            (λ kind. name.now ≡ kind_name kind) }
    {
        match name {
            "S" => Some(KeyKind::S),
            "N" => Some(KeyKind::N),
            "B" => Some(KeyKind::B),
            _ => None,
        }
    }
}

impl KeyValue {
    /// Returns the place of this kind in the order of values: 0 for strings, 1 for numbers, 2 for
    /// byte strings.
    pub fn rank(&self) -> u8
        ensures { result ≡ kind_rank self.now }
    {
        match self {
            KeyValue::S(_) => 0,
            KeyValue::N(_) => 1,
            KeyValue::B(_) => 2,
        }
    }
}

/// The clone is equal. The clone of a number takes no memory.
impl Clone for KeyValue {
    ghost is_clone = { λ value copy. value_cmp copy value ≡ Equal };

    fn clone(&self) -> Result<KeyValue, AllocError> {
        Ok(match self {
            KeyValue::S(text) => KeyValue::S(text.clone()?),
            KeyValue::N(number) => KeyValue::N(number.clone()?),
            KeyValue::B(bytes) => {
                KeyValue::B(Vec::from_slice(*bytes.allocator(), bytes.as_slice())?)
            }
        })
    }
}

/// The clone is equal. The clone of a key of numbers takes no memory.
impl Clone for Key {
    ghost is_clone = { λ key copy. key_cmp copy key ≡ Equal };

    fn clone(&self) -> Result<Key, AllocError> {
        Ok(Key {
            partition: self.partition.clone()?,
            sort: self.sort.as_ref().cloned()?,
        })
    }
}

impl PartialEq for KeyValue {
    ghost eq = { eq_by_cmp value_cmp };

    ghost laws = { partial_equiv_from_equiv (eq_by_cmp_equiv value_total) };

    fn eq(&self, other: &KeyValue) -> bool {
        self.cmp(other) == Ordering::Equal
    }
}

impl Eq for KeyValue {
    ghost laws = { eq_by_cmp_equiv value_total };
}

impl PartialOrd for KeyValue {
    ghost partial_cmp = { as_partial_cmp value_cmp };

    ghost laws = { po value_total (λ _ _. refl) };

    fn partial_cmp(&self, other: &KeyValue) -> Option<Ordering> {
        Some(self.cmp(other))
    }
}

impl Ord for KeyValue {
    ghost cmp = { value_cmp };

    ghost total = { value_total };

    ghost matches_partial_cmp = { λ _ _. refl };

    ghost matches_eq = { λ _ _. refl };

    fn cmp(&self, other: &KeyValue) -> Ordering {
        match (self, other) {
            (KeyValue::S(text), KeyValue::S(other)) => text.cmp(other),
            (KeyValue::N(number), KeyValue::N(other)) => number.cmp(other),
            (KeyValue::B(bytes), KeyValue::B(other)) => bytes.cmp(other),
            _ => self.rank().cmp(&other.rank()),
        }
    }
}
