ghost use Rattle.std.specs.Prelude.{◌≡◌};
ghost use Rattle.table_keys.specs.Conditions.{holds};

/// A condition of a put or a delete, on the key whose item it changes.
///
/// # Examples
///
/// ```rust
/// use table_keys::Condition;
///
/// // A put that keeps an item that is there.
/// assert!(rt; Condition::NotExists.holds(false));
/// assert!(rt; !Condition::NotExists.holds(true));
/// ```
#[derive(Clone, Copy, Debug, PartialEq, Eq)]
pub enum Condition {
    /// No condition: it always holds.
    Always,

    /// The key has an item: `attribute_exists` of the partition key.
    Exists,

    /// The key has no item: `attribute_not_exists` of the partition key.
    NotExists,
}

impl Condition {
    /// Returns whether the condition holds for a key that has an item, or has none.
    pub fn holds(self, exists: bool) -> bool
        ensures { result ≡ holds self exists }
    {
        match self {
            Condition::Always => true,
            Condition::Exists => exists,
            Condition::NotExists => !exists,
        }
    }
}
