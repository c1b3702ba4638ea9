ghost use Rattle.std.specs.Prelude.{◌≡◌, IfOk};
ghost use Rattle.table_keys.specs.KeyOrder.{key_cmp};
ghost use Rattle.table_keys.specs.declared.key.Key.{Key};
ghost use Rattle.table_keys.specs.Places.{is_from, is_from_place};

use crate::Key;
use std::alloc::AllocError;

/// A place in the order of keys: just before a key, or just after it.
#[derive(Debug, Drop, PartialEq, Eq, PartialOrd, Ord)]
pub struct Place {
    /// The key.
    pub key: Key,

    /// Whether the place is after the key.
    pub is_behind: bool,
}

impl Place {
    // Returns the place before a copy of the key, or after it.
    #[tactic(auto, using(crate::proofs::Narrowed::equal_keys))]
    pub(crate) fn at(key: &Key, is_behind: bool) -> Result<Place, AllocError>
        ensures { IfOk result (λ place. (other : Key)
            → is_from_place place other ≡ is_from key_cmp is_behind key.now other) }
    {
        Ok(Place {
            key: key.clone()?,
            is_behind,
        })
    }
}
