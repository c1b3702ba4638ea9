//! A type that promises the key of its tables.
ghost use Rattle.std.specs.Prelude.{[], ◌∷◌, ◌≡◌, IfOk, codes};
ghost use Rattle.table_memory.specs.Content.{schema_of};
ghost use Rattle.table_keys.specs.KeyOf.{words_of};
ghost use Rattle.table_typed.specs.Stored.{table_of};

use crate::station::Station;
use std::alloc::{AllocError, Global};
use table_keys::{KeyAttribute, KeyKind, KeySchema};
use table_typed::{Keyed, TypedTable};

impl Keyed for Station {
    ghost keyed_by = { λ words. words ≡ codes "id:S" ∷ [] };

    fn key_schema(alloc: Global) -> Result<KeySchema, AllocError> {
        let name = String::from_str(alloc, "id")?;
        let partition = KeyAttribute {
            name,
            kind: KeyKind::S,
        };
        Ok(KeySchema {
            partition,
            sort: None,
        })
    }
}

/// Returns an empty table of stations, whose key is `id`.
///
/// # Errors
///
/// Returns [`AllocError`] if memory runs out.
pub fn table_of_stations(alloc: Global) -> Result<TypedTable<Station>, AllocError>
    ensures { IfOk result (λ table. words_of (schema_of (table_of table)) ≡ codes "id:S" ∷ []) }
{
    TypedTable::new(alloc)
}
