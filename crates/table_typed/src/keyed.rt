ghost use Rattle.std.specs.Prelude.{ℕ, List, ⊤, IfOk};
ghost use Rattle.table_keys.specs.KeyOf.{words_of};

use std::alloc::{AllocError, Global};
use table_keys::KeySchema;

/// A type that names the key of its table. [`AsItem`](crate::AsItem) says how its values are items.
///
/// A type may promise which key that is, by its ghost member `keyed_by`: then `key_schema`, and
/// each table of the type, is proved to have this key. Without the member nothing is promised.
///
/// ```text
/// ghost use Rattle.std.specs.Prelude.{◌≡◌, [], ◌∷◌, codes};
///
/// ghost keyed_by = { λ words. words ≡ codes "hotel:S" ∷ codes "number:N" ∷ [] };
/// ```
///
/// # Examples
///
/// ```rust
/// use std::alloc::{AllocError, Global};
/// use table_memory::{KeyAttribute, KeyKind, KeySchema};
/// use table_typed::Keyed;
///
/// struct Order;
///
/// impl Keyed for Order {
///     fn key_schema(alloc: Global) -> Result<KeySchema, AllocError> {
///         let name = String::from_str(alloc, "id")?;
///         let partition = KeyAttribute { name, kind: KeyKind::S };
///         Ok(KeySchema { partition, sort: None })
///     }
/// }
///
/// assert_eq!(rt; Order::key_schema(alloc)?.partition.name.as_str(), "id");
/// ```
pub trait Keyed: Sized {
    // Whether these are the words of the type's key: of each attribute its name, a colon and the
    // letter of its kind.
    ghost keyed_by: { List (List ℕ) → Type 0 } = { λ _. ⊤ };

    /// Returns the attributes that are the key.
    ///
    /// # Errors
    ///
    /// Returns [`AllocError`] if memory runs out for their names.
    fn key_schema(alloc: Global) -> Result<KeySchema, AllocError>
        ensures { IfOk result (λ schema. keyed_by (words_of schema)) };
}
