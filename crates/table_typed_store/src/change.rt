//! Changes of the values that items read as.

ghost use Rattle.std.specs.Prelude.{IfErr, IfOk};
ghost use Rattle.table_typed.specs.Updated.{MakesItem, MakesNone};
ghost use Rattle.table_typed_store.specs.declared.error.TypedStoreError.{TypedStoreError};

use crate::TypedStoreError;
use dynamo_value::Item;
use std::alloc::Global;
use table_store::StoreError;
use table_typed::AsItem;

/// An error of an update, of the caller's type.
pub(crate) struct Failed<E>(pub E);

impl<E: From<TypedStoreError>> From<StoreError> for Failed<E> {
    ghost from_gives = { λ error failed. E.from_gives (TypedStoreError.Store error) failed.0 };

    fn from(error: StoreError) -> Failed<E> {
        Failed(E::from(TypedStoreError::Store(error)))
    }
}

/// Returns the item of what `change` makes of the value that an item reads as.
///
/// # Errors
///
/// `Value` if the item can't be read, the error of `change`, and `Value` if what it makes can't be
/// written.
pub(crate) fn changed<T: AsItem, E: From<TypedStoreError>, F: FnOnce(T) -> Result<T, E>>(
    alloc: Global,
    item: &Item,
    change: F,
) -> Result<Item, Failed<E>>
    requires { F.IsAlwaysCallable change }
    ensures ok { IfOk result (MakesItem T.written T.reads_item (F.post change) item.now) }
    ensures err { IfErr result (λ failed. MakesNone T.unwritten T.reads_item (F.post change)
        (λ error e. E.from_gives (TypedStoreError.Value error) e) item.now failed.0) }
{
    let before = match T::read_item(alloc, item) {
        Ok(before) => before,
        Err(error) => return Err(Failed(E::from(TypedStoreError::Value(error)))),
    };
    let after = match change(before) {
        Ok(after) => after,
        Err(error) => return Err(Failed(error)),
    };
    match after.to_item(alloc) {
        Ok(item) => Ok(item),
        Err(error) => Err(Failed(E::from(TypedStoreError::Value(error)))),
    }
}
