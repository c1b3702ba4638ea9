//! The places of errors of reading.

use crate::AsItem;
use dynamo_place::{LocatedError, Place};
use dynamo_value::{Error, Item};
use std::alloc::Global;
use table_keys::Key;

/// Returns the place in an item where reading it as the type returns this error. It is `None` if
/// the item can be read, or if reading it returns another error, as if memory runs out.
pub fn place_of_error<T: AsItem>(alloc: Global, item: &Item, error: &Error) -> Option<Place> {
    match T::read_item_located(alloc, item) {
        Ok(_value) => None,
        Err(located) => place_if_same(located, error),
    }
}

fn place_if_same(located: LocatedError<Error>, error: &Error) -> Option<Place> {
    if located.error.kind() == error.kind() {
        Some(located.place)
    } else {
        None
    }
}

/// Returns the place in a list of items where reading them returns this error. It begins with the
/// index of the item.
pub(crate) fn place_among<T: AsItem>(
    alloc: Global,
    found: &[(&Key, &Item)],
    error: &Error,
) -> Place {
    for (index, (_, item)) in found.iter().enumerate() {
        if let Some(place) = place_of_error::<T>(alloc, item, error) {
            return place.in_element(alloc, index);
        }
    }
    Place::new()
}
