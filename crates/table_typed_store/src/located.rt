//! The places of errors of reading.

use dynamo_place::Place;
use dynamo_value::{Error, Item};
use std::alloc::Global;
use table_typed::{AsItem, place_of_error};

/// Returns the place in a list of items where reading them returns this error. It begins with the
/// index of the item.
pub(crate) fn place_among<T: AsItem>(alloc: Global, found: &[Item], error: &Error) -> Place {
    for (index, item) in found.iter().enumerate() {
        if let Some(place) = place_of_error::<T>(alloc, item, error) {
            return place.in_element(alloc, index);
        }
    }
    Place::new()
}
