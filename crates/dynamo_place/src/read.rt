ghost use Rattle.std.specs.Prelude.{◌≡◌, map, IfErr, IfOk};
ghost use Rattle.dynamo_value.specs.Av as av;
ghost use Rattle.dynamo_value.specs.Fault.{out_of_memory};
ghost use Rattle.dynamo_value.specs.Item.{item_view, items_view};
ghost use Rattle.dynamo_value.specs.Kind.{fault_of};
ghost use Rattle.dynamo_value.specs.View.{view};
ghost use Rattle.dynamo_value.specs.declared.attribute_value.AttributeValue as AttributeValue;
ghost use Rattle.dynamo_de.specs.Meets.{Meets};
ghost use Rattle.dynamo_de.specs.Reads.{ReadsList};
ghost use Rattle.dynamo_de.specs.Source.{attribute};
ghost use Rattle.dynamo_read.specs.Lent.{lent_source};

use crate::located::Located;
use crate::spot::Spot;
use crate::trail::Trail;
use crate::{LocatedError, Place};
use dynamo_de::{Deserialize, Reader};
use dynamo_read::LentDeserializer;
use dynamo_value::{AttributeValue, Error, ErrorImpl, Item, Items};
use std::alloc::{AllocError, Global};
use std::collections::HashMap;

/// Reads a value from a reader, and says where an error was found.
///
/// It keeps the steps to the part that is read, and copies the key of each entry, so it takes
/// longer than reading from the reader itself. The other located calls read without places first,
/// and only after an error with them.
///
/// # Errors
///
/// Returns the error that the type has for the reader's source, with its place, or the reader's
/// error for out of memory.
pub fn read_located<T: Deserialize, R: Reader>(
    alloc: Global,
    reader: R,
) -> Result<T, LocatedError<R::Error>>
    ensures { Meets (λ e. R.Error.fault e.error) (T.reads (R.source reader)) result }
{
    let trail = Trail::new(alloc);
    match read_from(alloc, Located::new(reader, Spot::whole(&trail))) {
        Ok(value) => Ok(value),
        Err(error) => Err(LocatedError {
            place: trail.into_place(),
            error,
        }),
    }
}

// Reads a value from any reader. A caller with a certain reader is proved from this contract alone.
fn read_from<T: Deserialize, R: Reader>(alloc: Global, reader: R) -> Result<T, R::Error>
    ensures { Meets R.Error.fault (T.reads (R.source reader)) result }
{
    T::deserialize(alloc, reader)
}

/// Reads a value from an attribute value as `from_attribute_value` does, and says where an error
/// was found.
///
/// # Errors
///
/// Returns an error that `from_attribute_value` may return, with its place in the attribute value.
pub fn from_attribute_value_located<T: Deserialize>(
    alloc: Global,
    value: AttributeValue,
) -> Result<T, LocatedError<Error>>
    ensures { Meets (λ e. fault_of e.error) (T.reads (attribute (view value))) result }
{
    let reader = LentDeserializer::from_attribute_value(alloc, &value);
    let again = LentDeserializer::from_attribute_value(alloc, &value);
    read_lent(alloc, reader, again)
}

// Reads a value that is lent, and after an error reads it again to find the place.
fn read_lent<T: Deserialize>(
    alloc: Global,
    reader: LentDeserializer<'_>,
    again: LentDeserializer<'_>,
) -> Result<T, LocatedError<Error>>
    ensures { Meets (λ e. fault_of e.error) (T.reads (lent_source reader.entry)) result }
{
    read_twice(alloc, reader, again)
}

// The same from any reader, and another one of the same source.
fn read_twice<T: Deserialize, R: Reader<Error = Error>>(
    alloc: Global,
    reader: R,
    again: R,
) -> Result<T, LocatedError<Error>>
    ensures { Meets (λ e. fault_of e.error) (T.reads (R.source reader)) result }
{
    match read_from(alloc, reader) {
        Ok(value) => Ok(value),
        Err(error) => {
            let place = place_of::<T, R>(alloc, again, &error);
            Err(LocatedError { place, error })
        }
    }
}

// The place where reading returns this error, or that of the whole if it returns another one.
fn place_of<T: Deserialize, R: Reader<Error = Error>>(
    alloc: Global,
    reader: R,
    error: &Error,
) -> Place {
    if matches!(error.kind(), ErrorImpl::OutOfMemory) {
        return Place::new();
    }
    match read_located::<T, R>(alloc, reader) {
        Ok(_value) => Place::new(),
        Err(located) if located.error.kind() == error.kind() => located.place,
        Err(_located) => Place::new(),
    }
}

/// Reads a value from an item as `from_item` does, and says where an error was found.
///
/// # Errors
///
/// Returns an error that `from_item` may return, with its place in the item.
pub fn from_item_located<T: Deserialize>(
    alloc: Global,
    item: Item,
) -> Result<T, LocatedError<Error>>
    ensures { Meets (λ e. fault_of e.error) (T.reads (attribute (av.M (item_view item)))) result }
{
    from_item_ref_located(alloc, &item)
}

/// Reads a value from a borrowed item as `from_item_ref` does, and says where an error was found.
///
/// # Errors
///
/// Returns an error that `from_item_ref` may return, with its place in the item.
pub fn from_item_ref_located<T: Deserialize>(
    alloc: Global,
    item: &Item,
) -> Result<T, LocatedError<Error>>
    ensures { Meets (λ e. fault_of e.error) (T.reads (attribute (av.M (item_view item.now))))
        result }
{
    let reader = LentDeserializer::from_map(alloc, item.inner());
    let again = LentDeserializer::from_map(alloc, item.inner());
    read_lent(alloc, reader, again)
}

/// Reads a list of values from a list of items as `from_items` does, and says where an error was
/// found. The place begins with the index of the item, as `[7].orders[3].price`.
///
/// # Errors
///
/// Returns an error that `from_items` may return, with its place in the list.
#[tactic(auto, using(dynamo_read::proofs::Views::elements_of_maps))]
pub fn from_items_located<T: Deserialize>(
    alloc: Global,
    items: Items,
) -> Result<Vec<T>, LocatedError<Error>>
    ensures { Meets (λ e. fault_of e.error)
        (ReadsList T.reads (map (λ m. attribute (av.M m)) (items_view items))) result }
{
    match as_values(alloc, Vec::from(items)) {
        Ok(values) => from_attribute_value_located(alloc, AttributeValue::L(values)),
        Err(error) => Err(LocatedError {
            place: Place::new(),
            error: Error::from(error),
        }),
    }
}

// Each map as an attribute value.
fn as_values(
    alloc: Global,
    maps: Vec<HashMap<String, AttributeValue>>,
) -> Result<Vec<AttributeValue>, AllocError>
    ensures ok { IfOk result (λ values. values.items ≡ map (λ m. AttributeValue.M m) maps.items) }
{
    let values = maps.into_iter().map(|map| AttributeValue::M(map));
    values.collect(alloc)
}
