// Reading with the places of errors.
ghost use Rattle.std.specs.Prelude.{◌≡◌, [], length, IfErr, IfOk};
ghost use Rattle.dynamo_place.specs.Found.{steps_of};
ghost use Rattle.dynamo_value.specs.Item.{items_view};
ghost use Rattle.dynamo_serde.specs.Located.{IsInItems};

use crate::Tape;
use crate::fault::no_memory;
use crate::located_tape::LocatedTape;
use dynamo_place::{LocatedError, Place};
use dynamo_value::{AttributeValue, Error, Item, Items};
use serde::{DeserializeOwned, Deserializer, Format};
use std::alloc::Global;
use std::collections::HashMap;

/// Reads a value from an attribute value as [`from_attribute_value`](crate::from_attribute_value)
/// does, and says where an error was found.
///
/// - An error about a missing, unknown or duplicate field has the place of the struct, one about an
///   unknown variant that of the enum, and one about a length that of the list. The content of a
///   variant is at the variant's name.
/// - A key that can't be read, such as that of a map with integer keys, has the place of its entry.
/// - The fields of a flattened struct and of an internally tagged variant are at the map that they
///   share with others, and so is a tag that can't be read.
/// - The place is that of the whole enum if no variant of an untagged enum fits, and if the tag of
/// an adjacently tagged enum can't be read.
/// - An error of `#[serde(try_from)]` has the place of the value that was converted.
/// - More than 127 levels of lists and maps have the place of the whole value.
///
/// # Errors
///
/// Returns the error of `from_attribute_value`, with its place in the attribute value.
///
/// # Examples
///
/// ```rust
/// use serde_dynamo::AttributeValue;
///
/// let texts = vec![in alloc; String::from_str(alloc, "1")?, String::from_str(alloc, "300")?]?;
/// let value = AttributeValue::Ns(texts);
/// let Err(error) = dynamo_serde::from_attribute_value_located::<Vec<u8>>(alloc, value) else {
///     anyhow::bail!("300 is no u8");
/// };
/// assert!(rt; error.place.to_string(alloc)?.as_str() == "[1]");
/// ```
pub fn from_attribute_value_located<T: DeserializeOwned>(
    alloc: Global,
    value: AttributeValue,
) -> Result<T, LocatedError<Error>> {
    read_laid(alloc, Tape::new(alloc, &value))
}

/// Reads a value from a borrowed item as [`read_item`](crate::read_item) does, and says where an
/// error was found, as [`from_attribute_value_located`] does.
///
/// # Errors
///
/// Returns the error of `read_item`, with its place in the item.
///
/// # Examples
///
/// ```rust
/// use serde::Deserialize;
/// use serde_dynamo::{DynamoJson, Item};
///
/// #[derive(Drop, Deserialize)]
/// struct Order {
///     prices: Vec<u32>,
/// }
///
/// let item = Item::from_json_text(alloc, r#"{"prices": {"L": [{"N": "4"}, {"S": "5"}]}}"#)?;
/// let Err(error) = dynamo_serde::read_item_located::<Order>(alloc, &item) else {
///     anyhow::bail!("a price isn't a string");
/// };
/// assert!(rt; error.to_string(alloc)?.as_str() == "prices[1]: Expected num");
/// ```
pub fn read_item_located<T: DeserializeOwned>(
    alloc: Global,
    item: &Item,
) -> Result<T, LocatedError<Error>> {
    read_laid(alloc, Tape::of_map(alloc, item.inner()))
}

/// Reads a value from an item as [`from_item`](crate::from_item) does, and says where an error was
/// found, as [`from_attribute_value_located`] does.
///
/// # Errors
///
/// Returns the error of `from_item`, with its place in the item.
///
/// # Examples
///
/// ```rust
/// use serde::Deserialize;
/// use serde_dynamo::{DynamoJson, Item};
///
/// #[derive(Drop, Deserialize)]
/// struct Order {
///     home: Home,
/// }
///
/// #[derive(Drop, Deserialize)]
/// struct Home {
///     city: String,
/// }
///
/// let item = Item::from_json_text(alloc, r#"{"home": {"M": {}}}"#)?;
/// let Err(error) = dynamo_serde::from_item_located::<Order>(alloc, item) else {
///     anyhow::bail!("the home has no city");
/// };
/// assert!(rt; error.to_string(alloc)?.as_str() == "home: missing field `city`");
/// ```
pub fn from_item_located<T: DeserializeOwned>(
    alloc: Global,
    item: Item,
) -> Result<T, LocatedError<Error>> {
    read_item_located(alloc, &item)
}

/// Reads a list of values from a list of items as [`from_items`](crate::from_items) does, and says
/// where an error was found, as [`from_attribute_value_located`] does. The place begins with the
/// index of the item, as in `[7].orders[3].price`.
///
/// # Errors
///
/// Returns the error of `from_items`, with its place in the list.
///
/// # Examples
///
/// ```rust
/// use serde::Deserialize;
/// use serde_dynamo::{DynamoJson, Item, Items};
///
/// #[derive(Drop, Deserialize)]
/// struct Point {
///     x: i32,
/// }
///
/// let good = Item::from_json_text(alloc, r#"{"x": {"N": "1"}}"#)?;
/// let bad = Item::from_json_text(alloc, r#"{"x": {"N": "one"}}"#)?;
/// let items = Items::from(vec![in alloc; good.into_inner(), bad.into_inner()]?);
/// let Err(error) = dynamo_serde::from_items_located::<Point>(alloc, items) else {
///     anyhow::bail!("one is no number");
/// };
/// assert!(rt; error.place.to_string(alloc)?.as_str() == "[1].x");
/// ```
#[tactic(auto, using(crate::proofs::Places::in_items))]
pub fn from_items_located<T: DeserializeOwned>(
    alloc: Global,
    items: Items,
) -> Result<Vec<T>, LocatedError<Error>>
    ensures each { IfOk result (λ values. length values.items ≡ length (items_view items)) }
    ensures place { IfErr result (λ e. IsInItems (length (items_view items)) e.place) }
{
    let maps: Vec<HashMap<String, AttributeValue>> = items.into();
    let Ok(mut values) = Vec::with_capacity(alloc, maps.len()) else {
        return Err(at_whole(no_memory()));
    };
    for (index, map) in maps.iter().enumerate() {
        match read_laid(alloc, Tape::of_map(alloc, map)) {
            Ok(value) => {
                if values.push(value).is_err() {
                    return Err(at_whole(no_memory()));
                }
            }
            Err(LocatedError { place, error }) => {
                let place = place.in_element(alloc, index);
                return Err(LocatedError { place, error });
            }
        }
    }
    Ok(values)
}

// Reads a value from a tape, if it could be laid.
fn read_laid<T: DeserializeOwned>(
    alloc: Global,
    laid: Result<Tape<'_>, Error>,
) -> Result<T, LocatedError<Error>> {
    let tape = match laid {
        Ok(tape) => tape,
        Err(error) => return Err(at_whole(error)),
    };
    let mut tape = LocatedTape::new(tape);
    match read_tape(alloc, &mut tape) {
        Ok(value) => Ok(value),
        Err(error) => {
            let place = tape.place(alloc);
            Err(LocatedError { place, error })
        }
    }
}

// Reads a value from a tape that keeps its place.
fn read_tape<T: DeserializeOwned>(alloc: Global, tape: &mut LocatedTape<'_>) -> Result<T, Error> {
    read_from(alloc, tape)
}

// Reads a value from any format, so that the proof of a caller with a certain one is short.
#[inline(always)]
fn read_from<T: DeserializeOwned, F: Format>(alloc: Global, format: &mut F) -> Result<T, F::Error> {
    T::deserialize_owned(alloc, &mut Deserializer::new(&[], format))
}

// An error of the whole.
fn at_whole(error: Error) -> LocatedError<Error>
    ensures { steps_of result.place ≡ [] }
{
    LocatedError {
        place: Place::new(),
        error,
    }
}
