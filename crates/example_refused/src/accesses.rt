//! Rows of what an access has after a call. Reading into a box takes memory.
//! Reading without one takes none, but for lent strings and byte strings, which are copied.

use crate::answer::Written;
use crate::line::Line;
use crate::values;
use serde_dynamo::de::{
    Deserialize, MapAccess, Reader, ReaderMapAccess, ReaderSeqAccess, Request, SeqAccess, TypeSeed,
    elements_of, entries_of,
};
use serde_dynamo::{
    AttributeValue, DeserializerMap, DeserializerSeq, DeserializerSeqBytes, DeserializerSeqNumbers,
    DeserializerSeqStrings, Error, Item, LentDeserializer, Result,
};
use std::alloc::Global;
use std::fmt::Debug;

const TWO_ENTRIES: &str = r#"{"1":{"N":"10"},"2":{"N":"20"}}"#;

/// A list of two numbers.
pub const LIST: &str = r#"{"L":[{"N":"1"},{"N":"2"}]}"#;

/// A set of two strings.
pub const STRINGS: &str = r#"{"SS":["a","b"]}"#;

/// A set of two numbers.
pub const NUMBERS: &str = r#"{"NS":["1","2"]}"#;

/// A set of two byte strings.
pub const BYTE_STRINGS: &str = r#"{"BS":["AQ==","Ag=="]}"#;

// A key that is read in a box, and then its value and the next key.
fn say_key<A: MapAccess<Error = Error>>(alloc: Global, line: &mut Line, mut map: A) {
    line.say("key", map.next_key_seed(TypeSeed::<Box<u8>>::new(alloc)));
    line.say("left", Ok(map.size_hint()));
    line.say("value", map.next_value_seed(TypeSeed::<u8>::new(alloc)));
    line.say("key", map.next_key_seed(TypeSeed::<u8>::new(alloc)));
}

// The same of the entries that a reader gives.
fn say_key_read<R: Reader<Error = Error>>(alloc: Global, line: &mut Line, reader: R) -> Result<()> {
    let entries = entries_of(alloc, reader, "a map")?;
    say_key(alloc, line, ReaderMapAccess::<R>::new(entries));
    Ok(())
}

// A value that is read in a box, that value again, and then the next key and value.
fn say_value<A: MapAccess<Error = Error>>(alloc: Global, line: &mut Line, mut map: A) {
    let boxed = TypeSeed::<Box<u8>>::new(alloc);
    line.say("key", map.next_key_seed(TypeSeed::<u8>::new(alloc)));
    line.say("value", map.next_value_seed(boxed));
    line.say("value", map.next_value_seed(TypeSeed::<u8>::new(alloc)));
    line.say("left", Ok(map.size_hint()));
    line.say("entry", map.next_entry::<u8, u8>(alloc));
}

// The same of the entries that a reader gives.
fn say_value_read<R: Reader<Error = Error>>(
    alloc: Global,
    line: &mut Line,
    reader: R,
) -> Result<()> {
    let entries = entries_of(alloc, reader, "a map")?;
    say_value(alloc, line, ReaderMapAccess::<R>::new(entries));
    Ok(())
}

/// A key of a map.
pub fn next_key(alloc: Global, line: &mut Line) -> Result<()> {
    let mut map = values::map(alloc, TWO_ENTRIES)?;
    say_key(alloc, line, DeserializerMap::from_item(alloc, &mut map)?);
    Ok(())
}

/// A key of a lent map.
pub fn next_lent_key(alloc: Global, line: &mut Line) -> Result<()> {
    let map = values::map(alloc, TWO_ENTRIES)?;
    say_key_read(alloc, line, LentDeserializer::from_map(alloc, &map))
}

/// A value of a map.
pub fn next_value(alloc: Global, line: &mut Line) -> Result<()> {
    let mut map = values::map(alloc, TWO_ENTRIES)?;
    say_value(alloc, line, DeserializerMap::from_item(alloc, &mut map)?);
    Ok(())
}

/// A value of a lent map.
pub fn next_lent_value(alloc: Global, line: &mut Line) -> Result<()> {
    let map = values::map(alloc, TWO_ENTRIES)?;
    say_value_read(alloc, line, LentDeserializer::from_map(alloc, &map))
}

// An element that is read in a box, and then the next one and that there is no third.
fn say_elements<T: Deserialize + Debug + Drop, A: SeqAccess<Error = Error>>(
    alloc: Global,
    line: &mut Line,
    mut seq: A,
) {
    let boxed = TypeSeed::<Box<T>>::new(alloc);
    line.say("first", seq.next_element_seed(boxed));
    line.say("second", seq.next_element_seed(TypeSeed::<T>::new(alloc)));
    line.say("third", seq.next_element_seed(TypeSeed::<T>::new(alloc)));
}

/// The elements of a list or a set, by the access to its kind.
pub fn elements<T: Deserialize + Debug + Drop>(
    alloc: Global,
    line: &mut Line,
    text: &str,
) -> Result<()> {
    match values::value(alloc, text)? {
        AttributeValue::L(list) => {
            say_elements::<T, _>(alloc, line, DeserializerSeq::from_vec(alloc, list))
        }
        AttributeValue::Ss(set) => {
            say_elements::<T, _>(alloc, line, DeserializerSeqStrings::from_vec(alloc, set))
        }
        AttributeValue::Ns(set) => {
            say_elements::<T, _>(alloc, line, DeserializerSeqNumbers::from_vec(alloc, set))
        }
        AttributeValue::Bs(set) => {
            say_elements::<T, _>(alloc, line, DeserializerSeqBytes::from_vec(alloc, set))
        }
        other => drop(other),
    }
    Ok(())
}

// The same of the elements that a reader gives.
fn say_elements_read<T: Deserialize + Debug + Drop, R: Reader<Error = Error>>(
    alloc: Global,
    line: &mut Line,
    reader: R,
) -> Result<()> {
    let elements = elements_of(alloc, Request::Seq, reader, "a sequence")?;
    say_elements::<T, _>(alloc, line, ReaderSeqAccess::<R>::new(elements));
    Ok(())
}

/// The elements of a list or a set that is lent.
pub fn lent_elements<T: Deserialize + Debug + Drop>(
    alloc: Global,
    line: &mut Line,
    text: &str,
) -> Result<()> {
    let value = values::value(alloc, text)?;
    let reader = LentDeserializer::from_attribute_value(alloc, &value);
    say_elements_read::<T, _>(alloc, line, reader)
}

/// The entries of an item, which leave it, and what is left of the item.
pub fn entries(alloc: Global, line: &mut Line) -> Result<()> {
    let mut item = Item::from(values::map(alloc, TWO_ENTRIES)?);
    let clone = item.clone()?;
    let entries = DeserializerMap::from_item(alloc, item.inner_mut());
    line.say("from_item", entries.map(|entries| entries.size_hint()));
    let is_as_before = item == clone;
    line.say("left", Ok(Written(AttributeValue::M(item.into_inner()))));
    line.say("as before", Ok(is_as_before));
    Ok(())
}
