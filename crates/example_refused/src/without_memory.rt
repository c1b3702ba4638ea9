//! Rows of calls that take no memory, on values made before.
ghost use Rattle.std.specs.Prelude.{codes};
ghost use Rattle.serde_dynamo.specs.Datum as datum;

use crate::answer::Written;
use crate::line::Line;
use crate::values;
use serde_dynamo::de::{Deserialize, EnumAccess, IgnoredAny, SeqAccess, VariantAccess};
use serde_dynamo::ser::{Serialize, SerializeMap, SerializeSeq, SerializeStruct, Serializer};
use serde_dynamo::{
    AttributeValue, ByteBuf, Deserializer, DeserializerEnum, DeserializerSeq, DeserializerSeqBytes,
    DeserializerSeqNumbers, DeserializerSeqStrings, DeserializerVariant, Error, ErrorImpl, Item,
    Items, Result, SerializerMap, SerializerSeq, SerializerStruct, SerializerStructVariant,
    SerializerTupleVariant, is_float_text, to_attribute_value,
};
use std::alloc::Global;
use std::collections::HashMap;
use std::fmt::Debug;
use std::vec::IntoIter;

/// The accesses to the three kinds of sets and to a list, each made and asked for an element.
pub fn sequences(alloc: Global, line: &mut Line) -> Result<()> {
    let strings = vec![in alloc; String::from_str(alloc, "a")?]?;
    let numbers = vec![in alloc; String::from_str(alloc, "1")?]?;
    let byte_strings = vec![in alloc; vec![in alloc; 1, 2]?]?;
    let list = vec![in alloc; AttributeValue::Bool(true)]?;
    let mut strings = DeserializerSeqStrings::from_vec(alloc, strings);
    line.say("strings", strings.next_element::<String>(alloc));
    let mut numbers = DeserializerSeqNumbers::from_vec(alloc, numbers);
    line.say("numbers", numbers.next_element::<u8>(alloc));
    let mut byte_strings = DeserializerSeqBytes::from_vec(alloc, byte_strings);
    line.say("byte strings", byte_strings.next_element::<ByteBuf>(alloc));
    let mut list = DeserializerSeq::from_vec(alloc, list);
    line.say("list", list.next_element::<bool>(alloc));
    Ok(())
}

/// A reader of an attribute value, of a variant and of a variant's content, each made and read.
pub fn variants(alloc: Global, line: &mut Line) -> Result<()> {
    let value = values::value(alloc, r#"{"N":"1"}"#)?;
    let item = values::map(alloc, r#"{"Newtype":{"N":"2"}}"#)?;
    let content = values::value(alloc, r#"{"N":"3"}"#)?;
    let reader = Deserializer::from_attribute_value(alloc, value);
    line.say("value", u8::deserialize(alloc, reader));
    let named = DeserializerEnum::from_item(alloc, item).variant::<String>(alloc);
    line.say("variant", named.map(|(name, _)| name));
    let content = DeserializerVariant::from_attribute_value(alloc, content);
    line.say("content", content.newtype_variant::<u8>(alloc));
    Ok(())
}

/// The five builders, three of which end without memory too.
pub fn builders(alloc: Global, line: &mut Line) -> Result<()> {
    let seq = SerializeSeq::end(SerializerSeq::new(alloc, Some(9)));
    line.say("seq", seq.map(Written));
    let map = SerializerMap::new(alloc, Some(9)).end();
    line.say("map", map.map(Written));
    let fields = SerializerStruct::new(alloc, 9).end();
    line.say("struct", fields.map(Written));
    drop(SerializerTupleVariant::new(alloc, "Variant", 9));
    drop(SerializerStructVariant::new(alloc, "Variant", 9));
    line.show("variants", &"made");
    Ok(())
}

/// What is asked of an item, its conversions and those of a list of items.
pub fn items(alloc: Global, line: &mut Line) -> Result<()> {
    let mut item = Item::from(values::map(alloc, r#"{"a":{"N":"1"},"b":{"N":"2"}}"#)?);
    let maps = vec![in alloc; values::map(alloc, r#"{"c":{"N":"3"}}"#)?]?;
    line.show("new", &Item::new(alloc).inner().len());
    line.show("removed", &item.inner_mut().remove("b").is_some());
    line.show("left", &item.inner().len());
    line.show("got", &item.get("a").is_some());
    let map: HashMap<String, AttributeValue> = HashMap::from(item);
    let map = Item::from(map).into_inner();
    line.say("item", Ok(Written(AttributeValue::M(map))));
    let maps: Vec<HashMap<String, AttributeValue>> = Vec::from(Items::from(maps));
    line.show("items", &maps.len());
    Ok(())
}

/// The kind of a fault, and whether a text is a float's.
pub fn questions(_: Global, line: &mut Line) -> Result<()> {
    line.say("kind", Ok(Error::from(ErrorImpl::NotMaplike).kind()));
    line.show("float", &is_float_text("-1.5e9"));
    line.show("word", &is_float_text("one"));
    Ok(())
}

// A struct without fields.
struct Nothing;

impl Serialize for Nothing {
    ghost tells = { λ _. datum.unit_struct (codes "Nothing") };

    fn serialize<S: Serializer>(&self, serializer: S) -> std::result::Result<S::Ok, S::Error> {
        serializer.serialize_unit_struct("Nothing")
    }
}

/// What writes without memory.
pub fn scalars_written(alloc: Global, line: &mut Line) -> Result<()> {
    let none: Option<bool> = None;
    line.say("bool", to_attribute_value(alloc, true).map(Written));
    line.say("none", to_attribute_value(alloc, none).map(Written));
    line.say("unit", to_attribute_value(alloc, ()).map(Written));
    let nothing = to_attribute_value(alloc, &Nothing);
    line.say("unit struct", nothing.map(Written));
    Ok(())
}

// Reads the next of the values by both readers.
fn say_next<T: Deserialize + Debug + Drop>(
    line: &mut Line,
    label: &str,
    values: &mut IntoIter<AttributeValue>,
) {
    if let Some(value) = values.next() {
        line.say_both::<T>(label, value);
    }
}

/// The integers to 64 bits, read out of a number.
pub fn integers_read(alloc: Global, line: &mut Line) -> Result<()> {
    let mut sevens = values::each(alloc, &[r#"{"N":"7"}"#; 8])?.into_iter();
    say_next::<i8>(line, "i8", &mut sevens);
    say_next::<i16>(line, "i16", &mut sevens);
    say_next::<i32>(line, "i32", &mut sevens);
    say_next::<i64>(line, "i64", &mut sevens);
    say_next::<u8>(line, "u8", &mut sevens);
    say_next::<u16>(line, "u16", &mut sevens);
    say_next::<u32>(line, "u32", &mut sevens);
    say_next::<u64>(line, "u64", &mut sevens);
    Ok(())
}

/// What else is read without memory, each out of a value that holds one.
pub fn scalars_read(alloc: Global, line: &mut Line) -> Result<()> {
    let letter = values::value(alloc, r#"{"S":"a"}"#)?;
    let pair = values::value(alloc, r#"{"NS":["1","2"]}"#)?;
    line.say_both::<bool>("bool", AttributeValue::Bool(true));
    line.say_both::<char>("char", letter);
    line.say_both::<()>("unit", AttributeValue::Null(true));
    line.say_both::<(u8, u8)>("pair", pair);
    Ok(())
}

/// A list of leaves and sets of all kinds, ignored.
pub fn ignored(alloc: Global, line: &mut Line) -> Result<()> {
    let leaves =
        r#"{"L":[{"N":"1"},{"N":"1.5"},{"S":"text"},{"BOOL":true},{"B":"AQI="},{"NULL":true},
        {"SS":["a","b"]},{"NS":["1","1e9"]},{"BS":["AQI=","Ag=="]},{"L":[{"L":[]}]}]}"#;
    line.say_both::<IgnoredAny>("leaves", values::value(alloc, leaves)?);
    Ok(())
}

/// What is refused since it is of another kind.
pub fn other_kinds(alloc: Global, line: &mut Line) -> Result<()> {
    let texts = [
        r#"{"B":"AQIDBAUGBwg="}"#,
        r#"{"S":"text"}"#,
        r#"{"N":"1.5"}"#,
        r#"{"SS":["a","b"]}"#,
        r#"{"M":{"a":{"S":"text"}}}"#,
    ];
    let mut values = values::each(alloc, &texts)?.into_iter();
    say_next::<bool>(line, "bytes", &mut values);
    say_next::<u8>(line, "text", &mut values);
    say_next::<String>(line, "number", &mut values);
    say_next::<Option<char>>(line, "texts", &mut values);
    say_next::<(u8, u8)>(line, "map", &mut values);
    Ok(())
}
