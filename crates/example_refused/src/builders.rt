//! Rows of what a builder has after a call. The builders hold what fills their lists, or nearly so,
//! so that one of the calls lets the list grow. The rows are generic, which makes them quick to
//! check: what the checker reads of a call grows with all that is known of the builders' types.

use crate::answer::Written;
use crate::line::Line;
use serde_dynamo::ser::{
    SerializeMap, SerializeSeq, SerializeStruct, SerializeStructVariant, SerializeTuple,
    SerializeTupleStruct, SerializeTupleVariant, Serializer,
};
use serde_dynamo::{AttributeValue, Error, Result, Text};
use std::alloc::Global;

/// A builder, and what a row gives it.
pub enum Builder {
    /// The elements of a sequence.
    Seq,
    /// The elements of a tuple.
    Tuple,
    /// The fields of a tuple struct.
    TupleStruct,
    /// The fields of a tuple variant.
    TupleVariant,
    /// The fields of a struct.
    Struct,
    /// The fields of a struct variant.
    StructVariant,
    /// A key of a map, its value, and a value too much.
    KeyAndValue,
    /// An entry of a map while a key waits, and then the value of that key.
    Entry,
}

/// Prints what a builder of attribute values returns.
pub fn row(alloc: Global, line: &mut Line, of: Builder) -> Result<()> {
    row_of(serde_dynamo::Serializer::new(alloc), line, of)
}

// A serializer of attribute values.
trait Writer: Serializer<Ok = AttributeValue, Error = Error> {}

impl Writer for serde_dynamo::Serializer {}

fn row_of<W: Writer>(writer: W, line: &mut Line, of: Builder) -> Result<()> {
    match of {
        Builder::Seq => seq(writer, line),
        Builder::Tuple => tuple(writer, line),
        Builder::TupleStruct => tuple_struct(writer, line),
        Builder::TupleVariant => tuple_variant(writer, line),
        Builder::Struct => struct_fields(writer, line),
        Builder::StructVariant => struct_variant(writer, line),
        Builder::KeyAndValue => key_and_value(writer, line),
        Builder::Entry => entry(writer, line),
    }
}

// Gives a builder of a list five elements, and prints what the last two calls and the end return.
macro_rules! elements {
    ($line:expr, $builder:expr, $Trait:ident, $call:ident) => {{
        let mut builder = $builder;
        for n in 0..3_u8 {
            $Trait::$call(&mut builder, &n)?;
        }
        $line.say("fourth", $Trait::$call(&mut builder, &3_u8));
        $line.say("fifth", $Trait::$call(&mut builder, &4_u8));
        $line.say("end", $Trait::end(builder).map(Written));
        Ok(())
    }};
}

// The same of a builder of fields.
macro_rules! fields {
    ($line:expr, $builder:expr, $Trait:ident) => {{
        let mut builder = $builder;
        for (name, n) in [("a", 0_u8), ("b", 1), ("c", 2)] {
            $Trait::serialize_field(&mut builder, name, &n)?;
        }
        $line.say("fourth", $Trait::serialize_field(&mut builder, "d", &3_u8));
        $line.say("fifth", $Trait::serialize_field(&mut builder, "e", &4_u8));
        $line.say("end", $Trait::end(builder).map(Written));
        Ok(())
    }};
}

fn seq<W: Writer>(writer: W, line: &mut Line) -> Result<()> {
    elements!(
        line,
        writer.serialize_seq(None)?,
        SerializeSeq,
        serialize_element
    )
}

fn tuple<W: Writer>(writer: W, line: &mut Line) -> Result<()> {
    elements!(
        line,
        writer.serialize_tuple(5)?,
        SerializeTuple,
        serialize_element
    )
}

fn tuple_struct<W: Writer>(writer: W, line: &mut Line) -> Result<()> {
    let builder = writer.serialize_tuple_struct("Five", 5)?;
    elements!(line, builder, SerializeTupleStruct, serialize_field)
}

fn tuple_variant<W: Writer>(writer: W, line: &mut Line) -> Result<()> {
    let builder = writer.serialize_tuple_variant("Row", 0, "Five", 5)?;
    elements!(line, builder, SerializeTupleVariant, serialize_field)
}

fn struct_fields<W: Writer>(writer: W, line: &mut Line) -> Result<()> {
    fields!(line, writer.serialize_struct("Five", 5)?, SerializeStruct)
}

fn struct_variant<W: Writer>(writer: W, line: &mut Line) -> Result<()> {
    let builder = writer.serialize_struct_variant("Row", 0, "Five", 5)?;
    fields!(line, builder, SerializeStructVariant)
}

// A map of four entries.
fn map_of_four<W: Writer>(writer: W) -> Result<W::SerializeMap> {
    let mut map = writer.serialize_map(None)?;
    for n in 0..4_u8 {
        map.serialize_entry(&n, &())?;
    }
    Ok(map)
}

fn key_and_value<W: Writer>(writer: W, line: &mut Line) -> Result<()> {
    let mut map = map_of_four(writer)?;
    line.say("key", map.serialize_key(&Text::new("key")));
    line.say("value", map.serialize_value(&5_u8));
    line.say("value", map.serialize_value(&6_u8));
    line.say("end", map.end().map(Written));
    Ok(())
}

fn entry<W: Writer>(writer: W, line: &mut Line) -> Result<()> {
    let mut map = map_of_four(writer)?;
    map.serialize_key(&Text::new("key"))?;
    line.say("entry", map.serialize_entry(&Text::new("entry"), &5_u8));
    line.say("value", map.serialize_value(&6_u8));
    line.say("end", map.end().map(Written));
    Ok(())
}
