//! The rows: their names, and what prints the line of each.

use crate::builders::Builder;
use crate::line::Line;
use crate::{
    accesses, builders, derived, json, leaf_readers, located, reading, tables, without_memory,
    writing,
};
use serde_dynamo::de::IgnoredAny;
use serde_dynamo::{ByteBuf, Result};
use std::alloc::Global;

// Gives all rows to a macro: the name of each, its function, and what the function is given beside
// the line. The rows from `seq` on show what a builder, an access or a table still holds after a
// call was refused memory.
macro_rules! with_rows {
    ($made:ident, $($given:ident),*) => {
        $made! {
            ($($given),*)
            "write" => writing::account;
            "write_no_key" => writing::no_key;
            "custom" => writing::custom;
            "read" => reading::account;
            "read_too_large" => reading::by_both::<u8>, r#"{"N":"256"}"#;
            "read_too_short" => reading::by_both::<(u8, u8)>, r#"{"L":[{"N":"1"}]}"#;
            "texts_read" => reading::texts;
            "ignored_map" => reading::by_both::<IgnoredAny>, reading::MAP_OF_TEXTS;
            "derived" => derived::order;
            "located_taken" => located::taken;
            "located_lent" => located::lent;
            "located_json" => located::json;
            "located_written" => located::written;
            "located_derived" => located::derived;
            "json" => json::ten_kinds;
            "json_refused" => json::refused;
            "leaf_readers" => leaf_readers::shown;
            "sequences" => without_memory::sequences;
            "variants" => without_memory::variants;
            "builders" => without_memory::builders;
            "items" => without_memory::items;
            "questions" => without_memory::questions;
            "scalars_written" => without_memory::scalars_written;
            "integers_read" => without_memory::integers_read;
            "scalars_read" => without_memory::scalars_read;
            "ignored" => without_memory::ignored;
            "other_kinds" => without_memory::other_kinds;
            "seq" => builders::row, Builder::Seq;
            "tuple" => builders::row, Builder::Tuple;
            "tuple_struct" => builders::row, Builder::TupleStruct;
            "tuple_variant" => builders::row, Builder::TupleVariant;
            "struct" => builders::row, Builder::Struct;
            "struct_variant" => builders::row, Builder::StructVariant;
            "key_and_value" => builders::row, Builder::KeyAndValue;
            "entry" => builders::row, Builder::Entry;
            "next_key" => accesses::next_key;
            "next_lent_key" => accesses::next_lent_key;
            "next_value" => accesses::next_value;
            "next_lent_value" => accesses::next_lent_value;
            "next_element" => accesses::elements::<u8>, accesses::LIST;
            "next_lent_element" => accesses::lent_elements::<u8>, accesses::LIST;
            "next_string" => accesses::elements::<String>, accesses::STRINGS;
            "next_lent_string" => accesses::lent_elements::<String>, accesses::STRINGS;
            "next_number" => accesses::elements::<u8>, accesses::NUMBERS;
            "next_lent_number" => accesses::lent_elements::<u8>, accesses::NUMBERS;
            "next_byte_string" => accesses::elements::<ByteBuf>, accesses::BYTE_STRINGS;
            "next_lent_byte_string" => accesses::lent_elements::<ByteBuf>, accesses::BYTE_STRINGS;
            "entries" => accesses::entries;
            "table_put_new" => tables::put, tables::THIRD;
            "table_put_again" => tables::put, tables::SECOND_AGAIN;
            "table_query" => tables::query;
        }
    };
}

macro_rules! names_of {
    (() $($name:literal => $row:path $(, $with:expr)?;)*) => { [$($name),*] };
}

macro_rules! row_of {
    (($alloc:ident, $line:ident, $wanted:ident)
        $($name:literal => $row:path $(, $with:expr)?;)*) => {
        match $wanted {
            $($name => $row($alloc, $line $(, $with)?),)*
            _ => return None,
        }
    };
}

/// The names of the rows.
pub const NAMES: [&str; 51] = with_rows!(names_of,);

/// Prints the line of the row of this name, up to its end. Returns `None` if there is no such row,
/// and in it an error if the values of the row were not made.
pub fn run(alloc: Global, line: &mut Line, name: &str) -> Option<Result<()>> {
    Some(with_rows!(row_of, alloc, line, name))
}
