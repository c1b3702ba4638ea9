//! The row of the readers of single texts and byte strings, which take no memory.

use crate::line::Line;
use serde_dynamo::de::{IntegerKind, Reader, Request};
use serde_dynamo::{
    DeserializerBytes, DeserializerMapKey, DeserializerNumber, Result, StringDeserializer,
};
use std::alloc::Global;

const REQUESTS: [Request; 29] = [
    Request::Any,
    Request::Bool,
    Request::Integer(IntegerKind::I8),
    Request::Integer(IntegerKind::I16),
    Request::Integer(IntegerKind::I32),
    Request::Integer(IntegerKind::I64),
    Request::Integer(IntegerKind::I128),
    Request::Integer(IntegerKind::U8),
    Request::Integer(IntegerKind::U16),
    Request::Integer(IntegerKind::U32),
    Request::Integer(IntegerKind::U64),
    Request::Integer(IntegerKind::U128),
    Request::Char,
    Request::Str,
    Request::String,
    Request::Bytes,
    Request::ByteBuf,
    Request::Option,
    Request::Unit,
    Request::UnitStruct,
    Request::NewtypeStruct,
    Request::Seq,
    Request::Tuple,
    Request::TupleStruct,
    Request::Map,
    Request::Struct,
    Request::Enum,
    Request::Identifier,
    Request::IgnoredAny,
];

// The same text for each request.
fn texts(alloc: Global) -> Result<Vec<String>> {
    let mut texts = Vec::with_capacity(alloc, REQUESTS.len())?;
    for _ in REQUESTS {
        texts.push(String::from_str(alloc, "7")?)?;
    }
    Ok(texts)
}

// At how many of the requests the readers of the texts show something.
fn count<R: Reader, F: Fn(String) -> R>(texts: Vec<String>, reader_of: F) -> u8
    requires { F.IsAlwaysCallable reader_of }
{
    let mut count = 0_u8;
    for (text, request) in texts.into_iter().zip(REQUESTS) {
        if reader_of(text).show(request).is_ok() {
            count = count.saturating_add(1);
        }
    }
    count
}

/// At how many of the requests each of the readers shows something.
pub fn shown(alloc: Global, line: &mut Line) -> Result<()> {
    let texts = [texts(alloc)?, texts(alloc)?, texts(alloc)?, texts(alloc)?];
    let [strings, numbers, keys, bytes] = texts;
    let strings = count(strings, |text| StringDeserializer::from_string(alloc, text));
    let numbers = count(numbers, |text| DeserializerNumber::from_string(alloc, text));
    let keys = count(keys, |text| DeserializerMapKey::from_string(alloc, text));
    let reader = |text: String| DeserializerBytes::from_bytes(alloc, text.into_bytes());
    let bytes = count(bytes, reader);
    line.say("string", Ok(strings));
    line.say("number", Ok(numbers));
    line.say("key", Ok(keys));
    line.say("byte string", Ok(bytes));
    Ok(())
}
