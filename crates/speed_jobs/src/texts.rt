//! DynamoDB JSON both ways: many small items, each by itself and all in one text, one wide value
//! and a deep one, and the words of `dynamo_tool`.
use crate::purchases::purchase;
use crate::random::Random;
use crate::stopped::Stopped;
use crate::{digest, lines};
use exports::Lines;
use serde_dynamo::{AttributeValue, DynamoJson, Item, to_attribute_value, to_item};
use std::alloc::{AllocError, Global};
use std::fmt::Write;
use tool_commands::run::run;

const SMALL: u64 = 4_000;

const WIDE: u64 = 300;

const LISTED: u64 = 2_000;

const OBJECTS: u64 = 3_000;

/// The digest of a round.
pub fn round(alloc: Global, random: &mut Random) -> Result<u64, Stopped> {
    let digest = small(alloc, random, digest::START)?;
    let digest = wide(alloc, random, digest)?;
    let digest = one_value(alloc, random, digest)?;
    let digest = deep(alloc, random, digest)?;
    by_words(alloc, random, digest)
}

// Small items, each as a text of its own and back, and all in one text.
fn small(alloc: Global, random: &mut Random, mut digest: u64) -> Result<u64, Stopped> {
    let mut all = String::new(alloc);
    for _ in 0..SMALL {
        let (number, age) = (random.below(100_000), random.below(100));
        let text = format!(in alloc;
            "{{\"name\":{{\"S\":\"Name {number}\"}},\"id\":{{\"S\":\"user-{number:05}\"}},\"age\":{{\"N\":\"{age}\"}}}}"
        )?;
        let item = Item::from_json_text(alloc, text.as_str())?;
        digest = digest::item(digest, &item);
        let text = item.to_json_text(alloc)?;
        digest = digest::text(digest, text.as_str());
        item.push_json_text(&mut all)?;
        all.push('\n')?;
    }
    Ok(digest::text(digest, all.as_str()))
}

fn push_item(text: &mut String, item: &Item) -> serde_dynamo::Result<()> {
    item.push_json_text(text)
}

// The items of an export of wide ones, all in one text.
fn wide(alloc: Global, random: &mut Random, digest: u64) -> Result<u64, Stopped> {
    let text = lines::wide(alloc, random, WIDE)?;
    let mut lines = Lines::new(alloc, text.as_bytes());
    let mut all = String::new(alloc);
    for _ in 0..u64::MAX {
        match lines.next_line() {
            Some(Ok(line)) => push_item(&mut all, &line.item)?,
            Some(Err(_broken)) => all.push('!')?,
            None => break,
        }
    }
    Ok(digest::text(digest, all.as_str()))
}

// A list of purchases as one text, and back.
fn one_value(alloc: Global, random: &mut Random, digest: u64) -> Result<u64, Stopped> {
    let mut list = Vec::new(alloc);
    for number in 0..LISTED {
        let by = random.below(1_000);
        list.push(AttributeValue::M(to_item(
            alloc,
            purchase(alloc, random, by, number)?,
        )?.into_inner()))?;
    }
    let text = AttributeValue::L(list).to_json_text(alloc)?;
    let digest = digest::text(digest, text.as_str());
    let value = AttributeValue::from_json_text(alloc, text.as_str())?;
    Ok(digest::value(digest, &value))
}

// Lists in lists and maps in maps, 60 of each, as texts and back.
fn deep(alloc: Global, random: &mut Random, mut digest: u64) -> Result<u64, Stopped> {
    for _ in 0..100 {
        let number = random.next();
        let mut text = String::new(alloc);
        for level in 0..60 {
            write!(
                text,
                "{{\"L\":[{{\"N\":\"{number}\"}},{{\"M\":{{\"level {level}\":"
            )?;
        }
        text.push_str("{\"BOOL\":false}")?;
        for _ in 0..60 {
            text.push_str("}}]}")?;
        }
        match AttributeValue::from_json_text(alloc, text.as_str()) {
            Ok(value) => {
                let text = value.to_json_text(alloc)?;
                digest = digest::text(digest, text.as_str());
            }
            Err(_) => digest = digest::number(digest, 1),
        }
    }
    Ok(digest)
}

// Plain JSON of objects in an array.
fn objects(alloc: Global, random: &mut Random) -> Result<String, AllocError> {
    let mut text = String::new(alloc);
    text.push_str("[null")?;
    for _ in 0..OBJECTS {
        let (one, other) = (random.below(100_000), random.next());
        write!(
            text,
            ",{{\"Authors\":[\"Author {one}\",\"the author of the book {one}\"],\"Id\":{one},\"InPublication\":true,\"Pages\":[[{other}],null,-{one},{{}}],"
        )?;
        write!(
            text,
            "\"Publisher\":{{\"City\":\"Berlin\",\"Name\":\"Publisher {other}\"}},\"Title\":\"Book \\\"{one}\\\"\"}}"
        )?;
    }
    text.push(']')?;
    Ok(text)
}

// What a word of the tool prints of an input.
fn printed(alloc: Global, word: &str, input: &[u8]) -> Result<Vec<u8>, Stopped> {
    let words = vec![in alloc; String::from_str(alloc, word)?]?;
    let mut reader = input;
    let mut output = Vec::new(alloc);
    let status = run(alloc, words.as_slice(), &mut reader, &mut output);
    output.push(status)?;
    Ok(output)
}

// Plain JSON as DynamoDB JSON, that in its compact form, and as plain JSON again.
fn by_words(alloc: Global, random: &mut Random, digest: u64) -> Result<u64, Stopped> {
    let text = objects(alloc, random)?;
    let dynamo = printed(alloc, "dynamo", text.as_bytes())?;
    let digest = digest::bytes(digest, dynamo.as_slice());
    let input = dynamo
        .as_slice()
        .split_last()
        .map(|(_, input)| input)
        .unwrap_or(&[]);
    let checked = printed(alloc, "check", input)?;
    let digest = digest::bytes(digest, checked.as_slice());
    let plain = printed(alloc, "plain", input)?;
    Ok(digest::bytes(digest, plain.as_slice()))
}
