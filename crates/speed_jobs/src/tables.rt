//! The tests of a service on tables in memory: purchases of some hundred customers, the log of one
//! machine under a single partition key, and users, of whom each has a partition of one item.
use crate::digest::{self, Digested};
use crate::purchase::Purchase;
use crate::purchases;
use crate::random::Random;
use crate::stopped::Stopped;
use dynamo_value::{AttributeValue, Item};
use dynamo_write::to_item;
use serde_dynamo::samples::User;
use std::alloc::{AllocError, Global};
use std::collections::HashMap;
use table_keys::{
    Condition, Key, KeyAttribute, KeyKind, KeySchema, KeyValue, Number, Query, SortCondition,
    TableError,
};
use table_memory::Table;
use table_typed::TypedTable;

const CUSTOMERS: u64 = 120;

const READINGS: u64 = 3_000;

const USERS: u64 = 3_000;

/// The digest of a round.
pub fn round(alloc: Global, random: &mut Random) -> Result<u64, Stopped> {
    let digest = service(alloc, random)?;
    let digest = digest::number(digest, log(alloc, random)?);
    Ok(digest::number(digest, users(alloc, random)?))
}

// Most customers have some purchases, one in twenty has hundreds.
fn service(alloc: Global, random: &mut Random) -> Result<u64, Stopped> {
    let mut table: TypedTable<Purchase> = TypedTable::new(alloc)?;
    let mut keys = Vec::new(alloc);
    let mut digest = digest::START;
    for by in 0..CUSTOMERS {
        let few = random.below(60);
        let count = if by % 20 == 7 { 600 } else { few };
        for _ in 0..count {
            let number = random.below(5_000);
            let purchase = purchases::purchase(alloc, random, by, number)?;
            let key = table.put(&purchase)?;
            if random.is_one_in(3) {
                keys.push(key)?;
            }
        }
    }
    for key in &keys {
        match table.get(key)? {
            Some(purchase) => digest = purchase.digested(digest),
            None => digest = digest::number(digest, 1),
        }
        if random.is_one_in(10) {
            digest = digest::number(digest, u64::from(table.delete(key)));
        }
    }
    for by in 0..CUSTOMERS {
        digest = of_customer(alloc, &table, random, digest, by)?;
    }
    Ok(digest)
}

// What is asked of one customer's purchases: those of a month, the last ten, and all in pages.
fn of_customer(
    alloc: Global,
    table: &TypedTable<Purchase>,
    random: &mut Random,
    mut digest: u64,
    by: u64,
) -> Result<u64, Stopped> {
    let partition = KeyValue::S(purchases::customer(alloc, by)?);
    let month = random.below(12).wrapping_add(1);
    let month = KeyValue::S(format!(in alloc; "order#2024-{month:02}")?);
    let mut query = Query::of(&partition);
    query.sort = SortCondition::BeginsWith(&month);
    for purchase in &table.query(&query)? {
        digest = purchase.digested(digest);
    }
    let mut query = Query::of(&partition);
    query.backward = true;
    query.limit = 10;
    for purchase in &table.query(&query)? {
        digest = purchase.digested(digest);
    }
    in_pages(alloc, table.items(), &partition, digest)
}

// All items of a partition, read in pages of 25.
fn in_pages<'a>(
    alloc: Global,
    table: &'a Table,
    partition: &'a KeyValue,
    mut digest: u64,
) -> Result<u64, Stopped> {
    let mut last: Option<&'a Key> = None;
    for _ in 0..u32::MAX {
        let query = Query {
            partition,
            sort: SortCondition::Any,
            backward: false,
            limit: 25,
            start_after: last,
        };
        let page = table.query(alloc, &query)?;
        for (_, item) in page.iter() {
            digest = digest::item(digest, *item);
        }
        match page.last() {
            Some((key, _)) => last = Some(*key),
            None => break,
        }
    }
    Ok(digest)
}

fn text_of(alloc: Global, text: &str) -> Result<AttributeValue, AllocError> {
    Ok(AttributeValue::S(String::from_str(alloc, text)?))
}

/// An attribute value of a number.
pub fn number_of(alloc: Global, number: u64) -> Result<AttributeValue, AllocError> {
    Ok(AttributeValue::N(format!(in alloc; "{number}")?))
}

// A reading at a second.
fn reading(alloc: Global, at: u64, value: u64, note: &str) -> Result<Item, AllocError> {
    let mut map = HashMap::new(alloc);
    drop(map.insert(
        String::from_str(alloc, "machine")?,
        text_of(alloc, "press-7")?,
    )?);
    drop(map.insert(String::from_str(alloc, "at")?, number_of(alloc, at)?)?);
    drop(map.insert(String::from_str(alloc, "value")?, number_of(alloc, value)?)?);
    drop(map.insert(String::from_str(alloc, "note")?, text_of(alloc, note)?)?);
    Ok(Item::from(map))
}

fn attribute(alloc: Global, name: &str, kind: KeyKind) -> Result<KeyAttribute, AllocError> {
    Ok(KeyAttribute {
        name: String::from_str(alloc, name)?,
        kind,
    })
}

/// The value of a sort key of a second.
pub fn second(alloc: Global, at: u64) -> Result<KeyValue, TableError> {
    let text = format!(in alloc; "{at}")?;
    match Number::parse(text.as_str()) {
        Some(number) => Ok(KeyValue::N(number)),
        None => Err(TableError::NotANumber),
    }
}

// How a call on the table ended that puts an item.
fn ended(digest: u64, answer: &Result<Option<Item>, TableError>) -> u64 {
    match answer {
        Ok(Some(item)) => digest::item(digest, item),
        Ok(None) => digest::number(digest, 1),
        Err(_) => digest::number(digest, 2),
    }
}

// The readings of one machine by their seconds: put where there are none, changed, and looked at in
// windows and from the end.
fn log(alloc: Global, random: &mut Random) -> Result<u64, Stopped> {
    let partition = attribute(alloc, "machine", KeyKind::S)?;
    let sort = Some(attribute(alloc, "at", KeyKind::N)?);
    let mut table = Table::new(alloc, KeySchema { partition, sort });
    let mut digest = digest::START;
    let from = 1_700_000_000;
    for _ in 0..READINGS {
        let at = random.below(20_000).wrapping_add(from);
        let item = reading(alloc, at, random.below(1_000), "as it came")?;
        digest = ended(digest, &table.put_if(Condition::NotExists, item));
    }
    for _ in 0..READINGS {
        let at = random.below(20_000).wrapping_add(from);
        let key = table.key_of(&reading(alloc, at, 0, "")?)?;
        let value = random.below(1_000);
        let answer: Result<(), TableError> = table.update(
            &key,
            |_| Ok(reading(alloc, at, value, "changed")?),
        );
        digest = digest::number(digest, u64::from(answer.is_ok()));
    }
    let partition = KeyValue::S(String::from_str(alloc, "press-7")?);
    for place in 0..300 {
        let at = random.below(20_000).wrapping_add(from);
        let (low, high) = (second(alloc, at)?, second(alloc, at.wrapping_add(200))?);
        let mut query = Query::of(&partition);
        query.sort = SortCondition::Between(&low, &high);
        query.backward = place % 2 == 0;
        query.limit = 20;
        for (_, item) in table.query(alloc, &query)?.iter() {
            digest = digest::item(digest, *item);
        }
    }
    let digest = in_pages(alloc, &table, &partition, digest)?;
    scanned(alloc, &table, digest)
}

// All items of a table, read in pages of 25 by a scan.
fn scanned(alloc: Global, table: &Table, mut digest: u64) -> Result<u64, Stopped> {
    for (_, item) in table.scan_all(alloc, 25)?.iter() {
        digest = digest::item(digest, *item);
    }
    Ok(digest)
}

// Users under their names: put, got, asked for, and taken out.
fn users(alloc: Global, random: &mut Random) -> Result<u64, Stopped> {
    let partition = attribute(alloc, "id", KeyKind::S)?;
    let mut table = Table::new(
        alloc,
        KeySchema {
            partition,
            sort: None,
        },
    );
    let mut digest = digest::START;
    for place in 0..USERS {
        let number = random.below(100_000);
        let user = User {
            id: format!(in alloc; "user-{number:05}")?,
            name: format!(in alloc; "the user of the place {place}")?,
            age: (place % 100) as u8,
        };
        digest = ended(digest, &table.put(to_item(alloc, &user)?));
    }
    for place in 0..USERS {
        let number = random.below(100_000);
        let partition = KeyValue::S(format!(in alloc; "user-{number:05}")?);
        if place % 16 == 0 {
            for (_, item) in table.query(alloc, &Query::of(&partition))?.iter() {
                digest = digest::item(digest, *item);
            }
        }
        let key = Key {
            partition,
            sort: None,
        };
        if let Some(item) = table.get(&key) {
            digest = digest::item(digest, item);
        }
        digest = ended(digest, &table.delete_if(Condition::Exists, &key));
    }
    scanned(alloc, &table, digest)
}
