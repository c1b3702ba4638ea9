//! Tables in a database in memory: purchases that are loaded in transactions, got, asked for and
//! read in pages, and users of a table of one type.
use crate::digest::{self, Digested};
use crate::purchase::Purchase;
use crate::purchases::{self, purchase};
use crate::random::Random;
use crate::stopped::Stopped;
use serde_dynamo::{DynamoJson, Item, to_item};
use sqlite::{Connection, MemStore};
use std::alloc::Global;
use table_keys::{Condition, Key, KeyValue, Query, SortCondition};
use table_store::{TableStore, create_in_memory};
use table_typed::Keyed;
use table_typed_store::TypedStore;

const BATCHES: u64 = 8;

const PAGE: usize = 500;

const CUSTOMERS: u64 = 100;

/// The digest of a round.
pub fn round(alloc: Global, random: &mut Random) -> Result<u64, Stopped> {
    let mut store = create_in_memory(alloc, "purchases", Purchase::key_schema(alloc)?)?;
    for _ in 0..BATCHES {
        store.write_all(batch(alloc, random)?.as_slice())?;
    }
    let digest = exported(alloc, &mut store)?;
    let digest = looked_up(alloc, &mut store, random, digest)?;
    typed(alloc, random, digest)
}

// Items of one transaction.
fn batch(alloc: Global, random: &mut Random) -> Result<Vec<Item>, Stopped> {
    let mut items = Vec::with_capacity(alloc, PAGE)?;
    for _ in 0..PAGE {
        let (by, number) = (random.below(CUSTOMERS), random.below(5_000));
        items.push(to_item(alloc, purchase(alloc, random, by, number)?)?)?;
    }
    Ok(items)
}

// All items, page by page, as the text of an export.
fn exported(alloc: Global, store: &mut TableStore<MemStore>) -> Result<u64, Stopped> {
    let mut digest = digest::START;
    let mut last: Option<Key> = None;
    for _ in 0..u32::MAX {
        let page = store.scan(PAGE, last.as_ref())?;
        let mut text = String::new(alloc);
        for item in &page {
            item.push_json_text(&mut text)?;
            text.push('\n')?;
        }
        digest = digest::text(digest, text.as_str());
        match page.last() {
            Some(item) => last = Some(store.key_of(item)?),
            None => break,
        }
    }
    Ok(digest)
}

// What each customer bought in a month, and some purchases by their keys, of which some are put and
// taken out again.
fn looked_up(
    alloc: Global,
    store: &mut TableStore<MemStore>,
    random: &mut Random,
    mut digest: u64,
) -> Result<u64, Stopped> {
    for by in 0..CUSTOMERS {
        let partition = KeyValue::S(purchases::customer(alloc, by)?);
        let month = random.below(12).wrapping_add(1);
        let month = KeyValue::S(format!(in alloc; "order#2024-{month:02}")?);
        let mut query = Query::of(&partition);
        query.sort = SortCondition::BeginsWith(&month);
        for item in &store.query(&query)? {
            digest = digest::item(digest, item);
        }
        for _ in 0..10 {
            let number = random.below(5_000);
            let item = to_item(alloc, purchase(alloc, random, by, number)?)?;
            let key = store.key_of(&item)?;
            if let Some(item) = store.get(&key)? {
                digest = digest::item(digest, &item);
            }
            if random.is_one_in(4) {
                let answer = store.put_if(Condition::NotExists, &item);
                digest = digest::number(digest, u64::from(answer.is_ok()));
            }
        }
    }
    Ok(digest)
}

// A table of purchases in a database of its own: each is put, got and asked for.
fn typed(alloc: Global, random: &mut Random, mut digest: u64) -> Result<u64, Stopped> {
    let conn = Connection::open_in_memory(alloc)?;
    let mut store: TypedStore<Purchase, MemStore> = TypedStore::create(alloc, conn, "typed")?;
    for by in 0..20 {
        for number in 0..20 {
            let key = store.put(&purchase(alloc, random, by, number)?)?;
            if let Some(found) = store.get(&key)? {
                digest = found.digested(digest);
            }
        }
        let partition = KeyValue::S(purchases::customer(alloc, by)?);
        for found in &store.query(&Query::of(&partition))? {
            digest = found.digested(digest);
        }
    }
    Ok(digest)
}
