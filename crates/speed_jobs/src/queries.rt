//! Queries, and no more than the puts before them: of tables in memory, and of smaller ones in a
//! database. A table has the readings of some sensors by their seconds, or the orders of one
//! customer with thousands among customers with two each.
use crate::random::Random;
use crate::stopped::Stopped;
use crate::tables::{number_of, second};
use crate::{digest, purchases};
use dynamo_value::{AttributeValue, Item};
use std::alloc::{AllocError, Global};
use std::collections::HashMap;
use table_keys::{Key, KeySchema, KeyValue, Query, SortCondition};
use table_memory::Table;
use table_store::{MemoryPages, TableStore, create_in_memory_file};

const READINGS_KEYS: [&str; 2] = ["of:S", "at:N"];

const ORDERS_KEYS: [&str; 2] = ["of:S", "at:S"];

// The second of a sensor's first reading, and how many seconds lie between two.
const FIRST: u64 = 1_700_000_000;

const APART: u64 = 30;

// Into how many months the orders of the large customer fall.
const MONTHS: u64 = 9;

// How many items a page has.
const PAGE: usize = 25;

// How much there is of what.
#[derive(Clone, Copy)]
struct Sizes {
    sensors: u64,
    readings: u64,

    // The orders of the large customer, each so many numbers after the one before.
    orders: u64,
    step: u64,

    // The customers with two orders.
    customers: u64,

    // How often each query is asked.
    times: u64,
}

const IN_MEMORY: Sizes = Sizes {
    sensors: 4,
    readings: 2_500,
    orders: 4_000,
    step: 1,
    customers: 3_000,
    times: 40,
};

const IN_DATABASE: Sizes = Sizes {
    sensors: 2,
    readings: 250,
    orders: 500,
    step: 8,
    customers: 200,
    times: 4,
};

// A table that is filled and then asked.
trait Asked {
    // Puts items.
    fn put_all(&mut self, items: Vec<Item>) -> Result<(), Stopped>;

    // The digest with the items that a query finds, and the key of the last.
    fn ask(
        &mut self,
        alloc: Global,
        query: &Query<'_>,
        digest: u64,
    ) -> Result<(u64, Option<Key>), Stopped>;
}

impl Asked for Table {
    fn put_all(&mut self, items: Vec<Item>) -> Result<(), Stopped> {
        for item in items {
            drop(self.put(item)?);
        }
        Ok(())
    }

    fn ask(
        &mut self,
        alloc: Global,
        query: &Query<'_>,
        mut digest: u64,
    ) -> Result<(u64, Option<Key>), Stopped> {
        let found = self.query(alloc, query)?;
        for (_, item) in found.iter() {
            digest = digest::item(digest, *item);
        }
        match found.last() {
            Some((_, item)) => Ok((digest, Some(self.key_of(*item)?))),
            None => Ok((digest, None)),
        }
    }
}

// The table in a database that is asked.
type Database = TableStore<MemoryPages>;

impl Asked for Database {
    fn put_all(&mut self, items: Vec<Item>) -> Result<(), Stopped> {
        self.write_all(items.as_slice())?;
        Ok(())
    }

    fn ask(
        &mut self,
        _alloc: Global,
        query: &Query<'_>,
        mut digest: u64,
    ) -> Result<(u64, Option<Key>), Stopped> {
        let found = self.query(query)?;
        for item in &found {
            digest = digest::item(digest, item);
        }
        match found.last() {
            Some(item) => Ok((digest, Some(self.key_of(item)?))),
            None => Ok((digest, None)),
        }
    }
}

// A table without items in a database.
fn database(alloc: Global, keys: &[&str]) -> Result<Database, Stopped> {
    Ok(create_in_memory_file(alloc, "asked", KeySchema::parse(alloc, keys)?)?)
}

/// The digest of a round.
pub fn round(alloc: Global, random: &mut Random) -> Result<u64, Stopped> {
    let mut table = Table::new(alloc, KeySchema::parse(alloc, &READINGS_KEYS)?);
    let digest = of_readings(alloc, &mut table, random, IN_MEMORY, digest::START)?;
    let mut table = Table::new(alloc, KeySchema::parse(alloc, &ORDERS_KEYS)?);
    let digest = of_orders(alloc, &mut table, random, IN_MEMORY, digest)?;
    let mut table = database(alloc, &READINGS_KEYS)?;
    let digest = of_readings(alloc, &mut table, random, IN_DATABASE, digest)?;
    let mut table = database(alloc, &ORDERS_KEYS)?;
    of_orders(alloc, &mut table, random, IN_DATABASE, digest)
}

// An item under two key values.
fn item(
    alloc: Global,
    of: String,
    at: AttributeValue,
    random: &mut Random,
) -> Result<Item, AllocError> {
    let value = number_of(alloc, random.below(1_000))?;
    let mut map = HashMap::new(alloc);
    drop(map.insert(String::from_str(alloc, "of")?, AttributeValue::S(of))?);
    drop(map.insert(String::from_str(alloc, "at")?, at)?);
    drop(map.insert(String::from_str(alloc, "value")?, value)?);
    Ok(Item::from(map))
}

fn sensor(alloc: Global, number: u64) -> Result<String, AllocError> {
    format!(in alloc; "sensor-{number:02}")
}

// The second of a reading.
fn at(place: u64) -> u64 {
    FIRST.wrapping_add(place.wrapping_mul(APART))
}

// All readings of a sensor.
fn readings(
    alloc: Global,
    random: &mut Random,
    number: u64,
    count: u64,
) -> Result<Vec<Item>, Stopped> {
    let mut items = Vec::new(alloc);
    for place in 0..count {
        let at = number_of(alloc, at(place))?;
        items.push(item(alloc, sensor(alloc, number)?, at, random)?)?;
    }
    Ok(items)
}

// The first item from one end of a partition, or of those under a prefix.
fn first_from<'a, T: Asked>(
    alloc: Global,
    table: &mut T,
    partition: &'a KeyValue,
    prefix: &'a Option<KeyValue>,
    backward: bool,
    digest: u64,
) -> Result<u64, Stopped> {
    let query = Query {
        partition,
        sort: beginning(prefix),
        backward,
        limit: 1,
        start_after: None,
    };
    Ok(table.ask(alloc, &query, digest)?.0)
}

// All items of a partition, or those under a prefix, in pages from one end.
fn in_pages<'a, T: Asked>(
    alloc: Global,
    table: &mut T,
    partition: &'a KeyValue,
    prefix: &'a Option<KeyValue>,
    backward: bool,
    mut digest: u64,
) -> Result<u64, Stopped> {
    let mut last: Option<Key> = None;
    for _ in 0..u32::MAX {
        let query = Query {
            partition,
            sort: beginning(prefix),
            backward,
            limit: PAGE,
            start_after: last.as_ref(),
        };
        let (with_page, end) = table.ask(alloc, &query, digest)?;
        digest = with_page;
        if end.is_none() {
            break;
        }
        last = end;
    }
    Ok(digest)
}

// The condition that a sort key begins with a prefix, if there is one.
fn beginning(prefix: &Option<KeyValue>) -> SortCondition<'_> {
    match prefix {
        Some(prefix) => SortCondition::BeginsWith(prefix),
        None => SortCondition::Any,
    }
}

// At most ten readings of a window of twenty, from one end, of those after a key where there is
// one.
fn in_window<T: Asked>(
    alloc: Global,
    table: &mut T,
    sensor: &KeyValue,
    from: u64,
    backward: bool,
    start: &Option<Key>,
    digest: u64,
) -> Result<u64, Stopped> {
    let low = second(alloc, at(from))?;
    let high = second(alloc, at(from.wrapping_add(20)))?;
    let query = Query {
        partition: sensor,
        sort: SortCondition::Between(&low, &high),
        backward,
        limit: 10,
        start_after: start.as_ref(),
    };
    Ok(table.ask(alloc, &query, digest)?.0)
}

// The key of a sensor's reading.
fn key_of(alloc: Global, number: u64, place: u64) -> Result<Key, Stopped> {
    Ok(Key {
        partition: KeyValue::S(sensor(alloc, number)?),
        sort: Some(second(alloc, at(place))?),
    })
}

// What is asked of readings.
fn of_readings<T: Asked>(
    alloc: Global,
    table: &mut T,
    random: &mut Random,
    sizes: Sizes,
    mut digest: u64,
) -> Result<u64, Stopped> {
    for number in 0..sizes.sensors {
        table.put_all(readings(alloc, random, number, sizes.readings)?)?;
    }
    for number in 0..sizes.sensors {
        digest = of_sensor(alloc, table, random, sizes, number, digest)?;
    }
    Ok(digest)
}

// What is asked of a sensor's readings: the latest, some of a window from its end, and after the
// first or before the last of all readings, and all in pages from both ends.
fn of_sensor<T: Asked>(
    alloc: Global,
    table: &mut T,
    random: &mut Random,
    sizes: Sizes,
    number: u64,
    mut digest: u64,
) -> Result<u64, Stopped> {
    let first = Some(key_of(alloc, number, 0)?);
    let last = Some(key_of(alloc, number, sizes.readings)?);
    let sensor = KeyValue::S(sensor(alloc, number)?);
    for _ in 0..sizes.times {
        digest = first_from(alloc, table, &sensor, &None, true, digest)?;
        let from = random.below(sizes.readings);
        digest = in_window(alloc, table, &sensor, from, true, &None, digest)?;
        digest = in_window(alloc, table, &sensor, from, false, &first, digest)?;
        digest = in_window(alloc, table, &sensor, from, true, &last, digest)?;
    }
    digest = in_pages(alloc, table, &sensor, &None, false, digest)?;
    in_pages(alloc, table, &sensor, &None, true, digest)
}

// An order of a customer.
fn order(alloc: Global, random: &mut Random, by: u64, number: u64) -> Result<Item, AllocError> {
    let at = AttributeValue::S(purchases::placed(alloc, number)?);
    item(alloc, purchases::customer(alloc, by)?, at, random)
}

// The orders of all customers, of whom one has many.
fn orders(
    alloc: Global,
    random: &mut Random,
    sizes: Sizes,
    large: u64,
) -> Result<Vec<Item>, Stopped> {
    let mut items = Vec::new(alloc);
    for place in 0..sizes.orders {
        let number = place.wrapping_mul(sizes.step);
        items.push(order(alloc, random, large, number)?)?;
    }
    for by in 0..sizes.customers {
        if by != large {
            for from in [0, 2_000] {
                let number = random.below(2_000).wrapping_add(from);
                items.push(order(alloc, random, by, number)?)?;
            }
        }
    }
    Ok(items)
}

// What the orders of a month begin with.
fn month(alloc: Global, number: u64) -> Result<KeyValue, AllocError> {
    Ok(KeyValue::S(format!(in alloc; "order#2024-{number:02}")?))
}

// What is asked of orders: the newest of a month, those of the months at the ends of many orders
// from the other end, many in pages, and one of each customer.
fn of_orders<T: Asked>(
    alloc: Global,
    table: &mut T,
    random: &mut Random,
    sizes: Sizes,
    mut digest: u64,
) -> Result<u64, Stopped> {
    let large = sizes.customers / 2;
    table.put_all(orders(alloc, random, sizes, large)?)?;
    let partition = KeyValue::S(purchases::customer(alloc, large)?);
    let (first, last) = (Some(month(alloc, 1)?), Some(month(alloc, MONTHS)?));
    for _ in 0..sizes.times {
        let some = Some(month(alloc, random.below(MONTHS).wrapping_add(1))?);
        digest = first_from(alloc, table, &partition, &some, true, digest)?;
        digest = first_from(alloc, table, &partition, &first, true, digest)?;
        digest = first_from(alloc, table, &partition, &last, false, digest)?;
    }
    digest = in_pages(alloc, table, &partition, &last, true, digest)?;
    digest = in_pages(alloc, table, &partition, &None, true, digest)?;
    for by in 0..sizes.customers {
        let partition = KeyValue::S(purchases::customer(alloc, by)?);
        digest = first_from(alloc, table, &partition, &None, by % 2 == 0, digest)?;
    }
    Ok(digest)
}
