//! Records in and out: purchases, which are described, one by one, as items of a batch and as a
//! list; users; and orders, which derive serde's traits.
use crate::digest::{self, Digested};
use crate::purchase::Purchase;
use crate::purchases::purchase;
use crate::random::Random;
use crate::stopped::Stopped;
use example_derived::{Delivery, Order};
use serde_dynamo::samples::User;
use serde_dynamo::{
    Items, from_attribute_value, from_item, from_items, to_attribute_value, to_item,
};
use std::alloc::{AllocError, Global};
use std::collections::HashMap;

const PURCHASES: u64 = 3_000;

const USERS: u64 = 10_000;

const ORDERS: u64 = 2_000;

/// The digest of a round.
pub fn round(alloc: Global, random: &mut Random) -> Result<u64, Stopped> {
    let digest = bought(alloc, random, digest::START)?;
    let digest = batch(alloc, random, digest)?;
    let digest = listed(alloc, random, digest)?;
    let digest = users(alloc, random, digest)?;
    orders(alloc, random, digest)
}

// Each purchase as an item, and back.
fn bought(alloc: Global, random: &mut Random, mut digest: u64) -> Result<u64, Stopped> {
    for number in 0..PURCHASES {
        let by = random.below(1_000);
        let item = to_item(alloc, purchase(alloc, random, by, number)?)?;
        digest = digest::item(digest, &item);
        let read: Purchase = from_item(alloc, item)?;
        digest = read.digested(digest);
    }
    Ok(digest)
}

fn purchases(alloc: Global, random: &mut Random) -> Result<Vec<Purchase>, AllocError> {
    let mut purchases = Vec::new(alloc);
    for number in 0..PURCHASES {
        let by = random.below(1_000);
        purchases.push(purchase(alloc, random, by, number)?)?;
    }
    Ok(purchases)
}

// The items of a batch, and the purchases of all of them.
fn batch(alloc: Global, random: &mut Random, mut digest: u64) -> Result<u64, Stopped> {
    let mut maps = Vec::new(alloc);
    for purchase in &purchases(alloc, random)? {
        maps.push(to_item(alloc, purchase)?.into_inner())?;
    }
    let read: Vec<Purchase> = from_items(alloc, Items::from(maps))?;
    for purchase in &read {
        digest = purchase.digested(digest);
    }
    Ok(digest)
}

// A list of purchases as one attribute value, and back.
fn listed(alloc: Global, random: &mut Random, digest: u64) -> Result<u64, Stopped> {
    let list = purchases(alloc, random)?;
    let value = to_attribute_value(alloc, &list)?;
    let mut digest = digest::value(digest, &value);
    let read: Vec<Purchase> = from_attribute_value(alloc, value)?;
    for purchase in &read {
        digest = purchase.digested(digest);
    }
    Ok(digest)
}

fn users(alloc: Global, random: &mut Random, mut digest: u64) -> Result<u64, Stopped> {
    for place in 0..USERS {
        let number = random.below(100_000);
        let user = User {
            id: format!(in alloc; "user-{number:05}")?,
            name: format!(in alloc; "the user of the place {place}")?,
            age: (place % 100) as u8,
        };
        let read: User = from_item(alloc, to_item(alloc, user)?)?;
        digest = read.digested(digest);
    }
    Ok(digest)
}

impl Digested for Order {
    fn digested(&self, digest: u64) -> u64 {
        let digest = digest::text(digest, self.id.as_str());
        let mut digest = digest::number(digest, u64::from(self.item_count));
        for tag in &self.tags {
            digest = digest::text(digest, tag.as_str());
        }
        if let Some(note) = &self.note {
            digest = digest::text(digest, note.as_str());
        }
        let mut sum: u64 = 0;
        for (name, count) in &self.stock {
            sum = sum.wrapping_add(digest::number(digest::text(digest, name.as_str()), *count));
        }
        digest = digest::number(digest, sum);
        match self.delivery {
            Delivery::Pickup => digest = digest::number(digest, 1),
            Delivery::Express { days } => digest = digest::number(digest, u64::from(days)),
        }
        digest = digest::bytes(digest, self.seal.as_slice());
        for lot in &self.lots {
            digest = digest::number(digest, *lot);
        }
        digest::number(digest, u64::from(self.paid))
    }
}

fn order(alloc: Global, random: &mut Random, number: u64) -> Result<Order, AllocError> {
    let mut stock = HashMap::new(alloc);
    for place in 0..random.below(4) {
        drop(stock.insert(format!(in alloc; "bolt {place}")?, random.next())?);
    }
    let mut tags = Vec::new(alloc);
    for place in 0..random.below(4) {
        tags.push(format!(in alloc; "tag {place} of {number}")?)?;
    }
    let mut lots = Vec::new(alloc);
    for place in 1..random.below(4).wrapping_add(2) {
        lots.push(number.wrapping_mul(place))?;
    }
    let note = if random.is_one_in(2) {
        Some(format!(in alloc; "the note of the order {number}")?)
    } else {
        None
    };
    let days = u8::try_from(random.below(100)).unwrap_or(0);
    Ok(Order {
        id: format!(in alloc; "order-{number:06}")?,
        item_count: u32::try_from(random.below(1_000)).unwrap_or(0),
        tags,
        note,
        stock,
        delivery: if days < 50 {
            Delivery::Pickup
        } else {
            Delivery::Express { days }
        },
        seal: vec![in alloc; days, 2, 255]?,
        lots,
        paid: random.is_one_in(2),
    })
}

// Each order as an item, and back.
fn orders(alloc: Global, random: &mut Random, mut digest: u64) -> Result<u64, Stopped> {
    for number in 0..ORDERS {
        let order = order(alloc, random, number)?;
        let item = dynamo_serde::to_item(alloc, &order)?;
        digest = digest::item(digest, &item);
        let read: Order = dynamo_serde::from_item(alloc, item)?;
        digest = read.digested(digest);
    }
    Ok(digest)
}
