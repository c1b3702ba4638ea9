//! Purchases that are made up.
use crate::purchase::Purchase;
use crate::random::Random;
use example_described::{Address, Shipment};
use std::alloc::{AllocError, Global};

/// The value of the partition key of a customer.
pub fn customer(alloc: Global, number: u64) -> Result<String, AllocError> {
    format!(in alloc; "customer-{number:06}")
}

/// The value of the sort key of the purchase of a number: 17 of each day.
pub fn placed(alloc: Global, number: u64) -> Result<String, AllocError> {
    let (day, place) = (number / 17, number % 17);
    let (month, day) = (day / 28 % 12, day % 28);
    format!(in alloc;
        "order#2024-{:02}-{:02}#{place:02}",
        month.wrapping_add(1),
        day.wrapping_add(1)
    )
}

/// One of some twenty cities.
pub fn city(random: &mut Random) -> &'static str {
    match random.below(8) {
        0 => "Berlin",
        1 => "São Paulo",
        2 => "Reykjavík",
        3 => "Ho Chi Minh City",
        4 => "Llanfairpwllgwyngyll",
        5 => "Rome",
        6 => "New York",
        _ => "東京",
    }
}

fn address(alloc: Global, random: &mut Random) -> Result<Address, AllocError> {
    let zip = u32::try_from(random.below(100_000)).unwrap_or(0);
    Ok(Address {
        city: String::from_str(alloc, city(random))?,
        zip: if random.is_one_in(4) { None } else { Some(zip) },
    })
}

fn shipment(alloc: Global, random: &mut Random) -> Result<Shipment, AllocError> {
    let number = random.below(1_000_000_000);
    match random.below(4) {
        0 => Ok(Shipment::Waiting),
        1 => Ok(Shipment::Tracked(format!(in alloc; "1Z999AA{number:09}")?)),
        2 => Ok(Shipment::Between((number % 100) as u8, 7)),
        _ => Ok(Shipment::Delivered {
            at: number,
            to: address(alloc, random)?,
        }),
    }
}

fn articles(alloc: Global, random: &mut Random) -> Result<Vec<String>, AllocError> {
    let mut articles = Vec::new(alloc);
    for _ in 0..random.below(6) {
        let number = random.below(10_000);
        articles.push(format!(in alloc; "article {number}")?)?;
    }
    Ok(articles)
}

/// A purchase of a customer under the sort key of a number.
pub fn purchase(
    alloc: Global,
    random: &mut Random,
    by: u64,
    number: u64,
) -> Result<Purchase, AllocError> {
    let note = if random.is_one_in(3) {
        let floor = random.below(30);
        Some(format!(in alloc; "please ring twice, \"{floor}th\" floor")?)
    } else {
        None
    };
    Ok(Purchase {
        customer: customer(alloc, by)?,
        placed: placed(alloc, number)?,
        amount: random.below(1_000_000),
        note,
        articles: articles(alloc, random)?,
        shipment: shipment(alloc, random)?,
        home: address(alloc, random)?,
    })
}
