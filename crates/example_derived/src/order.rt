//! An order, with a field of each kind.

use serde::{Deserialize, Serialize};
use std::alloc::{AllocError, Global};
use std::collections::HashMap;

/// How an order is delivered.
#[derive(Drop, Serialize, Deserialize)]
pub enum Delivery {
    /// The customer comes for it.
    Pickup,
    /// It is sent, and arrives within some days.
    Express { days: u8 },
}

/// An order.
#[derive(Drop, Serialize, Deserialize)]
#[serde(rename_all = "camelCase")]
pub struct Order {
    /// The identifier of the order.
    pub id: String,
    /// How many articles it has.
    pub item_count: u32,
    /// Some tags, or none if the attribute is missing.
    #[serde(default)]
    pub tags: Vec<String>,
    /// A note, which isn't stored if there is none.
    #[serde(skip_serializing_if = "Option::is_none")]
    pub note: Option<String>,
    /// How many of each article are in stock.
    pub stock: HashMap<String, u64>,
    /// How it is delivered.
    pub delivery: Delivery,
    /// A seal, stored as a byte string.
    #[serde(with = "dynamo_serde::bytes")]
    pub seal: Vec<u8>,
    /// Its lots, stored as a set of numbers.
    #[serde(with = "dynamo_serde::number_set")]
    pub lots: Vec<u64>,
    /// Whether it is paid.
    pub paid: bool,
}

impl Order {
    /// Returns an order with something of each kind.
    ///
    /// # Errors
    ///
    /// Returns [`AllocError`] if memory runs out.
    pub fn new(alloc: Global) -> Result<Order, AllocError> {
        let mut stock = HashMap::new(alloc);
        stock.insert(String::from_str(alloc, "nut")?, 700)?;
        stock.insert(String::from_str(alloc, "bolt")?, 650)?;
        Ok(Order {
            id: String::from_str(alloc, "a1")?,
            item_count: 3,
            tags: vec![in alloc;
                String::from_str(alloc, "x")?,
                String::from_str(alloc, "y")?,
            ]?,
            note: Some(String::from_str(alloc, "n")?),
            stock,
            delivery: Delivery::Express { days: 2 },
            seal: vec![in alloc; 1, 2, 255]?,
            lots: vec![in alloc; 7, 8]?,
            paid: true,
        })
    }
}
