//! A row of a derived type.

use crate::answer::Written;
use crate::line::Line;
use example_derived::Order;
use serde_dynamo::Result;
use std::alloc::Global;

/// An order with a field of each kind, written and read.
pub fn order(alloc: Global, line: &mut Line) -> Result<()> {
    let order = Order::new(alloc)?;
    let value = dynamo_serde::to_attribute_value(alloc, &order)?;
    let written = dynamo_serde::to_attribute_value(alloc, &order);
    line.say("to_attribute_value", written.map(Written));
    let read: Result<Order> = dynamo_serde::from_attribute_value(alloc, value);
    line.say("from_attribute_value", read.map(sizes));
    Ok(())
}

fn sizes(order: Order) -> (u32, usize, usize) {
    (order.item_count, order.tags.len(), order.stock.len())
}
