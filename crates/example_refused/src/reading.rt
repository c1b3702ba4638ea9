//! Rows that read.

use crate::account::Account;
use crate::line::Line;
use crate::values;
use serde_dynamo::de::Deserialize;
use serde_dynamo::{
    ByteBuf, Items, LentDeserializer, Result, from_attribute_value, from_item, from_item_ref,
    from_items, to_attribute_value, to_item,
};
use std::alloc::Global;
use std::fmt::Debug;

/// What an account was written as, by each call that reads.
pub fn account(alloc: Global, line: &mut Line) -> Result<()> {
    let account = Account::new(alloc)?;
    let value = to_attribute_value(alloc, &account)?;
    let item = to_item(alloc, &account)?;
    let items = two_items(alloc, &account)?;
    let is_account = |read: Account| told(read == account);
    let lent = LentDeserializer::from_attribute_value(alloc, &value);
    line.say("lent", Account::deserialize(alloc, lent).map(is_account));
    let read = from_attribute_value(alloc, value);
    line.say("from_attribute_value", read.map(is_account));
    line.say("from_item_ref", from_item_ref(alloc, &item).map(is_account));
    line.say("from_item", from_item(alloc, item).map(is_account));
    let read: Result<Vec<Account>> = from_items(alloc, items);
    let read = read.map(|read| told(are_two(&read, &account)));
    line.say("from_items", read);
    Ok(())
}

fn two_items(alloc: Global, account: &Account) -> Result<Items> {
    let mut maps = Vec::with_capacity(alloc, 2)?;
    for _ in 0..2_u8 {
        maps.push(to_item(alloc, account)?.into_inner())?;
    }
    Ok(Items::from(maps))
}

fn are_two(read: &Vec<Account>, account: &Account) -> bool {
    read.len() == 2 && read.iter().all(|read| read == account)
}

fn told(same: bool) -> &'static str {
    if same {
        "what was written"
    } else {
        "something else"
    }
}

/// A map of two texts: what takes memory to ignore it is the list of its entries.
pub const MAP_OF_TEXTS: &str = r#"{"M":{"a":{"S":"text"},"b":{"S":"another"}}}"#;

/// A value of this DynamoDB JSON, by both readers.
pub fn by_both<T: Deserialize + Debug + Drop>(
    alloc: Global,
    line: &mut Line,
    text: &str,
) -> Result<()> {
    line.say_both::<T>("from_attribute_value", values::value(alloc, text)?);
    Ok(())
}

/// A text and a byte string, which are copied where they are lent.
pub fn texts(alloc: Global, line: &mut Line) -> Result<()> {
    let text = values::value(alloc, r#"{"S":"text"}"#)?;
    let bytes = values::value(alloc, r#"{"B":"AQI="}"#)?;
    line.say_both::<String>("text", text);
    line.say_both::<ByteBuf>("bytes", bytes);
    Ok(())
}
