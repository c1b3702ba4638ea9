//! The item that is put.
use crate::key_words::item_refusal;
use crate::refusal::Answer;
use crate::text::Start;
use dynamo_json::DynamoJson;
use dynamo_place::DynamoJsonLocated;
use dynamo_value::Item;
use exports::{Fault, json_of};
use serde_json::Value;
use sqlite::Alter;
use std::alloc::Global;
use table_store::TableStore;

/// The item of a text for a table: DynamoDB JSON of it, alone or under `Item` of an object.
///
/// An object with a member `Item` that has the table's key as it is is an item with an attribute of
/// that name.
///
/// # Errors
///
/// `Input` if the text is no JSON, or no DynamoDB JSON of an item; `TooDeep` if its JSON nests too
/// deep; those of [`item_refusal`].
pub fn item_of_text<S: Alter + Drop>(
    alloc: Global,
    store: &TableStore<S>,
    text: &[u8],
) -> Answer<Item> {
    let json = json_of(alloc, text).map_err(|fault| Start::of_line(1).refusal(text, fault))?;
    let item = read_item(alloc, store, &json)?;
    match store.check(&item) {
        Ok(()) => Ok(item),
        Err(error) => Err(item_refusal(alloc, store.schema(), &item, error)),
    }
}

fn read_item<S: Alter + Drop>(
    alloc: Global,
    store: &TableStore<S>,
    json: &Value,
) -> Result<Item, Fault> {
    let inner = json.get("Item");
    if inner.is_some()
        && let Ok(item) = Item::from_json(alloc, json)
        && store.key_of(&item).is_ok()
    {
        return Ok(item);
    }
    Ok(Item::from_json_located(alloc, inner.unwrap_or(json))?)
}
