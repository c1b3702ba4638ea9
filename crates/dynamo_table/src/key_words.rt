//! Key attributes by their names: what their words say, and what is wrong with a key.

ghost use Rattle.std.specs.Prelude.{Ok, IfOk, option_map};
ghost use Rattle.table_keys.specs.KeyOf.{Says, SaysKey};

use crate::refusal::{Answer, Refusal};
use dynamo_value::{AttributeValue, Item};
use std::alloc::{AllocError, Global};
use table_keys::{Key, KeyAttribute, KeySchema, KeyValue, TableError};
use table_store::StoreError;

/// The key that words say.
///
/// # Errors
///
/// A `Message` that names the attribute, its kind and the word that says no value of it; `Table` if
/// there is a word for a sort key and the table has none, or no memory.
pub fn key_of_words(
    alloc: Global,
    schema: &KeySchema,
    partition: &str,
    sort: Option<&str>,
) -> Answer<Key>
    ensures { IfOk result
        (λ key. SaysKey schema.now partition.now (option_map (λ w. w.now) sort.entry) (Ok key)) }
{
    match schema.key_from(alloc, partition, sort) {
        Ok(key) => Ok(key),
        Err(error) => match (&schema.sort, schema.partition.value_of(alloc, partition)) {
            (Some(attribute), Ok(_)) => {
                Err(refusal_of(alloc, attribute, sort.unwrap_or(""), error))
            }
            _ => Err(refusal_of(alloc, &schema.partition, partition, error)),
        },
    }
}

/// The value of a key attribute that a word says.
///
/// # Errors
///
/// Those of [`key_of_words`].
pub fn value_of_word(alloc: Global, attribute: &KeyAttribute, word: &str) -> Answer<KeyValue>
    ensures { IfOk result (λ value. Says attribute.now.kind word.now (Ok value)) }
{
    match attribute.value_of(alloc, word) {
        Ok(value) => Ok(value),
        Err(error) => Err(refusal_of(alloc, attribute, word, error)),
    }
}

/// Why a table refuses an item: what is wrong with its key, by the name of the attribute.
pub fn item_refusal(alloc: Global, schema: &KeySchema, item: &Item, error: StoreError) -> Refusal {
    let StoreError::Key(error) = error else {
        return Refusal::from(error);
    };
    let attribute = match &schema.sort {
        Some(sort) if schema.partition.value_in(item).is_ok() => sort,
        _ => &schema.partition,
    };
    let text = match item.get(attribute.name.as_str()) {
        Some(AttributeValue::N(text)) => text.as_str(),
        _ => "",
    };
    refusal_of(alloc, attribute, text, error)
}

// Why a key attribute has no value, by its name, its kind and the text that says none.
fn refusal_of(alloc: Global, attribute: &KeyAttribute, text: &str, error: TableError) -> Refusal {
    let name = attribute.name.as_str();
    let kind = attribute.kind.name();
    let wanted = match error {
        TableError::NotBase64 => "base64 text",
        _ => "number",
    };
    Refusal::message(match error {
        TableError::Missing => format!(in alloc; "the key attribute \"{name}\" is missing"),
        TableError::WrongKind => {
            format!(in alloc; "the key attribute \"{name}\" is not of kind {kind}")
        }
        TableError::Empty => format!(in alloc; "the key attribute \"{name}\" is empty"),
        TableError::NotANumber | TableError::NotBase64 => {
            format!(in alloc;
                "\"{text}\" is no {wanted} (the key attribute \"{name}\" is of kind {kind})"
            )
        }
        _ => return Refusal::from(error),
    })
}

/// The words of a table's keys, as `Artist:S Year:N`.
pub fn words_of(alloc: Global, schema: &KeySchema) -> Result<String, AllocError> {
    let mut words = schema.partition.to_word(alloc)?;
    if let Some(sort) = &schema.sort {
        words.push(' ')?;
        words.push_str(sort.to_word(alloc)?.as_str())?;
    }
    Ok(words)
}
