// What is open while an attribute value is being built.
ghost use Rattle.std.specs.Prelude.{◌≡◌, string_bytes, Some, OnOk};
ghost use Rattle.std.specs.FinMap.Entries.{put as put_entry};
ghost use Rattle.dynamo_value.specs.View.{view, entries_view, text_cmp};
ghost use Rattle.dynamo_serde.specs.Sent.{put_in, key_in, symbol_in};
ghost use Rattle.dynamo_serde.specs.SymbolOf.{symbol_of};
ghost use Rattle.dynamo_serde.specs.Building.{frame};

use crate::fault::fault;
use crate::symbol::{Symbol, converted};
use dynamo_value::{AttributeValue, Error, ErrorImpl, Result};
use std::alloc::Global;
use std::collections::HashMap;

// What is being built: the whole, a list, a map, or the content of a symbol in the place of a map.
#[derive(Drop)]
pub(crate) enum Open {
    Whole(Option<AttributeValue>),
    List(Vec<AttributeValue>),
    Map(OpenMap),
    Marked(Symbol, Option<AttributeValue>),
}

#[derive(Drop)]
pub(crate) struct OpenMap {
    pub(crate) entries: HashMap<String, AttributeValue>,
    // The key that waits for its value.
    pub(crate) key: Option<String>,
    // How many maps are open whose members go into this one.
    pub(crate) shared: usize,
}

fn insert(
    entries: &mut HashMap<String, AttributeValue>,
    key: String,
    value: AttributeValue,
) -> Result<()>
    ensures { OnOk result
        (entries_view entries.new.entries
        ≡ put_entry text_cmp (string_bytes key) (view value) (entries_view entries.old.entries)) }
{
    match entries.insert(key, value) {
        Ok(_) => Ok(()),
        Err(error) => Err(Error::from(error)),
    }
}

impl Open {
    pub(crate) fn put(&mut self, alloc: Global, value: AttributeValue) -> Result<()>
        ensures { OnOk result (put_in (frame self.old) (view value) ≡ Some (frame self.new)) }
    {
        match self {
            Open::Whole(whole) => {
                *whole = Some(value);
                Ok(())
            }
            Open::List(items) => {
                items.push(value)?;
                Ok(())
            }
            Open::Map(map) => match map.key.take() {
                Some(key) => insert(&mut map.entries, key, value),
                None => Err(fault(ErrorImpl::SerializeMapValueBeforeKey)),
            },
            Open::Marked(symbol, slot) => {
                *slot = Some(converted(alloc, *symbol, value)?);
                Ok(())
            }
        }
    }

    // How many lists and maps are open with this one, where a symbol counts for one map and its
    // content.
    pub(crate) fn levels_after(&self, levels: usize) -> usize {
        match self {
            Open::Whole(_) => levels,
            Open::List(_) | Open::Map(_) => levels.saturating_add(1),
            Open::Marked(_, _) => levels.saturating_sub(1),
        }
    }

    pub(crate) fn set_key(&mut self, key: String) -> Result<()>
        ensures { OnOk result (key_in (frame self.old) (string_bytes key) ≡ Some (frame self.new)) }
    {
        match self {
            Open::Map(map) => {
                map.key = Some(key);
                Ok(())
            }
            _ => Err(fault(ErrorImpl::ExpectedMap)),
        }
    }

    // A map without members becomes what this symbol says.
    pub(crate) fn set_symbol(&mut self, symbol: Symbol) -> Result<()>
        ensures { OnOk result
            (symbol_in (frame self.old) (symbol_of symbol) ≡ Some (frame self.new)) }
    {
        let is_fresh = match self {
            Open::Map(map) => map.shared == 0 && map.entries.is_empty(),
            _ => false,
        };
        if !is_fresh {
            return Err(fault(ErrorImpl::NotSetlike));
        }
        *self = Open::Marked(symbol, None);
        Ok(())
    }
}
