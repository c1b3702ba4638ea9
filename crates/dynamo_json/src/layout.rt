//! How an item that was read from a text lies in memory.

ghost use Rattle.std.specs.Prelude.{◌≡◌, IfOk};
ghost use Rattle.dynamo_value.specs.View.{members_view};

use dynamo_value::AttributeValue;
use std::alloc::{AllocError, Global};
use std::collections::HashMap;

/// The order in which maps are walked, and the capacity of lists.
#[derive(Clone, Copy, Drop)]
pub(crate) enum Layout {
    /// Maps are walked in the order of the text, and lists keep the capacity that they grew to.
    AsRead,

    /// Maps are walked in the order of their names, and lists have no spare capacity, as if a JSON
    /// value had been made of the text.
    ByName,
}

impl Layout {
    /// Returns this map in this layout.
    pub(crate) fn map(
        self,
        alloc: Global,
        map: HashMap<String, AttributeValue>,
    ) -> Result<HashMap<String, AttributeValue>, AllocError>
        ensures { IfOk result (λ m. members_view m.entries ≡ members_view map.entries) }
    {
        match self {
            Layout::AsRead => Ok(map),
            Layout::ByName if map.keys().is_sorted() => Ok(map),
            Layout::ByName => by_name(alloc, map),
        }
    }

    /// Returns this list in this layout. If the smaller allocation fails, the list keeps its own.
    pub(crate) fn list<T>(self, list: Vec<T>) -> Vec<T>
        ensures { result.items ≡ list.items }
    {
        let mut list = list;
        if let Layout::ByName = self {
            list.shrink_to_fit();
        }
        list
    }
}

// A map of the same entries, inserted in the order of their names.
#[inline(never)]
fn by_name(
    alloc: Global,
    map: HashMap<String, AttributeValue>,
) -> Result<HashMap<String, AttributeValue>, AllocError>
    ensures { IfOk result (λ m. members_view m.entries ≡ members_view map.entries) }
{
    let mut entries = Vec::with_capacity(alloc, map.len())?;
    for entry in map {
        entries.push(entry)?;
    }
    entries.sort_unstable_by(|a, b| a.0.cmp(&b.0));
    let mut sorted = HashMap::with_capacity(alloc, entries.len())?;
    for (name, value) in entries {
        drop(sorted.insert(name, value)?);
    }
    Ok(sorted)
}
