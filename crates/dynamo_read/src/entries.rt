ghost use Rattle.std.specs.Prelude.{◌≡◌, ◌≤◌, [], length};
ghost use Rattle.std.specs.List.{IsDistinct};
ghost use Rattle.std.specs.Map.{keys_of};
ghost use Rattle.std.specs.String.{string_eq};
ghost use Rattle.std.specs.Vec.{vec_capacity};
ghost use Rattle.dynamo_value.specs.Entries.{seen_entries};
ghost use Rattle.dynamo_value.specs.View.{entries_view, members_view};
ghost use Rattle.dynamo_read.specs.Single.{IsLentSingle, IsSingle};

use dynamo_value::{AttributeValue, Error, ErrorImpl, Result};
use std::collections::HashMap;

// The entries of a map in ascending order of the bytes of their keys, put into a list that has room
// for them.
pub(crate) fn sorted(
    map: HashMap<String, AttributeValue>,
    mut list: Vec<(String, AttributeValue)>,
) -> Vec<(String, AttributeValue)>
    requires empty { list.items ≡ [] }
    requires room { length map.entries ≤ vec_capacity list }
    requires distinct { IsDistinct string_eq (keys_of map.entries) }
    ensures { seen_entries result.items ≡ entries_view map.entries }
{
    for entry in map {
        list.push_reserved(entry);
    }
    list.sort_unstable_by(|a, b| a.0.cmp(&b.0));
    list
}

// The one key of the map, and its value. A map of no key, or of two and more, is refused.
pub(crate) fn single_entry(map: HashMap<String, AttributeValue>) -> Result<(String, AttributeValue)>
    ensures { IsSingle (members_view map.entries) result }
{
    let mut entries = map.into_iter();
    let Some(entry) = entries.next() else {
        return Err(Error::from(ErrorImpl::ExpectedSingleKey));
    };
    match entries.next() {
        None => Ok(entry),
        Some(_) => Err(Error::from(ErrorImpl::ExpectedSingleKey)),
    }
}

// The one key of the borrowed map, and its value. A map of no key, or of two and more, is refused.
pub(crate) fn only_lent<'a>(
    members: &'a HashMap<String, AttributeValue>,
) -> Result<(&'a String, &'a AttributeValue)>
    ensures { IsLentSingle (members_view members.now.entries) result }
{
    let mut entries = members.iter();
    let Some(entry) = entries.next() else {
        return Err(Error::from(ErrorImpl::ExpectedSingleKey));
    };
    match entries.next() {
        None => Ok(entry),
        Some(_) => Err(Error::from(ErrorImpl::ExpectedSingleKey)),
    }
}
