//! The same work by the types of the kit alone, for a floor under the calls: maps of texts whose
//! values are as large as attribute values, made, copied and taken apart by hand. Those that are
//! kept give back the room that they don't use, as the library's do.
use serde_dynamo::samples::User;
use std::alloc::{AllocError, Global};
use std::collections::HashMap;

/// A value of the size of an attribute value, which holds no values of its kind.
#[derive(Clone, Drop)]
enum Plain {
    Number(String),
    Text(String),
    Numbers(HashMap<String, u64>),
}

/// Maps in place of items.
#[derive(Drop)]
pub struct Maps(Vec<HashMap<String, Plain>>);

impl Maps {
    /// The maps of these users, as they are made: with the room that no entry takes, as what
    /// `to_item` answers has.
    pub fn of(alloc: Global, users: &[User]) -> Result<Maps, AllocError> {
        let mut maps = Vec::new(alloc);
        for user in users {
            maps.push(made(alloc, user)?)?;
        }
        Ok(Maps(maps))
    }

    // The maps of these users, to be kept.
    fn kept(alloc: Global, users: &[User]) -> Result<Maps, AllocError> {
        let mut maps = Vec::new(alloc);
        for user in users {
            let mut map = made(alloc, user)?;
            map.shrink_to_fit();
            maps.push(map)?;
        }
        Ok(Maps(maps))
    }

    // Copies, made entry by entry, as those of items are: the clone of the kit's map has no use for
    // values that hold themselves.
    fn copies(&self) -> Result<Maps, AllocError> {
        let mut copies = Vec::with_capacity(*self.0.allocator(), self.0.len())?;
        for map in &self.0 {
            let mut copy = HashMap::new(*self.0.allocator());
            for (key, value) in map.iter() {
                drop(copy.insert(key.clone()?, value.clone()?)?);
            }
            copy.shrink_to_fit();
            copies.push(copy)?;
        }
        Ok(Maps(copies))
    }
}

// A map of a user's fields.
fn made(alloc: Global, user: &User) -> Result<HashMap<String, Plain>, AllocError> {
    let mut map = HashMap::new(alloc);
    let id = Plain::Text(user.id.clone()?);
    drop(map.insert(String::from_str(alloc, "id")?, id)?);
    let name = Plain::Text(user.name.clone()?);
    drop(map.insert(String::from_str(alloc, "name")?, name)?);
    let age = Plain::Number(user.age.to_string(alloc)?);
    drop(map.insert(String::from_str(alloc, "age")?, age)?);
    Ok(map)
}

/// Does by hand what the call of this name does, for users or for the maps of them. Returns how many
/// entries, users or bytes it counted, and 0 if there is no such name.
pub fn call(alloc: Global, word: &str, users: &[User], maps: &Maps) -> Result<usize, AllocError> {
    match word {
        "to_item_by_hand" => written(alloc, users),
        "to_attribute_value_by_hand" => listed(alloc, users),
        "clone_by_hand" => copied(maps),
        "from_item_by_hand" => read(alloc, maps),
        _nothing => Ok(0),
    }
}

// What `to_item` does: makes a map of each user. How many entries they have.
#[inline(never)]
fn written(alloc: Global, users: &[User]) -> Result<usize, AllocError> {
    let mut count: usize = 0;
    for user in users {
        count = count.wrapping_add(made(alloc, user)?.len());
    }
    Ok(count)
}

// What `to_attribute_value` does of a list: makes a map of each user, and keeps them all. How many
// there are.
#[inline(never)]
fn listed(alloc: Global, users: &[User]) -> Result<usize, AllocError> {
    Ok(Maps::kept(alloc, users)?.0.len())
}

// What `clone` does of items: copies the maps. How many there are.
#[inline(never)]
fn copied(maps: &Maps) -> Result<usize, AllocError> {
    Ok(maps.copies()?.0.len())
}

// The entries of a map, in ascending order of the bytes of their keys.
fn in_order(
    alloc: Global,
    map: HashMap<String, Plain>,
) -> Result<Vec<(String, Plain)>, AllocError> {
    let mut entries = Vec::with_capacity(alloc, map.len())?;
    for entry in map {
        entries.push(entry)?;
    }
    entries.sort_unstable_by(|a, b| a.0.cmp(&b.0));
    Ok(entries)
}

// What `from_item` does: copies the maps, and takes each apart to a user, its entries in the order
// of their keys. How long their ids are.
#[inline(never)]
fn read(alloc: Global, maps: &Maps) -> Result<usize, AllocError> {
    let mut count: usize = 0;
    for map in maps.copies()?.0 {
        let mut user = User {
            id: String::new(alloc),
            name: String::new(alloc),
            age: 0,
        };
        for (key, value) in in_order(alloc, map)? {
            match (key.as_str(), value) {
                ("id", Plain::Text(id)) => user.id = id,
                ("name", Plain::Text(name)) => user.name = name,
                ("age", Plain::Number(age)) => user.age = age.parse::<u8>().unwrap_or(0),
                (_key, other) => drop(other),
            }
        }
        count = count.wrapping_add(user.id.len());
    }
    Ok(count)
}
