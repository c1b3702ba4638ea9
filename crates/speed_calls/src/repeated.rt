//! Calls that are repeated.
use crate::by_hand::{self, Maps};
use crate::users::{items, users};
use serde_dynamo::samples::User;
use serde_dynamo::{
    AttributeValue, Item, Items, Result, from_item, from_item_located, from_item_ref,
    from_item_ref_located, from_items, to_attribute_value, to_item, to_item_located, to_json_value,
};
use std::alloc::Global;
use std::collections::HashMap;
use std::io;

/// Repeats the call of this name, and prints how many users it saw.
pub fn run(rt: &HostRuntime, word: &str, repeats: u32) -> io::Result<()> {
    match repeat(rt.alloc(), word, repeats) {
        Ok(seen) => println!(rt; "{seen}"),
        Err(error) => println!(rt; "{error}"),
    }
}

// What the calls take: users, and items and maps of them.
#[derive(Drop)]
struct Given {
    users: Vec<User>,
    items: Items,
    lent: Vec<Item>,
    maps: Maps,
}

impl Given {
    fn new(alloc: Global) -> Result<Given> {
        let users = users(alloc)?;
        let items = items(alloc, users.as_slice())?;
        let lent = each_item(items.clone()?, alloc)?;
        let maps = Maps::of(alloc, users.as_slice())?;
        Ok(Given {
            users,
            items,
            lent,
            maps,
        })
    }
}

// How many users were seen in all.
fn repeat(alloc: Global, word: &str, repeats: u32) -> Result<usize> {
    let given = Given::new(alloc)?;
    let mut seen: usize = 0;
    for _ in 0..repeats {
        seen = seen.wrapping_add(call(alloc, word, &given)?);
    }
    Ok(seen)
}

// Makes the call of this name once: how many users it saw.
fn call(alloc: Global, word: &str, given: &Given) -> Result<usize> {
    match word {
        "to_item" => written(alloc, given.users.as_slice()),
        "to_attribute_value" => listed(alloc, &given.users),
        "to_json_value" => listed_as_json(alloc, &given.users),
        "clone" => copied(&given.items),
        "from_item" => read(alloc, &given.items),
        "from_items" => read_all(alloc, &given.items),
        "from_item_located" => read_located(alloc, &given.items),
        "from_item_ref" => lent(alloc, &given.lent),
        "from_item_ref_located" => lent_located(alloc, &given.lent),
        "to_item_located" => written_located(alloc, given.users.as_slice()),
        _by_hand => Ok(by_hand::call(alloc, word, given.users.as_slice(), &given.maps)?),
    }
}

#[inline(never)]
fn written(alloc: Global, users: &[User]) -> Result<usize> {
    let mut count: usize = 0;
    for user in users {
        count = count.wrapping_add(to_item(alloc, user)?.inner().len());
    }
    Ok(count)
}

#[inline(never)]
fn listed(alloc: Global, users: &Vec<User>) -> Result<usize> {
    to_attribute_value(alloc, users)?;
    Ok(users.len())
}

#[inline(never)]
fn listed_as_json(alloc: Global, users: &Vec<User>) -> Result<usize> {
    to_json_value(alloc, users)?;
    Ok(users.len())
}

#[inline(never)]
fn read(alloc: Global, items: &Items) -> Result<usize> {
    let mut count: usize = 0;
    let maps: Vec<HashMap<String, AttributeValue>> = items.clone()?.into();
    for map in maps {
        let user: User = from_item(alloc, Item::from(map))?;
        count = count.wrapping_add(user.id.len());
    }
    Ok(count)
}

// Each as an item.
fn each_item(items: Items, alloc: Global) -> Result<Vec<Item>> {
    let maps: Vec<HashMap<String, AttributeValue>> = items.into();
    let mut each = Vec::with_capacity(alloc, maps.len())?;
    for map in maps {
        each.push(Item::from(map))?;
    }
    Ok(each)
}

#[inline(never)]
fn read_located(alloc: Global, items: &Items) -> Result<usize> {
    let mut count: usize = 0;
    let maps: Vec<HashMap<String, AttributeValue>> = items.clone()?.into();
    for map in maps {
        match from_item_located::<User>(alloc, Item::from(map)) {
            Ok(user) => count = count.wrapping_add(user.id.len()),
            Err(located) => return Err(located.error),
        }
    }
    Ok(count)
}

#[inline(never)]
fn lent(alloc: Global, items: &Vec<Item>) -> Result<usize> {
    let mut count: usize = 0;
    for item in items {
        let user: User = from_item_ref(alloc, item)?;
        count = count.wrapping_add(user.id.len());
    }
    Ok(count)
}

#[inline(never)]
fn lent_located(alloc: Global, items: &Vec<Item>) -> Result<usize> {
    let mut count: usize = 0;
    for item in items {
        match from_item_ref_located::<User>(alloc, item) {
            Ok(user) => count = count.wrapping_add(user.id.len()),
            Err(located) => return Err(located.error),
        }
    }
    Ok(count)
}

#[inline(never)]
fn written_located(alloc: Global, users: &[User]) -> Result<usize> {
    let mut count: usize = 0;
    for user in users {
        match to_item_located(alloc, user) {
            Ok(item) => count = count.wrapping_add(item.inner().len()),
            Err(located) => return Err(located.error),
        }
    }
    Ok(count)
}

#[inline(never)]
fn read_all(alloc: Global, items: &Items) -> Result<usize> {
    let users: Vec<User> = from_items(alloc, items.clone()?)?;
    Ok(users.len())
}

#[inline(never)]
fn copied(items: &Items) -> Result<usize> {
    let copy: Vec<HashMap<String, AttributeValue>> = items.clone()?.into();
    Ok(copy.len())
}
