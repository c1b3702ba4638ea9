//! What the calls are timed on.
use serde_dynamo::samples::User;
use serde_dynamo::{Items, Result, to_item};
use std::alloc::Global;

const COUNT: u32 = 10_000;

/// Users, each with a text of its own.
pub fn users(alloc: Global) -> Result<Vec<User>> {
    let mut users = Vec::new(alloc);
    for i in 0..COUNT {
        users.push(User {
            id: format!(in alloc; "user-{i}")?,
            name: format!(in alloc; "the user of the number {i}")?,
            age: (i % 100) as u8,
        })?;
    }
    Ok(users)
}

/// The items of these users.
pub fn items(alloc: Global, users: &[User]) -> Result<Items> {
    let mut maps = Vec::new(alloc);
    for user in users {
        maps.push(to_item(alloc, user)?.into_inner())?;
    }
    Ok(Items::from(maps))
}
