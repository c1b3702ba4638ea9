//! Types that are described, as `dynamo_derive` prints it, for examples and tests.

mod event;
mod promises;
mod sets;
mod user;

pub use event::Event;
pub use promises::{
    events_are_equal, reread_event, reread_sets, reread_user, sets_are_equal, users_are_equal,
};
pub use sets::Sets;
pub use user::User;
