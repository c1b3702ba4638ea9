//! Calls of the library and of serde_json, each by a word, for `bench/speed` to time.
//!
//! `reads_json` and `rereads` take their input to the end, one JSON text. The other words take a
//! number of repeats: they make 10,000 users and what the call takes, and then call so many times.
//! So the time of a call is that of more repeats less that of fewer, in so many parts. The words
//! that begin with `depth_` take the depth of nested lists.
#![tactic(auto)]

mod by_hand;
mod input;
mod nested;
mod repeated;
mod users;

use std::{env, io};

fn main(rt: HostRuntime) -> io::Result<()> {
    let mut words = env::args(&rt)?.skip(1);
    let Some(word) = words.next() else {
        return println!(rt; "a word is wanted, and most words want a number");
    };
    let Some(number) = words.next() else {
        return input::run(&rt, word.as_str());
    };
    match number.parse::<u32>() {
        Err(_) => println!(rt; "no number: {number}"),
        Ok(depth) if word.starts_with("depth_") => nested::run(&rt, word.as_str(), depth),
        Ok(repeats) => repeated::run(&rt, word.as_str(), repeats),
    }
}
