//! Calls of the library and of tables in memory, in rows: what each returns if one of its requests
//! for memory is refused, and what is left after it. A row makes its values, then makes its calls,
//! and prints one line of what they returned. The word after the program's name says which row;
//! without one all rows are printed, each after its name.
//!
//! Run with one request for memory refused, a row shows what the calls return when memory runs out.
//! If that happens while its values are made, it prints `making: out of memory`.
#![tactic(auto)]

mod accesses;
mod account;
mod answer;
mod builders;
mod derived;
mod json;
mod leaf_readers;
mod line;
mod located;
mod reading;
mod rows;
mod tables;
mod values;
mod without_memory;
mod writing;

use line::Line;
use std::{env, io};

fn print_row(rt: &HostRuntime, name: &str) -> io::Result<()> {
    let mut line = Line::new(rt);
    match rows::run(rt.alloc(), &mut line, name) {
        Some(made) => line.end(made),
        None => println!(rt; "no such row"),
    }
}

fn print_all(rt: &HostRuntime) -> io::Result<()> {
    for name in rows::NAMES {
        print!(rt; "{name}: ")?;
        print_row(rt, name)?;
    }
    Ok(())
}

fn main(rt: HostRuntime) -> io::Result<()> {
    match env::args(&rt) {
        Ok(words) => match words.skip(1).next() {
            Some(name) => print_row(&rt, &name),
            None => print_all(&rt),
        },
        Err(error) if error.kind() == io::ErrorKind::OutOfMemory => {
            println!(rt; "making: out of memory")
        }
        Err(error) => Err(error),
    }
}
