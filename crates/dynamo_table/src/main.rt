//! Keeps tables of DynamoDB items in a file, from the command line.
#![tactic(auto)]

mod at_table;
mod command;
mod copy;
mod document;
mod file;
mod from_plain;
mod head;
mod key_words;
mod load;
mod print;
mod put;
mod refusal;
mod run;
mod session;
mod table_name;
mod tables;
mod teller;
mod text;
mod to_plain;
mod usage;
mod words;

use crate::refusal::{Answer, Outcome};
use crate::teller::Teller;
use crate::usage::USAGE;
use std::env;
use std::process::ExitCode;

fn run_words(rt: &HostRuntime) -> Answer {
    let words: Vec<String> = env::args(rt)?.skip(1).collect(rt.alloc())?;
    let words: Vec<&str> = words.iter().map(|word| word.as_str()).collect(rt.alloc())?;
    run::run(rt, words.as_slice())
}

fn main(rt: HostRuntime) -> ExitCode {
    match run_words(&rt) {
        Ok(Outcome::Done) => ExitCode::SUCCESS,
        Ok(Outcome::Told) => ExitCode::FAILURE,
        Ok(Outcome::Usage) => {
            let _ = eprintln!(rt; "{USAGE}");
            ExitCode::from(2)
        }
        Err(refusal) => {
            Teller::of(&rt).tell(refusal);
            ExitCode::FAILURE
        }
    }
}
