//! Reads structs and enums with serde's attributes from standard input, and prints the file of the
//! module that has them, described by `dynamo_record`. The launcher of the program lays it out by
//! `rt fmt`.
#![tactic(auto)]

use derive_declarations::{Failure, read_declarations, read_module};
use derive_impls::{ModulePath, file_of, impls_of};
use std::alloc::Global;
use std::process::ExitCode;
use std::{env, io};

const USAGE: &str = "usage: dynamo_derive [--impls] [CRATE::MODULE] < DECLARATIONS";

// What is printed: the whole file, or the impls alone with their imports.
#[derive(Drop)]
struct Request {
    is_whole: bool,
    path: ModulePath,
}

// What the words after the program's name ask for; none where they are wrong.
fn wanted(rt: &HostRuntime) -> io::Result<Option<Request>> {
    let mut words = env::args(rt)?.skip(1);
    let first = words.next();
    let is_whole = first.as_ref().is_none_or(|word| word.as_str() != "--impls");
    let word = if is_whole { first } else { words.next() };
    let path = match (word, words.next()) {
        (None, _) => Some(ModulePath::unknown(rt.alloc())?),
        (Some(word), None) => ModulePath::of(rt.alloc(), word.as_str())?,
        _ => None,
    };
    Ok(path.map(|path| Request { is_whole, path }))
}

// What is printed for the declarations in the text.
fn derive(alloc: Global, request: &Request, text: &str) -> Result<String, Failure> {
    if request.is_whole {
        return file_of(alloc, &request.path, &read_module(alloc, text)?);
    }
    let declarations = read_declarations(alloc, text)?;
    impls_of(alloc, &request.path, declarations.as_slice())
}

// Prints what is asked for, or the failure, and returns the status that the program ends with.
fn run(rt: &HostRuntime) -> io::Result<u8> {
    let Some(request) = wanted(rt)? else {
        eprintln!(rt; "{USAGE}")?;
        return Ok(2);
    };
    let text = io::read_to_string(rt.alloc(), rt.reader())?;
    match derive(rt.alloc(), &request, text.as_str()) {
        Ok(printed) => {
            print!(rt; "{printed}")?;
            Ok(0)
        }
        Err(failure) => {
            report(rt, &failure)?;
            Ok(1)
        }
    }
}

fn report(rt: &HostRuntime, failure: &Failure) -> io::Result<()> {
    eprintln!(rt; "error: {failure}")
}

fn main(rt: HostRuntime) -> ExitCode {
    match run(&rt) {
        Ok(status) => ExitCode::from(status),
        Err(_) => ExitCode::from(1),
    }
}
