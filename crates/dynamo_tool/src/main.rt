//! Writes and reads DynamoDB values from the command line.
#![tactic(auto)]

use std::alloc::AllocError;
use std::process::ExitCode;
use std::{env, io};
use tool_commands::run::{lack_memory, run};

// The words after the program's name; none where one of them is no text. It fails only if memory
// runs out.
fn words(rt: &HostRuntime) -> Result<Vec<String>, AllocError> {
    let mut words = Vec::new(rt.alloc());
    let args = match env::args(rt) {
        Ok(args) => args,
        Err(error) if error.kind() == io::ErrorKind::OutOfMemory => return Err(AllocError),
        Err(_) => return Ok(words),
    };
    for word in args.skip(1) {
        if words.push(word).is_err() {
            return Err(AllocError);
        }
    }
    Ok(words)
}

fn main(rt: HostRuntime) -> ExitCode {
    let mut writer = io::writer(&rt);
    ExitCode::from(match words(&rt) {
        Ok(words) => run(rt.alloc(), words.as_slice(), &mut rt.reader(), &mut writer),
        Err(_) => lack_memory(&mut writer),
    })
}
