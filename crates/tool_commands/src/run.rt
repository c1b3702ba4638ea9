ghost use Rattle.std.specs.Prelude.{◌≡◌, ℕ, List, map, IfOk, IfSome, string_bytes};
ghost use Rattle.std.specs.Result.{result_map_both};
ghost use Rattle.tool_commands.specs.Failed.{reason, reason_text};
ghost use Rattle.tool_commands.specs.Known.{RunsOnKnown};
ghost use Rattle.tool_commands.specs.Lines as lines;
ghost use Rattle.tool_commands.specs.Printed.{Prints, Tells};
ghost use Rattle.tool_commands.specs.Runs.{Runs};
ghost use Rattle.tool_commands.specs.Words.{command_of};

use crate::check::check;
use crate::commands::{Command, command_of};
use crate::convert::{to_dynamo, to_plain};
use crate::failure::Failure;
use crate::input::Input;
use crate::output::Output;
use crate::user::user_lines;
use std::alloc::{AllocError, Global};
use std::fmt::Write;

const USAGE: &str = "usage: dynamo_tool user ID NAME AGE | check | dynamo | plain\n";

/// Runs the program with these arguments, and returns its exit status: 0 if it succeeds, 1 if it
/// fails, which it prints, or if the writer fails, and 2 if the arguments aren't a command. It
/// writes nothing before its whole output is known.
pub fn run<R: Input, W: Output>(
    alloc: Global,
    words: &[String],
    reader: &mut R,
    writer: &mut W,
) -> u8
    ensures runs { Runs R.read_gives W.write_gives (command_of (map string_bytes words.now))
        reader.old reader.new writer.old writer.new result }
    ensures on_known { RunsOnKnown R.read_gives W.write_gives
        (command_of (map string_bytes words.now)) reader.old writer.old writer.new result }
{
    match command_of(words) {
        Some(Command::User(id, name, age)) => {
            print_answer(alloc, writer, user_lines(alloc, id, name, age))
        }
        Some(Command::Check) => print_answer(alloc, writer, check(alloc, reader)),
        Some(Command::Dynamo) => print_answer(alloc, writer, to_dynamo(alloc, reader)),
        Some(Command::Plain) => print_answer(alloc, writer, to_plain(alloc, reader)),
        None => print(writer, USAGE, 2),
    }
}

/// Prints that memory ran out, and returns the exit status.
pub fn lack_memory<W: Output>(writer: &mut W) -> u8
    ensures { Prints W.write_gives writer.old writer.new lines.no_memory_line 1 result }
{
    print(writer, "error: out of memory\n", 1)
}

// Prints the output of a command, or the line of its failure.
fn print_answer<W: Output>(alloc: Global, writer: &mut W, answer: Result<String, Failure>) -> u8
    ensures { (text : List ℕ) × (status : ℕ)
        × Tells (result_map_both string_bytes reason answer) text status
        × Prints W.write_gives writer.old writer.new text status result }
{
    match answer {
        Ok(text) => print(writer, &text, 0),
        Err(failure) => match error_line(alloc, &failure) {
            Ok(line) => print(writer, &line, 1),
            Err(_) => lack_memory(writer),
        },
    }
}

fn error_line(alloc: Global, failure: &Failure) -> Result<String, AllocError>
    ensures { IfOk result
        (λ line. IfSome (reason_text (reason failure.now))
        (λ text. string_bytes line ≡ lines.error_line text)) }
{
    let mut line = String::new(alloc);
    writeln!(line, "error: {failure}")?;
    Ok(line)
}

// Prints a text at once. If that fails, the status is 1.
fn print<W: Output>(writer: &mut W, text: &str, status: u8) -> u8
    ensures { Prints W.write_gives writer.old writer.new text.now status result }
{
    match writer.write_all(text.as_bytes()) {
        Ok(()) => status,
        Err(_) => 1,
    }
}
