//! Reads the lines of an export from its input, and prints which of them are not users of the
//! samples. The last line says how many lines were read and failed. `--summary` prints how many
//! lines have which error at which place in place of the lines. `--max-line BYTES` says how long a
//! line may be, 4 MiB if it is left out. The status is 0 if all are users, 1 if not, and 2 for
//! other arguments.
#![tactic(auto)]

use exports::{Finding, Groups, Lines, Summary, next_value};
use serde_dynamo::samples::User;
use std::io::{BufRead, BufReader};
use std::process::ExitCode;
use std::{env, io};

// How many bytes a line may have if the arguments don't say: an item has at most 400 KB in
// DynamoDB.
const MAX_LINE: usize = 4 << 20;

// How many places the summary may have.
const PLACES: usize = 100;

// What the arguments ask for.
#[derive(Clone, Copy)]
struct Words {
    is_summary: bool,
    max_line: usize,
}

// What is known of the lines so far.
#[derive(Drop)]
struct Report {
    summary: Summary,
    groups: Groups,
}

impl Report {
    // Counts a line, and prints it if it is not a user and no summary is wanted.
    fn count(
        &mut self,
        rt: &HostRuntime,
        words: Words,
        answer: Result<User, Finding>,
    ) -> io::Result<()> {
        match answer {
            Ok(_) => self.summary.count_read(),
            Err(finding) => {
                self.summary.count_failed();
                if words.is_summary {
                    self.groups.add(&finding)?;
                } else {
                    println!(rt; "{finding}")?;
                }
            }
        }
        Ok(())
    }
}

fn count_all<R: BufRead>(
    rt: &HostRuntime,
    words: Words,
    lines: &mut Lines<R>,
) -> io::Result<Report> {
    let mut report = Report {
        summary: Summary::new(),
        groups: Groups::new(rt.alloc(), PLACES),
    };
    for _ in 0..u64::MAX {
        match next_value::<User, R>(rt.alloc(), lines) {
            Some(answer) => report.count(rt, words, answer)?,
            None => break,
        }
    }
    Ok(report)
}

fn check(rt: &HostRuntime, words: Words) -> io::Result<Summary> {
    let reader = BufReader::new(rt.alloc(), rt.reader())?;
    let mut lines = Lines::with_limit(rt.alloc(), reader, words.max_line);
    let Report { summary, groups } = count_all(rt, words, &mut lines)?;
    print!(rt; "{groups}")?;
    let number = lines.number();
    println!(rt;
        "{number} lines: {} read, {} failed",
        summary.read, summary.failed
    )?;
    Ok(summary)
}

// What the program's arguments ask for; none if they are others.
fn words_of(rt: &HostRuntime) -> io::Result<Option<Words>> {
    let words: Vec<String> = env::args(rt)?.skip(1).collect(rt.alloc())?;
    let (is_summary, rest) = match words.as_slice() {
        [first, rest @ ..] if first.as_str() == "--summary" => (true, rest),
        words => (false, words),
    };
    let max_line = match rest {
        [] => Some(MAX_LINE),
        [flag, bytes] if flag.as_str() == "--max-line" => bytes.as_str().parse().ok(),
        _ => None,
    };
    Ok(max_line.map(|max_line| Words {
        is_summary,
        max_line,
    }))
}

fn run(rt: &HostRuntime) -> io::Result<ExitCode> {
    let Some(words) = words_of(rt)? else {
        eprintln!(rt; "usage: example_check [--summary] [--max-line BYTES]")?;
        return Ok(ExitCode::from(2));
    };
    let summary = check(rt, words)?;
    Ok(ExitCode::from(u8::from(summary.failed > 0)))
}

fn main(rt: HostRuntime) -> ExitCode {
    run(&rt).unwrap_or(ExitCode::FAILURE)
}
