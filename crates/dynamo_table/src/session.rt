//! A session: commands, a line each, on a file that is opened once.
use crate::command::Command;
use crate::file::{Database, close, open_for};
use crate::refusal::{Answer, Outcome, Refusal};
use crate::run::run_on_database;
use crate::teller::Teller;
use crate::words::{MAX_LINE, words_in};
use exports::{Fault, Lines};
use std::io::BufReader;

/// Runs the commands of the input's lines on the tables of a file. It goes on after a command that
/// is refused.
///
/// # Errors
///
/// What reading the input fails with, and `Table` if the file can't be closed.
pub fn run(rt: &HostRuntime, path: &str) -> Answer {
    let reader = BufReader::new(rt.alloc(), rt.reader())?;
    let mut lines = Lines::with_limit(rt.alloc(), reader, MAX_LINE);
    let mut session = Session {
        path,
        database: None,
        has_changed: false,
    };
    let mut outcome = Outcome::Done;
    for _ in 0..u64::MAX {
        let Some(line) = lines.next_text() else {
            break;
        };
        let teller = Teller {
            rt,
            line: Some(lines.number()),
        };
        let answer = match line {
            Ok(line) => session.run_line(teller, line.as_slice()),
            Err(fault @ Fault::TooLong(_)) => Err(Refusal::from(fault)),
            Err(fault) => return Err(Refusal::from(fault)),
        };
        if !is_done(teller, answer) {
            outcome = Outcome::Told;
        }
    }
    session.end(outcome)
}

// Returns whether a command did what its line asks for. Else it prints why not.
fn is_done(teller: Teller<'_>, answer: Answer) -> bool {
    match answer {
        Ok(Outcome::Done) => return true,
        Ok(Outcome::Told) => {}
        Ok(Outcome::Usage) => teller.tell("these words are no command"),
        Err(refusal) => teller.tell(refusal),
    }
    false
}

// A session at work.
#[derive(Drop)]
struct Session<'p> {
    path: &'p str,
    // The file, from the first command on that opens it.
    database: Option<Database>,
    // Whether one of the commands changes a table.
    has_changed: bool,
}

impl Session<'_> {
    // Runs the command of a line.
    fn run_line(&mut self, teller: Teller<'_>, line: &[u8]) -> Answer {
        let alloc = teller.rt.alloc();
        let words = words_in(alloc, line)?;
        let [name, words @ ..] = words.as_slice() else {
            return Ok(Outcome::Usage);
        };
        let Some(command) = Command::of(alloc, name, words)? else {
            return Ok(Outcome::Usage);
        };
        let opened = match self.database.take() {
            Some(database) => database,
            None => open_for(teller.rt, self.path, command)?,
        };
        self.has_changed = self.has_changed || command.changes();
        let (kept, answer) = run_on_database(teller, self.path, opened, command);
        self.database = kept;
        answer
    }

    // Closes the file. A session that changed nothing writes nothing.
    fn end(self, outcome: Outcome) -> Answer {
        if !self.has_changed {
            return Ok(outcome);
        }
        close(self.database, Ok(outcome))
    }
}
