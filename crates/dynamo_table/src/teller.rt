//! Faults on standard error, and where in an input they are.
use std::fmt;

/// Prints faults, after the number of a session's line where there is one.
#[derive(Clone, Copy, Drop)]
pub struct Teller<'r> {
    /// The program's runtime.
    pub rt: &'r HostRuntime,

    /// The line of the session that is at work.
    pub line: Option<u64>,
}

impl<'r> Teller<'r> {
    /// The teller of a program that runs no session.
    pub fn of(rt: &'r HostRuntime) -> Teller<'r> {
        Teller { rt, line: None }
    }

    /// Prints a fault.
    pub fn tell<F: fmt::Display + Drop>(self, fault: F) {
        let _ = match self.line {
            Some(line) => eprintln!(self.rt; "error: line {line}: {fault}"),
            None => eprintln!(self.rt; "error: {fault}"),
        };
    }
}

/// The line of an input, and in a list of items or requests that begins there the number of one.
#[derive(Clone, Copy, Debug, Drop)]
pub struct Place<'a> {
    /// The name of the input's file, where it has one.
    pub input: Option<&'a str>,

    /// The line, from 1 on.
    pub line: u64,

    /// The number in a list, from 1 on.
    pub entry: Option<u64>,
}

impl fmt::Display for Place<'_> {
    fn fmt<W: fmt::Write>(&self, f: &mut fmt::Formatter<W>) -> fmt::Result {
        if let Some(input) = self.input {
            write!(f, "{input}, ")?;
        }
        write!(f, "line {}", self.line)?;
        if let Some(entry) = self.entry {
            write!(f, ", entry {entry}")?;
        }
        Ok(())
    }
}
