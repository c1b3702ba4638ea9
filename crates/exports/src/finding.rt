ghost use Rattle.exports.specs.ErrorText.{line_text};
ghost use Rattle.exports.specs.FindingText.{problem_text};

use crate::Fault;
use dynamo_place::LocatedError;
use dynamo_value::Error;
use std::fmt;

/// A line that can't be read as the type.
#[derive(Debug, Drop)]
pub struct Finding {
    /// The line's number. The first line is 1.
    pub number: u64,

    /// Why it can't be read.
    pub problem: Problem,
}

/// Why a line can't be read as the type.
#[derive(Debug, Drop)]
pub enum Problem {
    /// The line has no item.
    Line(Fault),

    /// Reading the item gave this error, at this place in the item.
    Value(LocatedError<Error>),
}

impl fmt::Display for Finding {
    ghost output = { λ finding. line_text finding.number (problem_text finding.problem) };

    fn fmt<W: fmt::Write>(&self, f: &mut fmt::Formatter<W>) -> fmt::Result {
        match &self.problem {
            Problem::Line(fault) => write!(f, "line {}: {fault}", self.number),
            Problem::Value(located) => write!(f, "line {}: {located}", self.number),
        }
    }
}

impl std::error::Error for Finding {}
