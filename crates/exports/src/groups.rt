ghost use Rattle.std.specs.Prelude.{◌≡◌, [], IfOk, OnErr, OnOk, option_map};
ghost use Rattle.exports.specs.Grouped.{Counts, counts_of, limit_of, others_of};

use crate::{Fault, Finding, Problem};
use dynamo_place::LocatedError;
use dynamo_value::{Error, ErrorImpl};
use std::alloc::{AllocError, Global};
use std::collections::BTreeMap;
use std::fmt;
use std::string::ToString;

/// How many lines have the same error at the same place, where the indexes of elements don't
/// matter.
///
/// It is printed as a line for each group, in the order of the places: `1,204 lines at
/// orders[].price: Expected num`. It has up to a given number of groups, so that a file of any
/// length takes bounded memory if its lines are bounded. Lines of further groups are counted
/// together.
///
/// # Examples
///
/// ```rust
/// use exports::{Groups, Lines, next_value};
///
/// let mut groups = Groups::new(alloc, 100);
/// let export = "{\"Item\": {\"a\": {\"L\": [{\"S\": \"x\"}]}}}\n{\"Item\": {\"a\": {\"L\": [{\"N\": \"1\"}, {\"S\": \"y\"}]}}}\n";
/// let mut lines = Lines::with_limit(alloc, export.as_bytes(), 4 << 20);
/// for _ in 0..2 {
///     if let Some(Err(finding)) = next_value::<HashMap<String, Vec<u8>>, &[u8]>(alloc, &mut lines) {
///         groups.add(&finding)?;
///     }
/// }
/// assert_eq!(rt; groups.to_string(alloc)?.as_str(), "2 lines at a[]: Expected num\n");
/// # use std::collections::HashMap;
/// ```
#[derive(Debug, Drop)]
pub struct Groups {
    alloc: Global,
    counts: BTreeMap<String, u64>,
    limit: usize,
    others: u64,
}

impl Groups {
    /// Returns no groups, which can become `limit` groups.
    pub fn new(alloc: Global, limit: usize) -> Groups
        ensures counts { (counts_of result).entries ≡ [] }
        ensures limit { limit_of result ≡ limit }
        ensures others { others_of result ≡ 0 }
    {
        Groups {
            alloc,
            counts: BTreeMap::new(alloc),
            limit,
            others: 0,
        }
    }

    /// Counts a line. The group of a line is the finding's place, without the indexes of elements,
    /// and the text of its error. A string that can't be parsed as a number is left out of the
    /// text; other texts may hold a name from the file, as of an unknown variant.
    ///
    /// # Errors
    ///
    /// Returns [`AllocError`] if memory runs out. The counts are unchanged then.
    pub fn add(&mut self, finding: &Finding) -> Result<(), AllocError>
        ensures counts { OnOk result (Counts self.old self.new) }
        ensures unchanged { OnErr result
            ((counts_of self.new).entries ≡ (counts_of self.old).entries) }
        ensures others { OnErr result (others_of self.new ≡ others_of self.old) }
        ensures limit { limit_of self.new ≡ limit_of self.old }
    {
        let name = name_of(self.alloc, &finding.problem)?;
        if let Some(count) = self.counts.get_mut(&name) {
            *count = count.saturating_add(1);
        } else if self.counts.len() < self.limit {
            drop(self.counts.insert(name, 1)?);
        } else {
            self.others = self.others.saturating_add(1);
        }
        Ok(())
    }

    /// Returns how many lines are of none of the groups.
    pub fn others(&self) -> u64
        ensures { result ≡ others_of self.now }
    {
        self.others
    }
}

// How the group of a problem is printed after its number of lines.
fn name_of(alloc: Global, problem: &Problem) -> Result<String, AllocError> {
    match problem {
        Problem::Value(located) | Problem::Line(Fault::Form(located)) => {
            name_of_located(alloc, located)
        }
        Problem::Line(Fault::NotJson(_)) => String::from_str(alloc, ": it is not JSON"),
        Problem::Line(fault) => format!(in alloc; ": {fault}"),
    }
}

fn name_of_located(alloc: Global, located: &LocatedError<Error>) -> Result<String, AllocError> {
    let kind = match located.error.kind() {
        ErrorImpl::FailedToParseInt(_, _) => String::from_str(alloc, "Failed to parse an integer")?,
        ErrorImpl::FailedToParseFloat(_) => String::from_str(alloc, "Failed to parse a float")?,
        _ => located.error.to_string(alloc)?,
    };
    if located.place.steps().is_empty() {
        return format!(in alloc; ": {kind}");
    }
    format!(in alloc; " at {}: {kind}", located.place.without_indexes())
}

impl fmt::Display for Groups {
    fn fmt<W: fmt::Write>(&self, f: &mut fmt::Formatter<W>) -> fmt::Result {
        for (name, count) in self.counts.iter() {
            writeln!(f, "{}{name}", LineCount(*count))?;
        }
        if self.others > 0 {
            writeln!(f, "{} of other groups", LineCount(self.others))?;
        }
        Ok(())
    }
}

// A number of lines, as in `1,204 lines`.
#[derive(Clone, Copy, Drop)]
struct LineCount(u64);

impl fmt::Display for LineCount {
    fn fmt<W: fmt::Write>(&self, f: &mut fmt::Formatter<W>) -> fmt::Result {
        if self.0 == 1 {
            return f.write_str("1 line");
        }
        write_count(self.0, f)?;
        f.write_str(" lines")
    }
}

// Writes a number with its digits in groups of three, as in `1,204`.
fn write_count<W: fmt::Write>(count: u64, f: &mut fmt::Formatter<W>) -> fmt::Result {
    if count < 1_000 {
        return write!(f, "{count}");
    }
    write_count(count / 1_000, f)?;
    write!(f, ",{:03}", count % 1_000)
}
