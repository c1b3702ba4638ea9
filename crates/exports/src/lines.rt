//! The lines of an export to S3, one after another.

ghost use Rattle.std.specs.Prelude.{◌≡◌, IfOk, List, None, Some, false, option_map, ℕ};
ghost use Rattle.exports.specs.ErrorText.{fault_text, line_text};
ghost use Rattle.exports.specs.Items.{ReadsText};
ghost use Rattle.exports.specs.Lines.{Gives, GivesText, GivesWithin, TakesLine, first_in};
ghost use Rattle.exports.specs.Lines.{is_blank, is_ended, limit_of, number_of, reader_of};

use crate::Fault;
use crate::bounded::read_within;
use crate::line::item_of;
use dynamo_value::Item;
use json::Scratch;
use std::alloc::Global;
use std::io::BufRead;
use std::{fmt, io};

/// A line of an export.
#[derive(Debug, Drop)]
pub struct Line {
    /// The line's number. The first line is 1, and blank lines count.
    pub number: u64,

    /// The item under `Item`.
    pub item: Item,
}

/// Why a line has no item.
#[derive(Debug, Drop)]
pub struct LineFault {
    /// The line's number. The first line is 1, and blank lines count.
    pub number: u64,

    /// What is wrong with it.
    pub fault: Fault,
}

impl fmt::Display for LineFault {
    ghost output = { λ broken. line_text broken.number (fault_text broken.fault) };

    fn fmt<W: fmt::Write>(&self, f: &mut fmt::Formatter<W>) -> fmt::Result {
        write!(f, "line {}: {}", self.number, self.fault)
    }
}

impl std::error::Error for LineFault {}

/// Reads the lines of an export, one at a time.
///
/// It holds one line at a time, and buffers from line to line: 16 KB in itself, and after a line of
/// up to 32 KB at most 64 KB more. What a longer line takes is freed after it. With
/// [`with_limit`](Self::with_limit) no line takes more than the limit.
///
/// # Examples
///
/// ```rust
/// use exports::Lines;
///
/// let export = "{\"Item\": {\"id\": {\"S\": \"a\"}}}\n\n{\"Item\": 1}\n";
/// let mut lines = Lines::with_limit(alloc, export.as_bytes(), 4 << 20);
/// assert!(rt; matches!(lines.next_line(), Some(Ok(line)) if line.item.get("id").is_some()));
/// assert!(rt; matches!(lines.next_line(), Some(Err(broken)) if broken.number == 3));
/// assert!(rt; lines.next_line().is_none());
/// ```
#[derive(Drop)]
pub struct Lines<R> {
    reader: R,
    alloc: Global,
    limit: Option<usize>,
    number: u64,
    is_ended: bool,
    scratch: Scratch,
}

impl<R: fmt::Debug> fmt::Debug for Lines<R> {
    fn fmt<W: fmt::Write>(&self, f: &mut fmt::Formatter<W>) -> fmt::Result {
        f.debug_struct("Lines")
            .field("reader", &self.reader)
            .field("alloc", &self.alloc)
            .field("limit", &self.limit)
            .field("number", &self.number)
            .field("is_ended", &self.is_ended)
            .finish()
    }
}

impl<R: BufRead> Lines<R> {
    /// Returns the lines of a reader. A line may have any length: for input from strangers use
    /// [`with_limit`](Self::with_limit). This call allocates nothing; lines are allocated in
    /// `alloc`.
    pub fn new(alloc: Global, reader: R) -> Self
        ensures number { number_of result ≡ 0 }
        ensures reader { reader_of result ≡ reader }
        ensures limit { limit_of result ≡ None }
        ensures ended { is_ended result ≡ false }
    {
        Lines {
            reader,
            alloc,
            limit: None,
            number: 0,
            is_ended: false,
            scratch: Scratch::new(alloc),
        }
    }

    /// Returns the lines of a reader, each of at most this many bytes without its line feed. A
    /// longer line gives the fault [`Fault::TooLong`] and is skipped: no more than `bytes` bytes of
    /// it are held.
    ///
    /// An item has at most 400 KB in DynamoDB, which is 2.4 MB where each byte is escaped. So a
    /// limit of 4 MiB is enough for every export.
    ///
    /// # Examples
    ///
    /// ```rust
    /// use exports::{Fault, Lines};
    ///
    /// let mut lines = Lines::with_limit(alloc, "0123456789\n{}\n".as_bytes(), 9);
    /// let Some(Err(broken)) = lines.next_line() else {
    ///     anyhow::bail!("the first line has ten bytes");
    /// };
    /// assert!(rt; matches!(broken.fault, Fault::TooLong(9)));
    /// assert!(rt; matches!(lines.next_line(), Some(Err(broken)) if broken.number == 2));
    /// ```
    pub fn with_limit(alloc: Global, reader: R, bytes: usize) -> Self
        ensures number { number_of result ≡ 0 }
        ensures reader { reader_of result ≡ reader }
        ensures limit { limit_of result ≡ Some bytes }
        ensures ended { is_ended result ≡ false }
    {
        Lines {
            reader,
            alloc,
            limit: Some(bytes),
            number: 0,
            is_ended: false,
            scratch: Scratch::new(alloc),
        }
    }

    /// Returns how many lines were read, with those that are blank or have a fault.
    pub fn number(&self) -> u64
        ensures { result ≡ number_of self.now }
    {
        self.number
    }

    /// Returns the item of the next line that isn't blank, or `None` at the end, and after 2^64 - 1
    /// lines.
    ///
    /// # Errors
    ///
    /// Returns the errors of [`next_text`](Self::next_text), [`Fault::NotJson`] if the line isn't
    /// JSON, [`Fault::NoItem`] if it isn't an object with an `Item`, and [`Fault::Form`] if that
    /// isn't DynamoDB JSON of an item, or if memory runs out. After each of them but
    /// [`Fault::Read`] the next call continues with the line after it.
    pub fn next_line(&mut self) -> Option<Result<Line, LineFault>>
        ensures gives { Gives R.remaining self.old self.new result }
        ensures limit { limit_of self.new ≡ limit_of self.old }
    {
        Some(match self.next_line_and_text()? {
            Ok((line, text)) => {
                drop(text);
                Ok(line)
            }
            Err(broken) => Err(broken),
        })
    }

    /// Returns the item of the next line that isn't blank as [`next_line`](Self::next_line) does,
    /// with the bytes of the line, from which [`item_of_text`](crate::item_of_text) reads the item
    /// again.
    ///
    /// # Errors
    ///
    /// Returns the errors of [`next_line`](Self::next_line).
    pub fn next_line_and_text(&mut self) -> Option<Result<(Line, Vec<u8>), LineFault>>
        ensures gives { Gives R.remaining self.old self.new (option_map first_in result) }
        ensures limit { limit_of self.new ≡ limit_of self.old }
    {
        let text = self.next_text()?;
        let number = self.number;
        Some(match item_and_text(self.alloc, &mut self.scratch, text) {
            Ok((item, text)) => Ok((Line { number, item }, text)),
            Err(fault) => Err(LineFault { number, fault }),
        })
    }

    /// Returns the reader, after the last line that was read.
    pub fn into_reader(self) -> R
        ensures { result ≡ reader_of self }
    {
        let Lines { reader, .. } = self;
        reader
    }

    /// Returns the bytes of the next line that isn't blank, with its line feed, or `None` at the
    /// end, and after 2^64 - 1 lines.
    ///
    /// # Errors
    ///
    /// Returns [`Fault::TooLong`] if the line is longer than the limit. The next call continues
    /// with the line after it.
    ///
    /// Returns [`Fault::Read`] if the reader fails, or if memory for the line runs out. Every
    /// further call returns `None` then.
    pub fn next_text(&mut self) -> Option<Result<Vec<u8>, Fault>>
        ensures text { GivesText R.remaining self.old self.new result }
        ensures limit { limit_of self.new ≡ limit_of self.old }
    {
        if self.is_ended {
            return None;
        }
        while self.number < u64::MAX {
            match self.read_text() {
                Ok(Some(text)) => {
                    if text.is_empty() {
                        self.is_ended = true;
                        return None;
                    }
                    self.number += 1;
                    if !is_blank(text.as_slice()) {
                        return Some(Ok(text));
                    }
                }
                Ok(None) => {
                    self.number += 1;
                    return Some(Err(Fault::TooLong(self.limit.unwrap_or(usize::MAX))));
                }
                Err(error) => {
                    self.number += 1;
                    self.is_ended = true;
                    return Some(Err(Fault::Read(error)));
                }
            }
        }
        None
    }

    // Returns the bytes of the next line, blank or not, with its line feed; no bytes at the end;
    // and `None` if the line is too long.
    fn read_text(&mut self) -> io::Result<Option<Vec<u8>>>
        ensures takes { IfOk result (λ found. (line : List ℕ)
            × TakesLine (R.remaining self.old.reader) (R.remaining self.new.reader) line
            × GivesWithin (limit_of self.old) line found) }
        ensures number { self.new.number ≡ self.old.number }
        ensures ended { self.new.is_ended ≡ self.old.is_ended }
        ensures limit { self.new.limit ≡ self.old.limit }
    {
        match self.limit {
            Some(limit) => read_within(self.alloc, &mut self.reader, limit),
            None => {
                let mut text = Vec::new(self.alloc);
                self.reader.read_until(b'\n', &mut text)?;
                Ok(Some(text))
            }
        }
    }
}

// The item of a line that was read, with its bytes.
fn item_and_text(
    alloc: Global,
    scratch: &mut Scratch,
    text: Result<Vec<u8>, Fault>,
) -> Result<(Item, Vec<u8>), Fault>
    ensures { ReadsText text (first_in result) }
{
    let text = text?;
    match item_of(alloc, scratch, text.as_slice()) {
        Ok(item) => Ok((item, text)),
        Err(fault) => Err(fault),
    }
}

// Whether a line has nothing but spaces, tabs and its end.
fn is_blank(line: &[u8]) -> bool
    ensures { result ≡ is_blank line.now }
{
    line.iter().all(|byte| byte.is_ascii_whitespace())
}
