//! The text of an input: its byte order mark, and the JSON values in it.
use crate::refusal::Refusal;
use exports::{Fault, Position};

const MARK: &[u8] = b"\xEF\xBB\xBF";

/// How many levels of objects and arrays are read at most.
pub const LEVELS: usize = 127;

/// A text without a byte order mark at its head.
pub fn unmarked(text: &[u8]) -> &[u8] {
    text.strip_prefix(MARK).unwrap_or(text)
}

/// The part of a text that its first JSON value is in, and what is after it. A text that begins
/// with no JSON value is split somewhere.
pub fn first_value(text: &[u8]) -> (&[u8], &[u8]) {
    let mut scan = Scan::default();
    let mut length: usize = 0;
    for byte in text {
        length = length.saturating_add(1);
        if scan.ends_at(*byte) {
            break;
        }
    }
    text.split_at_checked(length).unwrap_or((text, &[]))
}

// What is open in a JSON text.
#[derive(Default, Drop)]
struct Scan {
    // How many objects and arrays.
    depth: usize,
    in_string: bool,
    // The byte before was a backslash in a string.
    is_escaped: bool,
}

impl Scan {
    // Whether a value ends at the next byte: the end of an object or an array, or of the line of a
    // value that is neither.
    fn ends_at(&mut self, byte: u8) -> bool {
        if self.in_string {
            self.in_string = self.is_escaped || byte != b'"';
            self.is_escaped = byte == b'\\' && !self.is_escaped;
            return false;
        }
        match byte {
            b'"' => self.in_string = true,
            b'{' | b'[' => self.depth = self.depth.saturating_add(1),
            b'}' | b']' => {
                self.depth = self.depth.saturating_sub(1);
                return self.depth == 0;
            }
            b'\n' => return self.depth == 0,
            _ => {}
        }
        false
    }
}

// Whether a text that isn't read up to here is JSON up to here, and nests too deep.
fn is_too_deep(text: &[u8], position: Position) -> bool {
    let mut scan = Scan::default();
    let mut at = Position { line: 1, column: 0 };
    for byte in text {
        if *byte == b'\n' {
            at.line = at.line.saturating_add(1);
            at.column = 0;
        } else {
            at.column = at.column.saturating_add(1);
        }
        scan.ends_at(*byte);
        if scan.depth > LEVELS {
            return (at.line, at.column) < (position.line, position.column);
        }
    }
    false
}

/// Where a text begins in an input.
#[derive(Clone, Copy, Drop)]
pub struct Start {
    /// The line, from 1 on.
    pub line: u64,

    /// How many bytes of the line are before it.
    pub column: usize,
}

impl Start {
    /// The start of a line.
    pub fn of_line(line: u64) -> Start {
        Start { line, column: 0 }
    }

    /// Where a text begins that is after this one, which begins here.
    pub fn behind(self, text: &[u8]) -> Start {
        let mut start = self;
        for byte in text {
            if *byte == b'\n' {
                start = Start::of_line(start.line.saturating_add(1));
            } else {
                start.column = start.column.saturating_add(1);
            }
        }
        start
    }

    /// Why a text that begins here isn't read, with the position in the input.
    pub fn refusal(self, text: &[u8], fault: Fault) -> Refusal {
        match fault {
            Fault::NotJson(position) => {
                let in_input = self.in_input(position);
                if is_too_deep(text, position) {
                    Refusal::TooDeep(in_input)
                } else {
                    Refusal::from(Fault::NotJson(in_input))
                }
            }
            fault => Refusal::from(fault),
        }
    }

    // A position in a text that begins here, in the input.
    fn in_input(self, position: Position) -> Position {
        if position.line == 1 {
            let column = position.column.saturating_add(self.column);
            return Position { line: 1, column };
        }
        let before = (self.line as usize).saturating_sub(1);
        Position {
            line: position.line.saturating_add(before),
            column: position.column,
        }
    }
}
