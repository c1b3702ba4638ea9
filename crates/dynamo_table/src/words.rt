//! The words of a command: its flags, and the words of a line.
use crate::print::Form;
use crate::refusal::{Answer, Refusal};
use std::alloc::Global;
use std::{mem, str};

/// How many bytes a line of an input may have where `--max-line` isn't given: 4 MiB. An item has at
/// most 400 KB in DynamoDB, which is 2.4 MB where every byte is escaped.
pub const MAX_LINE: usize = 4 << 20;

/// The flags after a command's other words.
#[derive(Clone, Copy, Default, Drop)]
pub struct Flags {
    /// `--backward`: a query goes from the greatest sort key to the least.
    pub backward: bool,

    /// `--keep-going`: a load passes over what has a fault.
    pub keep_going: bool,

    /// `--max-line BYTES`: how long a line of a load may be.
    pub max_line: Option<usize>,

    /// `--plain`: items are plain JSON.
    pub plain: bool,

    /// `--pretty`: items are printed over several lines.
    pub pretty: bool,
}

impl Flags {
    // Sets the flag of a word, if there is one and it isn't set yet, and returns whether it did.
    fn set(&mut self, word: &str) -> bool {
        let flag = match word {
            "--backward" => &mut self.backward,
            "--keep-going" => &mut self.keep_going,
            "--plain" => &mut self.plain,
            "--pretty" => &mut self.pretty,
            _ => return false,
        };
        !mem::replace(flag, true)
    }

    // Sets the longest line, if the words are that flag and a number, and it isn't set yet.
    fn set_max_line(&mut self, flag: &str, bytes: &str) -> bool {
        if flag != "--max-line" || self.max_line.is_some() {
            return false;
        }
        self.max_line = bytes.parse::<usize>().ok();
        self.max_line.is_some()
    }

    /// The form in which items are printed alone.
    pub fn form(self) -> Form {
        if self.pretty {
            Form::Pretty
        } else {
            Form::Bare
        }
    }
}

// Whether a command takes this flag.
fn takes(command: &str, flag: &str) -> bool {
    match command {
        "load" => matches!(flag, "--keep-going" | "--max-line" | "--plain"),
        "query" => matches!(flag, "--backward" | "--pretty"),
        "get" | "scan" => flag == "--pretty",
        "export" => flag == "--plain",
        _ => false,
    }
}

/// Returns the words before the flags at their end, and the flags. Each flag that the command takes
/// may be given once.
pub fn split_flags<'a>(words: &'a [&'a str], command: &str) -> (&'a [&'a str], Flags) {
    let mut flags = Flags::default();
    let mut length = words.len();
    // A word that is the value of the flag before it, if there is one.
    let mut value = None;
    for word in words.iter().rev() {
        match value {
            None if takes(command, word) && flags.set(word) => length = length.saturating_sub(1),
            None => value = Some(*word),
            Some(bytes) if takes(command, word) && flags.set_max_line(word, bytes) => {
                value = None;
                length = length.saturating_sub(2);
            }
            Some(_) => break,
        }
    }
    match words.split_at_checked(length) {
        Some((words, _)) => (words, flags),
        None => (words, flags),
    }
}

/// Refuses a word that looks like a flag, and isn't one that was split off. It would name an input,
/// or be one word too many. In the commands that take keys it is a key.
///
/// # Errors
///
/// A `Text` or a `Message` that says what is wrong with the flag.
pub fn check_words(alloc: Global, words: &[&str], command: &str, flags: Flags) -> Answer<()> {
    if !matches!(command, "count" | "put" | "load" | "scan" | "export") {
        return Ok(());
    }
    let mut misplaced = None;
    for word in words {
        if !word.starts_with("--") {
            continue;
        }
        if !takes(command, word) {
            return Err(Refusal::message(format!(in alloc; "{command} has no flag {word}")));
        }
        if *word == "--max-line" && flags.max_line.is_none() {
            return Err(Refusal::Text("--max-line needs a number of bytes"));
        }
        misplaced = Some(word);
    }
    match misplaced {
        Some(word) => Err(Refusal::message(format!(in alloc; "{word} comes last, and once"))),
        None => Ok(()),
    }
}

/// The words of a line, which blanks separate. A word that begins with a quote goes up to the next
/// quote, and may hold blanks.
///
/// # Errors
///
/// A `Text` if the line is no text by UTF-8, if a quote isn't closed, or if no blank follows a
/// closing quote.
pub fn words_in(alloc: Global, line: &[u8]) -> Answer<Vec<&str>> {
    let Ok(line) = str::from_utf8(line) else {
        return Err(Refusal::Text("it is no text by UTF-8"));
    };
    let mut words = Vec::new(alloc);
    let mut rest = line.trim();
    for _ in 0..line.len() {
        if rest.is_empty() {
            break;
        }
        let Some((word, behind)) = first_word(rest) else {
            return Err(Refusal::Text("a quote is not closed, or a blank is missing behind it"));
        };
        words.push(word)?;
        rest = behind.trim_start();
    }
    Ok(words)
}

// The word that a text begins with, and what is after it.
fn first_word(text: &str) -> Option<(&str, &str)> {
    let Some(quoted) = text.strip_prefix('"') else {
        return Some(text.split_once(char::is_whitespace).unwrap_or((text, "")));
    };
    let (word, behind) = quoted.split_once('"')?;
    let is_closed = behind.is_empty() || behind.starts_with(char::is_whitespace);
    is_closed.then_some((word, behind))
}
