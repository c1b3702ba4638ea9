//! The commands, as their words say them.
use crate::print::Form;
use crate::refusal::Answer;
use crate::words::{Flags, check_words, split_flags};
use std::alloc::Global;

/// A command on a file of tables.
#[derive(Clone, Copy, Drop)]
pub enum Command<'a> {
    /// To print the tables.
    List,

    /// To make a table of this name, by the words of its keys.
    Create(&'a str, &'a [&'a str]),

    /// To delete a table of this name with its items.
    Drop(&'a str),

    /// What is asked of the table of this name.
    Of(&'a str, Asked<'a>),
}

/// What is asked of one table.
#[derive(Clone, Copy, Drop)]
pub enum Asked<'a> {
    /// How many items it has.
    Count,

    /// To put the one item of an input.
    Put(Option<&'a str>),

    /// To put and delete what an input holds.
    Load(Option<&'a str>, Flags),

    /// The item of a key.
    Get(&'a str, Option<&'a str>, Form),

    /// To delete the item of a key.
    Delete(&'a str, Option<&'a str>),

    /// The items of a partition that meet a condition on the sort key.
    Query(&'a str, &'a [&'a str], Flags),

    /// All items.
    Scan(Form),
}

impl<'a> Command<'a> {
    /// The command of a name and the words after it, but for the file's name; none where they are
    /// no command.
    ///
    /// # Errors
    ///
    /// Those of [`check_words`].
    pub fn of(alloc: Global, name: &str, words: &'a [&'a str]) -> Answer<Option<Command<'a>>> {
        Ok(match (name, words) {
            ("list", []) => Some(Command::List),
            ("create", [table, keys @ ..]) => Some(Command::Create(table, keys)),
            ("drop", [table]) => Some(Command::Drop(table)),
            (_, [table, words @ ..]) => {
                let (words, flags) = split_flags(words, name);
                check_words(alloc, words, name, flags)?;
                Asked::of(name, words, flags).map(|asked| Command::Of(table, asked))
            }
            _ => None,
        })
    }

    /// Whether the command changes a table.
    pub fn changes(self) -> bool {
        match self {
            Command::List => false,
            Command::Create(_, _) | Command::Drop(_) => true,
            Command::Of(_, asked) => matches!(
                asked,
                Asked::Put(_) | Asked::Load(_, _) | Asked::Delete(_, _)
            ),
        }
    }
}

impl<'a> Asked<'a> {
    // What a name, the words after the table's name and the flags ask of a table.
    fn of(name: &str, words: &'a [&'a str], flags: Flags) -> Option<Asked<'a>> {
        Some(match (name, words) {
            ("count", []) => Asked::Count,
            ("put", [] | [_]) => Asked::Put(words.first().copied()),
            ("load", [] | [_]) => Asked::Load(words.first().copied(), flags),
            ("get", [key] | [key, _]) => Asked::Get(key, words.get(1).copied(), flags.form()),
            ("delete", [key] | [key, _]) => Asked::Delete(key, words.get(1).copied()),
            ("query", [partition, condition @ ..]) => Asked::Query(partition, condition, flags),
            ("scan", []) => Asked::Scan(flags.form()),
            ("export", []) if flags.plain => Asked::Scan(Form::Plain),
            ("export", []) => Asked::Scan(Form::Export),
            _ => return None,
        })
    }
}
