//! The line of a row. Printing takes no memory.

use crate::answer::Answer;
use serde_dynamo::de::Deserialize;
use serde_dynamo::{AttributeValue, LentDeserializer, Result, from_attribute_value};
use std::fmt::{Debug, Display};
use std::io;

/// A line of answers, each after a label, with ` | ` between them. Once a part is not printed, none
/// is printed any more.
#[derive(Drop)]
pub struct Line<'a> {
    rt: &'a HostRuntime,
    between: &'static str,
    printed: io::Result<()>,
}

impl<'a> Line<'a> {
    /// A line without answers.
    pub fn new(rt: &'a HostRuntime) -> Line<'a> {
        Line {
            rt,
            between: "",
            printed: Ok(()),
        }
    }

    /// Prints the label of an answer, whose words follow.
    pub fn label(&mut self, label: &str) {
        if self.printed.is_ok() {
            self.printed = print!(self.rt; "{}{label}:", self.between);
            self.between = " | ";
        }
    }

    /// Prints a word of an answer.
    pub fn word<T: Display>(&mut self, word: &T) {
        if self.printed.is_ok() {
            self.printed = print!(self.rt; " {word}");
        }
    }

    /// Prints a label and an answer of one word.
    pub fn show<T: Display>(&mut self, label: &str, word: &T) {
        self.label(label);
        self.word(word);
    }

    /// Prints a label, and after it what a call returned: the value, or the kind of the error.
    /// Drops what was returned.
    pub fn say<T: Debug + Drop>(&mut self, label: &str, returned: Result<T>) {
        self.show(label, &Answer(&returned));
    }

    /// Reads a value lent and then taken. Prints what it reads as where it is taken, after the
    /// label, and then where it is lent, after `lent`.
    pub fn say_both<T: Deserialize + Debug + Drop>(&mut self, label: &str, value: AttributeValue) {
        let alloc = self.rt.alloc();
        let lent = T::deserialize(alloc, LentDeserializer::from_attribute_value(alloc, &value));
        self.say(label, from_attribute_value::<T>(alloc, value));
        self.say("lent", lent);
    }

    /// Ends the line of a row: where its values were not made, by that.
    pub fn end(self, made: Result<()>) -> io::Result<()> {
        self.printed?;
        match made {
            Ok(()) => println!(self.rt; ""),
            Err(error) => println!(self.rt; "making: {error}"),
        }
    }
}
