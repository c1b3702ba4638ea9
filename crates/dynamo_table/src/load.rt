//! Loading an input into a table, some hundred items in a transaction.
use crate::at_table::PAGE;
use crate::document::{Document, document_of};
use crate::from_plain::item_of_plain;
use crate::key_words::item_refusal;
use crate::refusal::{Answer, Outcome, Refusal};
use crate::teller::{Place, Teller};
use crate::text::{Start, first_value, unmarked};
use crate::words::{Flags, MAX_LINE};
use dynamo_place::DynamoJsonLocated;
use dynamo_value::Item;
use exports::{Fault, Lines, Request, change_of, item_alone, json_of, one_request_located};
use json::{Scratch, is_valid};
use serde_json::Value;
use sqlite::Alter;
use std::alloc::{AllocError, Global};
use std::io::{BufRead, BufReader, IsTerminal, Read};
use std::str;
use table_store::{StoreError, TableStore};

/// A load at work: what is loaded of an input so far.
#[derive(Drop)]
pub struct Loading<'r, 'a, 'i, S: Alter + Drop> {
    teller: Teller<'r>,
    store: &'a mut TableStore<S>,
    table: &'a str,
    // The name of the input's file, where it has one.
    input: Option<&'i str>,
    flags: Flags,
    scratch: Scratch,
    // How many puts and deletes are in the table.
    loaded: u64,
    // How many lines and entries have a fault.
    broken: u64,
    // Items that are put but not in the table yet.
    waiting: Vec<Item>,
}

impl<'r, 'a, 'i, S: Alter + Drop> Loading<'r, 'a, 'i, S> {
    /// A load into this table that hasn't begun.
    pub fn new(
        teller: Teller<'r>,
        store: &'a mut TableStore<S>,
        table: &'a str,
        input: Option<&'i str>,
        flags: Flags,
    ) -> Self {
        Loading {
            teller,
            store,
            table,
            input,
            flags,
            scratch: Scratch::new(teller.rt.alloc()),
            loaded: 0,
            broken: 0,
            waiting: Vec::new(teller.rt.alloc()),
        }
    }

    /// Puts and deletes what an input holds: line by line if its first line is a JSON value, and
    /// else the JSON values of the whole text. The load prints a fault, and ends with all before it
    /// in the table or goes on after it.
    ///
    /// # Errors
    ///
    /// Those of the table, and of the input. What was loaded stays.
    pub fn run<R: Read + Drop>(mut self, reader: R) -> Answer {
        let mut lines = self.lines(BufReader::new(self.alloc(), reader)?);
        match self.first_line(&mut lines)? {
            Some(first) if !self.is_json(first.as_slice())? => {
                let text = self.whole_text(first.as_slice(), lines)?;
                self.take_whole(text.as_slice())?;
            }
            Some(first) => {
                self.take_text(Start::of_line(lines.number()), first.as_slice())?;
                self.take_lines(&mut lines)?;
            }
            None => self.take_lines(&mut lines)?,
        }
        self.write()?;
        self.end()
    }

    fn alloc(&self) -> Global {
        self.teller.rt.alloc()
    }

    // The lines of a reader, with the limit of the flags.
    fn lines<R: BufRead>(&self, reader: R) -> Lines<R> {
        let limit = self.flags.max_line.unwrap_or(MAX_LINE);
        Lines::with_limit(self.alloc(), reader, limit)
    }

    // The first line that isn't blank, without a byte order mark; none at the end, and none if the
    // line is too long, which is a fault.
    fn first_line<R: BufRead>(&mut self, lines: &mut Lines<R>) -> Answer<Option<Vec<u8>>> {
        for _ in 0..u64::MAX {
            let line = match lines.next_text() {
                Some(Ok(line)) => line,
                Some(Err(fault @ Fault::TooLong(_))) => {
                    self.tell(self.at(lines.number()), Refusal::from(fault));
                    break;
                }
                Some(Err(fault)) => return Err(Refusal::from(fault)),
                None => break,
            };
            let mut text = line.as_slice();
            if lines.number() == 1 {
                text = unmarked(text);
            }
            if !text.trim_ascii_start().is_empty() {
                return Ok(Some(Vec::from_slice(self.alloc(), text)?));
            }
        }
        Ok(None)
    }

    // Whether a text is one JSON value.
    fn is_json(&mut self, text: &[u8]) -> Result<bool, AllocError> {
        match str::from_utf8(text) {
            Ok(text) => is_valid(text, &mut self.scratch),
            Err(_) => Ok(false),
        }
    }

    // The whole text of an input whose first line that isn't blank was read, with line feeds for
    // the blank ones before.
    fn whole_text<R: BufRead + Drop>(&self, first: &[u8], lines: Lines<R>) -> Answer<Vec<u8>> {
        let mut text = Vec::new(self.alloc());
        for _ in 1..lines.number() {
            text.push(b'\n')?;
        }
        text.extend_from_slice(first)?;
        lines.into_reader().read_to_end(&mut text)?;
        Ok(text)
    }

    // Takes the lines that are left, one by one.
    fn take_lines<R: BufRead>(&mut self, lines: &mut Lines<R>) -> Answer<()> {
        for _ in 0..u64::MAX {
            if self.is_over() {
                break;
            }
            match lines.next_text() {
                Some(Ok(line)) => {
                    self.take_text(Start::of_line(lines.number()), line.as_slice())?;
                }
                Some(Err(fault)) => self.tell(self.at(lines.number()), Refusal::from(fault)),
                None => break,
            }
        }
        Ok(())
    }

    // Takes the JSON values of a whole text. Where it begins with none, its lines are taken one by
    // one, as those of a file whose first line is broken.
    fn take_whole(&mut self, text: &[u8]) -> Answer<()> {
        let mut rest = text;
        let mut start = Start::of_line(1);
        for turn in 0..u64::MAX {
            let value = rest.trim_ascii_start();
            if value.is_empty() || self.is_over() {
                break;
            }
            let blank = rest.len().saturating_sub(value.len());
            start = start.behind(rest.get(..blank).unwrap_or(&[]));
            let (value, behind) = first_value(value);
            if turn == 0 && self.flags.keep_going && !self.is_json(value)? {
                return self.take_lines(&mut self.lines(text));
            }
            self.take_text(start, value)?;
            start = start.behind(value);
            rest = behind;
        }
        Ok(())
    }

    // Takes a JSON value that begins here in the input.
    fn take_text(&mut self, start: Start, text: &[u8]) -> Answer<()> {
        let (alloc, place) = (self.alloc(), self.at(start.line));
        if self.flags.plain {
            let item = item_of_plain(alloc, &mut self.scratch, text);
            let item = item.map_err(|fault| start.refusal(text, fault));
            return self.take(place, item.map(Request::Put));
        }
        if let Some(item) = item_alone(alloc, &mut self.scratch, text)? {
            return self.take(place, Ok(Request::Put(item)));
        }
        match json_of(alloc, text) {
            Ok(json) => self.take_json(start.line, &json),
            Err(fault) => self.take(place, Err(start.refusal(text, fault))),
        }
    }

    // Takes what a JSON value holds for the table.
    fn take_json(&mut self, line: u64, json: &Value) -> Answer<()> {
        match document_of(self.alloc(), json, self.table) {
            Ok(Document::Change) => {
                let request = change_of(self.alloc(), json);
                self.take(self.at(line), request.map_err(Refusal::from))
            }
            Ok(Document::Items(items)) => self.take_each(line, items, false),
            Ok(Document::Requests(requests)) => self.take_each(line, requests, true),
            Err(refusal) => {
                self.tell(self.at(line), refusal);
                Ok(())
            }
        }
    }

    // Takes the entries of a list, in order: requests, or items that are put.
    fn take_each(&mut self, line: u64, list: &[Value], are_requests: bool) -> Answer<()> {
        let alloc = self.alloc();
        let mut entry: u64 = 0;
        for json in list {
            if self.is_over() {
                break;
            }
            entry = entry.saturating_add(1);
            let place = Place {
                entry: Some(entry),
                ..self.at(line)
            };
            let request = if are_requests {
                one_request_located(alloc, json)
            } else {
                Item::from_json_located(alloc, json).map(Request::Put)
            };
            self.take(
                place,
                request.map_err(|error| Refusal::from(Fault::from(error))),
            )?;
        }
        Ok(())
    }

    // Takes a put or a delete, or tells why there is none.
    fn take(&mut self, place: Place<'i>, request: Answer<Request>) -> Answer<()> {
        match request {
            Ok(Request::Put(item)) => match self.store.check(&item) {
                Ok(()) => self.put(item)?,
                Err(error) => self.tell_item(place, &item, error),
            },
            Ok(Request::Delete(key)) => self.delete(place, &key)?,
            Err(refusal) => self.tell(place, refusal),
        }
        Ok(())
    }

    // Puts an item, which waits for a transaction of some hundred.
    fn put(&mut self, item: Item) -> Answer<()> {
        self.waiting.push(item)?;
        if self.waiting.len() >= PAGE {
            self.write()?;
        }
        Ok(())
    }

    // Deletes the item of a key, after the items that wait are in the table.
    fn delete(&mut self, place: Place<'i>, item: &Item) -> Answer<()> {
        match self.store.key_of(item) {
            Ok(key) => {
                self.write()?;
                drop(self.store.delete(&key)?);
                self.loaded = self.loaded.saturating_add(1);
            }
            Err(error) => self.tell_item(place, item, StoreError::from(error)),
        }
        Ok(())
    }

    // Puts the items that wait into the table, in one transaction.
    fn write(&mut self) -> Answer<()> {
        if self.waiting.is_empty() {
            return Ok(());
        }
        self.store.write_all(self.waiting.as_slice())?;
        self.loaded = self.loaded.saturating_add(self.waiting.len() as u64);
        self.waiting.clear();
        let rt = self.teller.rt;
        if rt.stderr().is_terminal() {
            let _ = eprint!(rt; "\r{} items loaded", self.loaded);
        }
        Ok(())
    }

    // How the load ended.
    fn end(&self) -> Answer {
        let rt = self.teller.rt;
        if rt.stderr().is_terminal() {
            let _ = eprintln!(rt; "");
        }
        match self.broken {
            0 => Ok(Outcome::Done),
            1 if !self.flags.keep_going => Ok(Outcome::Told),
            count => Err(Refusal::message(format!(in rt.alloc();
                "lines that are not loaded: {count}"
            ))),
        }
    }

    // Whether a fault ends the load.
    fn is_over(&self) -> bool {
        self.broken > 0 && !self.flags.keep_going
    }

    // The place of a line.
    fn at(&self, line: u64) -> Place<'i> {
        Place {
            input: self.input,
            line,
            entry: None,
        }
    }

    // Tells a fault, and counts it.
    fn tell(&mut self, place: Place<'i>, refusal: Refusal) {
        self.teller.tell(format_args!("{place}: {refusal}"));
        self.broken = self.broken.saturating_add(1);
    }

    // Tells why an item has no key of the table, or isn't kept.
    fn tell_item(&mut self, place: Place<'i>, item: &Item, error: StoreError) {
        let refusal = item_refusal(self.alloc(), self.store.schema(), item, error);
        self.tell(place, refusal);
    }
}
