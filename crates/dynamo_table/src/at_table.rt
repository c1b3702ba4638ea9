//! What is asked of one table.
use crate::command::Asked;
use crate::key_words::{key_of_words, value_of_word};
use crate::load::Loading;
use crate::print::{Form, print_items, print_text};
use crate::put::item_of_text;
use crate::refusal::{Answer, Outcome, Refusal};
use crate::teller::Teller;
use crate::text::unmarked;
use crate::words::Flags;
use dynamo_value::Item;
use sqlite::{Alter, Connection};
use std::fs;
use std::io::Read;
use table_keys::{Key, KeyValue, Query, SortCondition, TableError};
use table_store::TableStore;

/// How many items a page has, and how many of a load a transaction.
pub const PAGE: usize = 500;

/// A command at work on a table.
#[derive(Drop)]
pub struct AtTable<'r, 'a, S: Alter + Drop> {
    /// Where its faults are printed.
    pub teller: Teller<'r>,

    /// The table's name.
    pub table: &'a str,

    /// The table.
    pub store: TableStore<S>,
}

impl<S: Alter + Drop> AtTable<'_, '_, S> {
    /// Runs what is asked, and gives the connection back.
    pub fn run(mut self, asked: Asked<'_>) -> (Option<Connection<S>>, Answer) {
        let answer = match asked {
            Asked::Count => self.count(),
            Asked::Put(input) => self.put(input),
            Asked::Load(input, flags) => self.load(input, flags),
            Asked::Get(partition, sort, form) => self.get(partition, sort, form),
            Asked::Delete(partition, sort) => self.delete(partition, sort),
            Asked::Query(partition, condition, flags) => self.query(partition, condition, flags),
            Asked::Scan(form) => self.print_pages(form, None),
        };
        (Some(self.store.into_connection()), answer)
    }

    // Prints how many items there are.
    fn count(&mut self) -> Answer {
        let count = self.store.count()?;
        let line = format!(in self.teller.rt.alloc(); "{count}\n")?;
        print_text(self.teller.rt, line.as_bytes())
    }

    // Prints the item of a key.
    fn get(&mut self, partition: &str, sort: Option<&str>, form: Form) -> Answer {
        let key = key_of_words(self.teller.rt.alloc(), self.store.schema(), partition, sort)?;
        let found = self.store.get(&key)?;
        self.print_found(form, found)
    }

    // Deletes and prints the item of a key.
    fn delete(&mut self, partition: &str, sort: Option<&str>) -> Answer {
        let key = key_of_words(self.teller.rt.alloc(), self.store.schema(), partition, sort)?;
        let found = self.store.delete(&key)?;
        self.print_found(Form::Bare, found)
    }

    fn print_found(&self, form: Form, found: Option<Item>) -> Answer {
        match found {
            Some(item) => print_items(self.teller.rt, form, &[item]),
            None => Err(Refusal::Text("the key has no item")),
        }
    }

    // Prints the items of a partition that meet a condition.
    fn query(&mut self, partition: &str, condition: &[&str], flags: Flags) -> Answer {
        let alloc = self.teller.rt.alloc();
        let partition = value_of_word(alloc, &self.store.schema().partition, partition)?;
        let values = self.sort_values(condition)?;
        let Some(sort) = condition_of(condition, values.as_slice()) else {
            return Ok(Outcome::Usage);
        };
        let query = Query {
            sort,
            backward: flags.backward,
            limit: PAGE,
            ..Query::of(&partition)
        };
        self.print_pages(flags.form(), Some(query))
    }

    // The values of a condition, which are after its name.
    fn sort_values(&self, condition: &[&str]) -> Answer<Vec<KeyValue>> {
        let alloc = self.teller.rt.alloc();
        let mut values = Vec::new(alloc);
        for word in condition.iter().skip(1) {
            match &self.store.schema().sort {
                Some(sort) => values.push(value_of_word(alloc, sort, word)?)?,
                None => return Err(Refusal::from(TableError::NoSortKey)),
            }
        }
        Ok(values)
    }

    // Prints the items that a query finds, or all, page by page.
    fn print_pages(&mut self, form: Form, query: Option<Query<'_>>) -> Answer {
        let mut last: Option<Key> = None;
        for _ in 0..u64::MAX {
            let start_after = last.as_ref();
            let items = match query {
                Some(query) => self.store.query(&Query {
                    start_after,
                    ..query
                })?,
                None => self.store.scan(PAGE, start_after)?,
            };
            print_items(self.teller.rt, form, items.as_slice())?;
            let Some(item) = items.last() else {
                break;
            };
            last = Some(self.store.key_of(item)?);
        }
        Ok(Outcome::Done)
    }

    // Puts the item of an input.
    fn put(&mut self, input: Option<&str>) -> Answer {
        let rt = self.teller.rt;
        let mut text = Vec::new(rt.alloc());
        match self.file(input)? {
            Some(mut file) => file.read_to_end(&mut text)?,
            None => rt.reader().read_to_end(&mut text)?,
        };
        let item = item_of_text(rt.alloc(), &self.store, unmarked(text.as_slice()))?;
        drop(self.store.put(&item)?);
        Ok(Outcome::Done)
    }

    // Loads an input.
    fn load(&mut self, input: Option<&str>, flags: Flags) -> Answer {
        let file = self.file(input)?;
        let loading = Loading::new(self.teller, &mut self.store, self.table, input, flags);
        match file {
            Some(file) => loading.run(file),
            None => loading.run(self.teller.rt.reader()),
        }
    }

    // The file of an input; none for standard input, from which a session reads its commands.
    fn file(&self, input: Option<&str>) -> Answer<Option<fs::File>> {
        let rt = self.teller.rt;
        match input {
            Some(path) => match fs::open(rt, path) {
                Ok(file) => Ok(Some(file)),
                Err(error) => Err(Refusal::message(format!(in rt.alloc(); "{path}: {error}"))),
            },
            None if self.teller.line.is_some() => Err(Refusal::Text(
                "in a session the input is a file, so it needs a name",
            )),
            None => Ok(None),
        }
    }
}

// The condition of a name and values; none where it is no condition.
fn condition_of<'a>(words: &[&str], values: &'a [KeyValue]) -> Option<SortCondition<'a>> {
    match (words.first(), values) {
        (None, []) => Some(SortCondition::Any),
        (Some(&"eq"), [value]) => Some(SortCondition::Equal(value)),
        (Some(&"lt"), [value]) => Some(SortCondition::Less(value)),
        (Some(&"le"), [value]) => Some(SortCondition::LessOrEqual(value)),
        (Some(&"gt"), [value]) => Some(SortCondition::Greater(value)),
        (Some(&"ge"), [value]) => Some(SortCondition::GreaterOrEqual(value)),
        (Some(&"begins_with"), [prefix]) => Some(SortCondition::BeginsWith(prefix)),
        (Some(&"between"), [low, high]) => Some(SortCondition::Between(low, high)),
        _ => None,
    }
}
