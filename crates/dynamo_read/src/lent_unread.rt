ghost use Rattle.std.specs.Prelude.{◌≡◌, true, false, map, string_bytes, IfOk, IfErr, Ok, None};
ghost use Rattle.dynamo_value.specs.Fault.{out_of_memory};
ghost use Rattle.dynamo_value.specs.Kind.{fault_of};
ghost use Rattle.dynamo_value.specs.View.{elements_view, members_view};
ghost use Rattle.dynamo_de.specs.Showing.{only_entry};
ghost use Rattle.dynamo_de.specs.Source.{entries_of, values_of, each, plain_text, number_text};
ghost use Rattle.dynamo_de.specs.Source.{byte_string};
ghost use Rattle.dynamo_read.specs.Lent.{lent_chosen, lent_counted, lent_elements, lent_entries};

use dynamo_value::{AttributeValue, Result, entries_by_key};
use std::alloc::Global;
use std::collections::HashMap;
use std::slice::Iter;
use std::vec::IntoIter;

/// The elements of a borrowed list or of a borrowed set that aren't read yet.
#[derive(Drop)]
pub struct LentElements<'a> {
    pub(crate) alloc: Global,
    pub(crate) rest: LentRest<'a>,
}

/// What is left of a borrowed list, of a borrowed set of strings, of numbers or of byte strings.
#[derive(Drop)]
pub(crate) enum LentRest<'a> {
    Values(Iter<'a, AttributeValue>),
    Texts(Iter<'a, String>),
    Numbers(Iter<'a, String>),
    ByteStrings(Iter<'a, Vec<u8>>),
}

impl<'a> LentElements<'a> {
    // The elements of a borrowed list. Like the other three it allocates nothing.
    pub(crate) fn values(alloc: Global, values: &'a Vec<AttributeValue>) -> Self
        ensures left { lent_elements result ≡ values_of (elements_view values.now.items) }
        ensures counted { lent_counted result ≡ true }
    {
        LentElements {
            alloc,
            rest: LentRest::Values(values.iter()),
        }
    }

    // The elements of a borrowed set of strings.
    pub(crate) fn texts(alloc: Global, texts: &'a Vec<String>) -> Self
        ensures left { lent_elements result ≡ each plain_text (map string_bytes texts.now.items) }
        ensures counted { lent_counted result ≡ false }
    {
        LentElements {
            alloc,
            rest: LentRest::Texts(texts.iter()),
        }
    }

    // The elements of a borrowed set of numbers.
    pub(crate) fn numbers(alloc: Global, numbers: &'a Vec<String>) -> Self
        ensures left { lent_elements result
            ≡ each number_text (map string_bytes numbers.now.items) }
        ensures counted { lent_counted result ≡ false }
    {
        LentElements {
            alloc,
            rest: LentRest::Numbers(numbers.iter()),
        }
    }

    // The elements of a borrowed set of byte strings.
    pub(crate) fn byte_strings(alloc: Global, byte_strings: &'a Vec<Vec<u8>>) -> Self
        ensures left { lent_elements result
            ≡ each byte_string (map (λ b. b.items) byte_strings.now.items) }
        ensures counted { lent_counted result ≡ false }
    {
        LentElements {
            alloc,
            rest: LentRest::ByteStrings(byte_strings.iter()),
        }
    }
}

/// The entries of a borrowed map that aren't read yet, in ascending order of the bytes of their
/// keys.
#[derive(Drop)]
pub struct LentEntries<'a> {
    pub(crate) alloc: Global,
    pub(crate) rest: IntoIter<(&'a String, &'a AttributeValue)>,
}

impl<'a> LentEntries<'a> {
    // All entries of the borrowed map.
    #[tactic(auto, using(crate::proofs::Views::entries_of_members))]
    pub(crate) fn of_map(alloc: Global, map: &'a HashMap<String, AttributeValue>) -> Result<Self>
        ensures ok { IfOk result
            (λ entries. lent_entries entries ≡ entries_of (members_view map.now.entries)) }
        ensures err { IfErr result (λ e. fault_of e ≡ out_of_memory) }
    {
        let rest = entries_by_key(alloc, map)?.into_iter();
        Ok(LentEntries { alloc, rest })
    }
}

/// A variant of an enum that isn't read yet, of a borrowed value.
#[derive(Drop)]
pub struct LentChoice<'a> {
    pub(crate) alloc: Global,
    pub(crate) form: LentForm<'a>,
}

/// A variant is written as its name, or as a map of its name to its content; either is borrowed.
#[derive(Drop)]
pub(crate) enum LentForm<'a> {
    Name(&'a String),
    Map(&'a HashMap<String, AttributeValue>),
}

impl<'a> LentChoice<'a> {
    // The variant of this borrowed name, without content. It allocates nothing.
    pub(crate) fn name(alloc: Global, name: &'a String) -> Self
        ensures { lent_chosen result ≡ Ok (string_bytes name.now, None) }
    {
        LentChoice {
            alloc,
            form: LentForm::Name(name),
        }
    }

    // The variant that the one key of the borrowed map names, with the value as its content. It
    // allocates nothing.
    pub(crate) fn map(alloc: Global, map: &'a HashMap<String, AttributeValue>) -> Self
        ensures { lent_chosen result ≡ only_entry (members_view map.now.entries) }
    {
        LentChoice {
            alloc,
            form: LentForm::Map(map),
        }
    }
}
