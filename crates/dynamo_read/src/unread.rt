ghost use Rattle.std.specs.Prelude.{◌≡◌, true, false, map, string_bytes, IfOk, IfErr, OnOk, OnErr};
ghost use Rattle.std.specs.Prelude.{[], Ok, None};
ghost use Rattle.dynamo_value.specs.Fault.{out_of_memory};
ghost use Rattle.dynamo_value.specs.Kind.{fault_of};
ghost use Rattle.dynamo_value.specs.View.{elements_view, members_view, entries_view};
ghost use Rattle.dynamo_de.specs.Showing.{only_entry};
ghost use Rattle.dynamo_de.specs.Source.{entries_of, values_of, each, plain_text, number_text};
ghost use Rattle.dynamo_de.specs.Source.{byte_string};
ghost use Rattle.dynamo_read.specs.Unread.{elements_left, elements_counted, entries_left};
ghost use Rattle.dynamo_read.specs.Unread.{chosen_of};

use crate::entries::sorted;
use dynamo_value::{AttributeValue, Result};
use std::alloc::Global;
use std::collections::HashMap;
use std::vec::IntoIter;

/// The elements of a list or of a set that aren't read yet.
#[derive(Drop)]
pub struct Elements {
    pub(crate) alloc: Global,
    pub(crate) rest: Rest,
}

/// What is left of a list, of a set of strings, of numbers or of byte strings.
#[derive(Drop)]
pub(crate) enum Rest {
    Values(IntoIter<AttributeValue>),
    Texts(IntoIter<String>),
    Numbers(IntoIter<String>),
    ByteStrings(IntoIter<Vec<u8>>),
}

impl Elements {
    // The elements of a list. It allocates nothing.
    pub(crate) fn values(alloc: Global, values: Vec<AttributeValue>) -> Self
        ensures left { elements_left result ≡ values_of (elements_view values.items) }
        ensures counted { elements_counted result ≡ true }
    {
        Elements {
            alloc,
            rest: Rest::Values(values.into_iter()),
        }
    }

    // The elements of a set of strings. It allocates nothing.
    pub(crate) fn texts(alloc: Global, texts: Vec<String>) -> Self
        ensures left { elements_left result ≡ each plain_text (map string_bytes texts.items) }
        ensures counted { elements_counted result ≡ false }
    {
        Elements {
            alloc,
            rest: Rest::Texts(texts.into_iter()),
        }
    }

    // The elements of a set of numbers. It allocates nothing.
    pub(crate) fn numbers(alloc: Global, numbers: Vec<String>) -> Self
        ensures left { elements_left result ≡ each number_text (map string_bytes numbers.items) }
        ensures counted { elements_counted result ≡ false }
    {
        Elements {
            alloc,
            rest: Rest::Numbers(numbers.into_iter()),
        }
    }

    // The elements of a set of byte strings. It allocates nothing.
    pub(crate) fn byte_strings(alloc: Global, byte_strings: Vec<Vec<u8>>) -> Self
        ensures left { elements_left result
            ≡ each byte_string (map (λ b. b.items) byte_strings.items) }
        ensures counted { elements_counted result ≡ false }
    {
        Elements {
            alloc,
            rest: Rest::ByteStrings(byte_strings.into_iter()),
        }
    }
}

/// The entries of a map that aren't read yet, in ascending order of the bytes of their keys.
#[derive(Drop)]
pub struct Entries {
    pub(crate) alloc: Global,
    pub(crate) rest: IntoIter<(String, AttributeValue)>,
}

impl Entries {
    // All entries leave the map. If memory runs out, the map holds what it held.
    pub(crate) fn take(alloc: Global, map: &mut HashMap<String, AttributeValue>) -> Result<Self>
        ensures ok { IfOk result (λ entries. entries_left entries ≡ entries_view map.old.entries) }
        ensures empty { OnOk result (map.new.entries ≡ []) }
        ensures err { IfErr result (λ e. fault_of e ≡ out_of_memory) }
        ensures unchanged { OnErr result (map.new ≡ map.old) }
    {
        let list = Vec::with_capacity(alloc, map.len())?;
        let map = std::mem::replace(map, HashMap::new(alloc));
        let rest = sorted(map, list).into_iter();
        Ok(Entries { alloc, rest })
    }

    // All entries of the map.
    #[tactic(auto, using(crate::proofs::Views::entries_of_members))]
    pub(crate) fn of_map(alloc: Global, map: HashMap<String, AttributeValue>) -> Result<Self>
        ensures ok { IfOk result
            (λ entries. entries_left entries ≡ entries_of (members_view map.entries)) }
        ensures err { IfErr result (λ e. fault_of e ≡ out_of_memory) }
    {
        let list = Vec::with_capacity(alloc, map.len())?;
        let rest = sorted(map, list).into_iter();
        Ok(Entries { alloc, rest })
    }
}

/// A variant of an enum that isn't read yet.
#[derive(Drop)]
pub struct Choice {
    pub(crate) alloc: Global,
    pub(crate) form: Form,
}

/// A variant is written as its name, or as a map of its name to its content.
#[derive(Drop)]
pub(crate) enum Form {
    Name(String),
    Map(HashMap<String, AttributeValue>),
}

impl Choice {
    // The variant of this name, without content. It allocates nothing.
    pub(crate) fn name(alloc: Global, name: String) -> Self
        ensures { chosen_of result ≡ Ok (string_bytes name, None) }
    {
        Choice {
            alloc,
            form: Form::Name(name),
        }
    }

    // The variant that the one key of the map names, with the value as its content. It allocates
    // nothing.
    pub(crate) fn map(alloc: Global, map: HashMap<String, AttributeValue>) -> Self
        ensures { chosen_of result ≡ only_entry (members_view map.entries) }
    {
        Choice {
            alloc,
            form: Form::Map(map),
        }
    }
}
