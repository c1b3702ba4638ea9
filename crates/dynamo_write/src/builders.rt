ghost use Rattle.std.specs.Prelude.{◌≡◌, MatchResult, OnOk, string_bytes};
ghost use Rattle.std.specs.FinMap.Entries as entries;
ghost use Rattle.dynamo_value.specs.Av as av;
ghost use Rattle.dynamo_value.specs.Fault.{out_of_memory};
ghost use Rattle.dynamo_value.specs.Item.{map_of};
ghost use Rattle.dynamo_value.specs.Kind.{fault_of};
ghost use Rattle.dynamo_value.specs.View.{view, entries_view, text_cmp};
ghost use Rattle.dynamo_write.specs.AttributeValues.{attribute_values, answers, refuses};
ghost use Rattle.dynamo_write.specs.Target.{parts_before};

use crate::{ListOf, MapOf, Serializer, StructOf, StructVariantOf, Target, TupleVariantOf};
use dynamo_value::{AttributeValue, Error, Item, Result};
use std::alloc::Global;
use std::collections::HashMap;

/// The builder of an `L`, for sequences, tuples and tuple structs.
pub type SerializerSeq = ListOf<Serializer>;

/// The builder of an `M`.
pub type SerializerMap = MapOf<Serializer>;

/// The builder of a struct's `M`.
pub type SerializerStruct = StructOf<Serializer>;

/// The builder of a tuple variant: an `M` of one entry, from the variant's name to an `L`.
pub type SerializerTupleVariant<'a> = TupleVariantOf<'a, Serializer>;

/// The builder of a struct variant: an `M` of one entry, from the variant's name to the `M` of its
/// fields.
pub type SerializerStructVariant<'a> = StructVariantOf<'a, Serializer>;

// Inserts an entry. It isn't inlined, so that a value without spare capacity is passed on where it
// lies.
#[inline(never)]
fn put(map: &mut HashMap<String, AttributeValue>, key: String, value: AttributeValue) -> Result<()>
    ensures ok { OnOk result
        (entries_view map.new.entries
        ≡ entries.put text_cmp (string_bytes key) (view value) (entries_view map.old.entries)) }
    ensures err { MatchResult result (λ _. Unit {0}) (λ e. fault_of e ≡ out_of_memory) }
{
    match map.insert(key, value) {
        Ok(_) => Ok(()),
        Err(error) => Err(Error::from(error)),
    }
}

impl Target for Serializer {
    type Map = Item;

    ghost about = { attribute_values };

    ghost members = { λ m. entries_view (map_of m).entries };

    ghost over = { λ alloc. record { alloc = alloc } };

    ghost answers = { λ s d v is. answers d v is };

    ghost refuses = { λ s d e is. refuses d e is };

    fn over(alloc: Global) -> Serializer {
        Serializer::new(alloc)
    }

    fn kept(value: AttributeValue) -> AttributeValue {
        value.fitted()
    }

    fn list(values: Vec<AttributeValue>) -> AttributeValue
        ensures { view result ≡ av.L (parts_before attribute_values values.items av.no_elements) }
    {
        AttributeValue::L(values)
    }

    fn no_members(alloc: Global) -> Item {
        Item::new(alloc)
    }

    fn reserve(map: &mut Item, additional: usize) -> Result<()> {
        map.inner_mut().reserve(additional)?;
        Ok(())
    }

    fn insert(map: &mut Item, key: String, value: AttributeValue) -> Result<()> {
        match &value {
            AttributeValue::M(_) => put(map.inner_mut(), key, value.fitted()),
            _other => put(map.inner_mut(), key, value),
        }
    }

    fn map(map: Item) -> AttributeValue {
        AttributeValue::M(map.into_inner())
    }
}
