//! The entries of a map that are held, so that one of them is read before the others.
ghost use Rattle.std.specs.Prelude.{◌≡◌, List, [], MatchResult};
ghost use Rattle.dynamo_value.specs.Fault.{out_of_memory};
ghost use Rattle.dynamo_de.specs.Answer.{Gives};
ghost use Rattle.dynamo_de.specs.Ignored.{ignore_entries};
ghost use Rattle.dynamo_de.specs.Meets.{Meets};
ghost use Rattle.dynamo_de.specs.Source.{Entry, attribute};
ghost use Rattle.dynamo_de.specs.Visitors.{by_name};
ghost use Rattle.dynamo_shape.proofs.FieldsByName.{Slots};
ghost use Rattle.dynamo_record.specs.Entries.{Enters};
ghost use Rattle.dynamo_record.specs.Held.{Holds, IsLast};
ghost use Rattle.dynamo_record.specs.Records.{listed, record_fields, FromParts, AreNamed};

use crate::names::place_of;
use crate::{FieldList, Record};
use dynamo_de::{Deserialize, Error, IgnoredAny, Reader, identifier_of};
use std::alloc::Global;

/// Returns the entries, each with an unread value, the index of the last one with this name, and the
/// rest: the entries after all of them, none.
pub(crate) fn held_entries<D: Reader>(
    alloc: Global,
    mut entries: D::Entries,
    tag: &str,
) -> Result<(Vec<(String, D)>, Option<usize>, D::Entries), D::Error>
    ensures { MatchResult result
        (λ held. Holds D.source held.0.items (D.entries entries)
        × IsLast tag.now (D.entries entries) held.1) (λ e. D.Error.fault e ≡ out_of_memory) }
{
    let mut held = Vec::new(alloc);
    let mut last = None;
    while let Some((key, value)) = D::next_entry(&mut entries) {
        let name = identifier_of(alloc, key, "field identifier")?;
        if tag == name.as_str() {
            last = Some(held.len());
        }
        match held.push((name, value)) {
            Ok(()) => {}
            Err(_) => return Err(D::Error::out_of_memory()),
        }
    }
    Ok((held, last, entries))
}

/// Reads a held entry as the field with its name. The value of any other name is ignored.
fn read_held_entry<R: Record, D: Reader>(
    slots: &mut <R::Fields as FieldList>::Slots,
    name: &str,
    value: D,
    alloc: Global,
) -> Result<(), D::Error>
where
    R::Fields: FieldList,
    ensures { AreNamed (listed R.about R.Fields.about) → (e : Entry) (os : Slots) → name.now ≡ e.0
        → D.source value ≡ attribute e.1
        → R.Fields.holds slots.old os []
        → Meets D.Error.fault
        (Enters (λ x os. R.Fields.holds x os []) (record_fields (listed R.about R.Fields.about)) os
        slots.new e) result }
{
    let names = R::names();
    let place = place_of(names, name);
    if place < names.len() {
        <R::Fields as FieldList>::read_value(slots, place, value, alloc)
    } else {
        IgnoredAny::deserialize(alloc, value)?;
        Ok(())
    }
}

/// Reads held entries as the fields of a struct. `rest` is what [`held_entries`] left.
pub(crate) fn read_held<R: Record, D: Reader>(
    alloc: Global,
    held: Vec<(String, D)>,
    rest: &D::Entries,
) -> Result<R, D::Error>
where
    R::Fields: FieldList,
    ensures { AreNamed (listed R.about R.Fields.about) → (es : List Entry)
        → Holds D.source held.items es
        → Meets D.Error.fault (FromParts (listed R.about R.Fields.about) (by_name es)) result }
{
    let mut slots = <R::Fields as FieldList>::unread();
    for (name, value) in held {
        if let Err(error) = read_held_entry::<R, D>(&mut slots, name.as_str(), value, alloc) {
            <R::Fields as FieldList>::discard_slots(slots);
            return Err(error);
        }
    }
    // A reader that keeps the place of an error comes back from the last value to the whole map.
    let _none = D::entries_left(rest);
    match <R::Fields as FieldList>::complete::<D::Error>(slots, R::names(), alloc) {
        Ok(completed) => Ok(R::make(completed.0)),
        Err(error) => Err(error),
    }
}

/// Ignores held entries.
pub(crate) fn ignore_held<D: Reader>(alloc: Global, held: Vec<(String, D)>) -> Result<(), D::Error>
    ensures { (es : List Entry) → Holds D.source held.items es
        → Meets D.Error.fault (Gives (λ u. u) (ignore_entries es)) result }
{
    for (_name, value) in held {
        IgnoredAny::deserialize(alloc, value)?;
    }
    Ok(())
}
