ghost use Rattle.std.specs.Prelude.{◌≡◌, ◌⊎◌, [], map};
ghost use Rattle.dynamo_value.specs.Fault.{message, out_of_memory};
ghost use Rattle.dynamo_de.specs.Answer.{After};
ghost use Rattle.dynamo_de.specs.Meets.{Meets};
ghost use Rattle.dynamo_de.specs.Reading.{read_parts};
ghost use Rattle.dynamo_de.specs.Source.{Entry};
ghost use Rattle.dynamo_de.specs.Visitors.{by_name};
ghost use Rattle.dynamo_shape.specs.NameRules.{NameRules};
ghost use Rattle.dynamo_shape.specs.Read.{is_refused};
ghost use Rattle.dynamo_record.specs.ByRules.{Before, Held, Admits, EntersByRules};
ghost use Rattle.dynamo_record.specs.ByRules.{FromPartsByRules, rules_reads, duplicate_text};
ghost use Rattle.dynamo_record.specs.Names.{place_of};
ghost use Rattle.dynamo_record.specs.Entries.{IsEntry};
ghost use Rattle.dynamo_record.specs.Records.{listed, record_fields, AreNamed, AsLong};

use crate::names::{own_name, place_of};
use crate::record::{read_in_order, read_place};
use crate::variant_names::unknown_field;
use crate::{FieldList, Record};
use dynamo_de::{Deserializer, Error, Reader, Request, Showing, identifier_of};
use std::alloc::Global;

/// The rules by which a described struct takes the names of a map's entries: the other names of its
/// fields, as by serde's `alias`, and whether an unknown field is an error, as by serde's
/// `deny_unknown_fields`.
///
/// The struct is written as by [`Record`] alone. It is read by [`read_record_by_rules`]: each entry
/// is taken under the own name of its field. A second entry for one field is an error, and so is an
/// unknown field if the rules deny it. So what was written reads back if no other name is the own
/// name of a field.
///
/// # Examples
///
/// The names of a struct whose field `phone` has another name, and which denies unknown fields:
///
/// ```text
/// impl RecordRules for Contact {
///     ghost rules = { record { aliases = (codes "tel", codes "phone") ∷ []; denies = true } };
///
///     fn aliases() -> &'static [(&'static str, &'static str)] {
///         &[("tel", "phone")]
///     }
///
///     fn denies_unknown() -> bool {
///         true
///     }
/// }
/// ```
///
/// Its `reads` is `rules_reads`, and its `about` is `about_by_rules`, with the rules before the
/// description.
pub trait RecordRules: Record {
    // The other names of fields, each with the name of its field, and whether unknown ones are
    // refused.
    ghost rules: { NameRules };

    /// Returns the other names of fields, each with the name of its field.
    fn aliases() -> &'static [(&'static str, &'static str)]
        ensures { map (λ a. (a.0.now, a.1.now)) result.now ≡ rules.aliases };

    /// Returns whether an unknown field is an error.
    fn denies_unknown() -> bool
        ensures { result ≡ rules.denies };
}

/// The error of a second entry for the field with this name.
fn duplicate_field<E: Error>(alloc: Global, name: &str) -> E
    ensures { (E.fault result ≡ message (duplicate_text name.now))
        ⊎ (E.fault result ≡ out_of_memory) }
{
    match format!(in alloc; "duplicate field `{name}`") {
        Ok(text) => E::custom(alloc, &text),
        Err(_) => E::out_of_memory(),
    }
}

/// Refuses a second entry of one field, and an unknown field if the rules deny it.
fn admit<R: RecordRules, E: Error>(
    slots: &<R::Fields as FieldList>::Slots,
    place: usize,
    own: &str,
    alloc: Global,
) -> Result<(), E>
where
    R::Fields: FieldList,
    requires { AreNamed (listed R.about R.Fields.about) }
    ensures { (before : Before) → place ≡ place_of 0 R.about.names own.now
        → Held (record_fields (listed R.about R.Fields.about)) R.Fields.holds slots.now before
        → Meets E.fault
        (Admits
        (is_refused R.rules.denies (record_fields (listed R.about R.Fields.about)) before own.now))
        result }
{
    let names = R::names();
    if place < names.len() {
        if <R::Fields as FieldList>::is_read(slots, place) {
            Err(duplicate_field(alloc, own))
        } else {
            Ok(())
        }
    } else if R::denies_unknown() {
        Err(unknown_field(alloc, own, names))
    } else {
        Ok(())
    }
}

/// Reads an entry as the field with the name of its key, or with this other name.
fn read_entry<R: RecordRules, D: Reader>(
    slots: &mut <R::Fields as FieldList>::Slots,
    key: D,
    value: D,
    alloc: Global,
) -> Result<(), D::Error>
where
    R::Fields: FieldList,
    requires { AreNamed (listed R.about R.Fields.about) }
    ensures { (e : Entry) (before : Before) → IsEntry D.source (key, value) e
        → Held (record_fields (listed R.about R.Fields.about)) R.Fields.holds slots.old before
        → Meets D.Error.fault
        (EntersByRules R.rules (record_fields (listed R.about R.Fields.about)) R.Fields.holds before
        slots.new e) result }
{
    let name = identifier_of(alloc, key, "field identifier")?;
    let own = own_name(R::aliases(), name.as_str());
    let names = R::names();
    let place = place_of(names, own);
    admit::<R, D::Error>(slots, place, own, alloc)?;
    read_place::<R, D>(slots, place, value, alloc)
}

/// Reads the entries of a map as the fields of a struct.
fn read_entries<R: RecordRules, D: Reader>(
    alloc: Global,
    mut entries: D::Entries,
) -> Result<R, D::Error>
where
    R::Fields: FieldList,
    requires { AreNamed (listed R.about R.Fields.about) }
    ensures { Meets D.Error.fault
        (FromPartsByRules R.rules (listed R.about R.Fields.about) (by_name (D.entries entries)))
        result }
{
    let mut slots = <R::Fields as FieldList>::unread();
    while let Some((key, value)) = D::next_entry(&mut entries) {
        if let Err(error) = read_entry::<R, D>(&mut slots, key, value, alloc) {
            <R::Fields as FieldList>::discard_slots(slots);
            return Err(error);
        }
    }
    match <R::Fields as FieldList>::complete::<D::Error>(slots, R::names(), alloc) {
        Ok(completed) => Ok(R::make(completed.0)),
        Err(error) => Err(error),
    }
}

/// Reads a struct by its rules from a map, or in order from a sequence.
fn read_shown<R: RecordRules, D: Reader>(alloc: Global, reader: D) -> Result<R, D::Error>
where
    R::Fields: FieldList,
    requires { AsLong R.about R.Fields.about }
    ensures { Meets D.Error.fault
        (After (read_parts (D.source reader))
        (FromPartsByRules R.rules (listed R.about R.Fields.about))) result }
{
    match reader.show(Request::Struct)? {
        Showing::Map(entries) => read_entries::<R, D>(alloc, entries),
        Showing::Sequence(elements) => read_in_order::<R, D>(alloc, elements),
        other => Err(other.refused(alloc, R::expecting())),
    }
}

/// Reads a struct by its description and its rules. It is the body of `deserialize`.
///
/// # Errors
///
/// Returns the first error of a field.
///
/// Returns an error with a message for a missing field and for a list that is too short; for a
/// second entry of one field, as ``duplicate field `name` ``; and for an unknown field if the rules
/// deny it.
///
/// Returns an error for data that are neither a map nor a list.
///
/// Returns the error for out of memory if memory runs out.
pub fn read_record_by_rules<R: RecordRules, D: Deserializer>(
    alloc: Global,
    deserializer: D,
) -> Result<R, D::Error>
where
    R::Fields: FieldList,
    requires { AsLong R.about R.Fields.about }
    ensures { Meets D.Error.fault
        (rules_reads R.rules (listed R.about R.Fields.about) (D.source deserializer)) result }
{
    read_shown::<R, D>(alloc, deserializer)
}
