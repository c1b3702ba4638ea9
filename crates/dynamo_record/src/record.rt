ghost use Rattle.std.specs.Prelude.{◌≡◌, ◌++◌, codes, map, []};
ghost use Rattle.dynamo_ser.specs.Datum as datum;
ghost use Rattle.dynamo_ser.specs.Writes.{Writes};
ghost use Rattle.dynamo_de.specs.Answer.{After};
ghost use Rattle.dynamo_de.specs.Meets.{Meets};
ghost use Rattle.dynamo_de.specs.Reading as reading;
ghost use Rattle.dynamo_de.specs.Source.{Entry, attribute};
ghost use Rattle.dynamo_de.specs.Visitors.{by_name, in_order};
ghost use Rattle.dynamo_shape.specs.Conforms.{conforms};
ghost use Rattle.dynamo_shape.specs.Shape.{struct};
ghost use Rattle.dynamo_shape.proofs.FieldsByName.{Slots};
ghost use Rattle.dynamo_record.specs.Entries.{IsEntry, Enters};
ghost use Rattle.dynamo_record.specs.Fields.{field_shapes, named_fields};
ghost use Rattle.dynamo_record.specs.Records.{AboutRecord, listed, record_fields, record_reads};
ghost use Rattle.dynamo_record.specs.Records.{FromParts, AreNamed, AsLong, place_in};

use crate::content::too_few;
use crate::names::place_of_key;
use crate::{FieldList, RefList};
use dynamo_de::{Deserialize, Deserializer, IgnoredAny, Reader, Request, Showing, entries_of};
use dynamo_ser::{SerializeStruct, Serializer};
use std::alloc::Global;

/// A struct with named fields, by its description.
///
/// # Examples
///
/// ```rust
/// ghost use Rattle.dynamo_record.specs.Records.{record_of, record_tells};
/// ghost use Rattle.dynamo_record.specs.Records.{record_reads, about_record};
/// ghost use Rattle.std.specs.Prelude.{[], ◌∷◌, codes, refl};
///
/// use dynamo_record::{Field, FieldList, Record, read_record, record_conforms, write_record};
/// use serde_dynamo::de::{Deserialize, Deserializer, Error};
/// use serde_dynamo::ser::{Serialize, Serializer};
/// use serde_dynamo::{Shaped, from_item, to_item};
/// use std::alloc::Global;
///
/// #[derive(Debug, Drop, PartialEq, Eq)]
/// struct City {
///     name: String,
///     people: u32,
/// }
///
/// type CityFields = (Field<String>, Field<u32>);
///
/// impl Record for City {
///     type Fields = CityFields;
///
///     ghost about = { record_of (codes "City") (codes "name" ∷ codes "people" ∷ [])
///         (λ s. (record { 0 = s.name }, record { 0 = s.people }))
///         ⟦<CityFields as FieldList>⟧.about };
///
///     ghost named = { (refl, refl) };
///
///     fn name() -> &'static str {
///         "City"
///     }
///
///     fn expecting() -> &'static str {
///         "struct City"
///     }
///
///     fn names() -> &'static [&'static str] {
///         &["name", "people"]
///     }
///
///     fn make(fields: CityFields) -> City {
///         let (Field(name), Field(people)) = fields;
///         City { name, people }
///     }
/// }
///
/// impl Serialize for City {
///     ghost tells = { record_tells ⟦<City as Record>⟧.about };
///
///     fn serialize<S: Serializer>(&self, serializer: S) -> Result<S::Ok, S::Error> {
///         write_record::<City, _, S>(serializer, &(&self.name, &self.people))
///     }
/// }
///
/// impl Deserialize for City {
///     ghost reads = { record_reads ⟦<City as Record>⟧.about };
///
///     fn deserialize<D: Deserializer>(alloc: Global, deserializer: D) -> Result<City, D::Error> {
///         read_record(alloc, deserializer)
///     }
/// }
///
/// impl Shaped for City {
///     ghost about = { about_record ⟦<City as Record>⟧.about (refl, refl) };
///
///     ghost as_told = { refl };
///
///     ghost reads_by_shape = { λ _ _ h. h };
///
///     fn absent<E: Error>(_alloc: Global) -> Result<Option<City>, E> {
///         Ok(None)
///     }
///
///     fn conforms(&self) {
///         record_conforms::<City, _>(&(&self.name, &self.people))
///     }
/// }
///
/// let name = String::from_str(alloc, "Ulm")?;
/// let item = to_item(alloc, &City { name, people: 129_942 })?;
/// let city: City = from_item(alloc, item)?;
/// assert_eq!(rt; city.people, 129_942);
/// ```
pub trait Record: Sized + Drop {
    /// The types of the fields, as `(Field<String>, Field<u8>)`: a [`FieldList`]. Only reading asks
    /// for that bound, so that all else is checked without the traits of the fields.
    type Fields;

    // The name of the struct, those of its fields, and the fields of a value.
    ghost about: { AboutRecord Self Self.Fields };

    /// Returns the name of the struct.
    fn name() -> &'static str
        ensures { result.now ≡ about.name };

    /// Returns what reading expects, as `struct User`.
    fn expecting() -> &'static str
        ensures { result.now ≡ codes "struct " ++ about.name };

    /// Returns the names of the fields, as they are stored.
    fn names() -> &'static [&'static str]
        ensures { map (λ n. n.now) result.now ≡ about.names };

    /// Returns the struct of these fields.
    fn make(fields: Self::Fields) -> Self
        ensures { about.parts result ≡ fields };

    // No two fields have the same name, and each has one.
    ghost named: { AreNamed about };
}

/// Reads a value as the field at this place. After the last field the value is ignored.
pub(crate) fn read_place<R: Record, D: Reader>(
    slots: &mut <R::Fields as FieldList>::Slots,
    place: usize,
    value: D,
    alloc: Global,
) -> Result<(), D::Error>
where
    R::Fields: FieldList,
    requires { AreNamed (listed R.about R.Fields.about) }
    ensures { (e : Entry) (os : Slots)
        → place ≡ place_in 0 (record_fields (listed R.about R.Fields.about)) e.0
        → D.source value ≡ attribute e.1
        → R.Fields.holds slots.old os []
        → Meets D.Error.fault
        (Enters (λ x os. R.Fields.holds x os []) (record_fields (listed R.about R.Fields.about)) os
        slots.new e) result }
{
    let names = R::names();
    if place < names.len() {
        <R::Fields as FieldList>::read_value(slots, place, value, alloc)
    } else {
        IgnoredAny::deserialize(alloc, value)?;
        Ok(())
    }
}

/// Reads an entry as the field with the name of its key. The value of any other key is ignored.
fn read_entry<R: Record, D: Reader>(
    slots: &mut <R::Fields as FieldList>::Slots,
    key: D,
    value: D,
    alloc: Global,
) -> Result<(), D::Error>
where
    R::Fields: FieldList,
    requires { AreNamed (listed R.about R.Fields.about) }
    ensures { (e : Entry) (os : Slots) → IsEntry D.source (key, value) e
        → R.Fields.holds slots.old os []
        → Meets D.Error.fault
        (Enters (λ x os. R.Fields.holds x os []) (record_fields (listed R.about R.Fields.about)) os
        slots.new e) result }
{
    let place = place_of_key(R::names(), key, alloc)?;
    read_place::<R, D>(slots, place, value, alloc)
}

/// Reads the entries of a map as the fields of a struct.
fn read_entries<R: Record, D: Reader>(alloc: Global, mut entries: D::Entries) -> Result<R, D::Error>
where
    R::Fields: FieldList,
    requires { AreNamed (listed R.about R.Fields.about) }
    ensures { Meets D.Error.fault
        (FromParts (listed R.about R.Fields.about) (by_name (D.entries entries))) result }
{
    let mut slots = <R::Fields as FieldList>::unread();
    while let Some((key, value)) = D::next_entry(&mut entries) {
        if let Err(error) = read_entry::<R, D>(&mut slots, key, value, alloc) {
            <R::Fields as FieldList>::discard_slots(slots);
            return Err(error);
        }
    }
    match <R::Fields as FieldList>::complete::<D::Error>(slots, R::names(), alloc) {
        Ok(completed) => Ok(R::make(completed.0)),
        Err(error) => Err(error),
    }
}

/// Reads the elements of a sequence as the fields of a struct, in order.
pub(crate) fn read_in_order<R: Record, D: Reader>(
    alloc: Global,
    mut elements: D::Elements,
) -> Result<R, D::Error>
where
    R::Fields: FieldList,
    requires { AreNamed (listed R.about R.Fields.about) }
    ensures { Meets D.Error.fault
        (FromParts (listed R.about R.Fields.about) (in_order (D.elements elements))) result }
{
    match <R::Fields as FieldList>::read_in_order::<D>(&mut elements, alloc)? {
        Some(fields) => Ok(R::make(fields)),
        None => Err(too_few(alloc, R::expecting())),
    }
}

/// Reads a struct by the names of its fields, from a map alone.
pub(crate) fn read_by_name<R: Record, D: Reader>(alloc: Global, reader: D) -> Result<R, D::Error>
where
    R::Fields: FieldList,
    requires { AsLong R.about R.Fields.about }
    ensures { Meets D.Error.fault
        (After (reading.read_entries (D.source reader))
        (λ es. FromParts (listed R.about R.Fields.about) (by_name es))) result }
{
    let entries = entries_of(alloc, reader, R::expecting())?;
    read_entries::<R, D>(alloc, entries)
}

/// Reads a struct by the names of its fields from a map, or in order from a sequence.
fn read_shown<R: Record, D: Reader>(alloc: Global, reader: D) -> Result<R, D::Error>
where
    R::Fields: FieldList,
    requires { AsLong R.about R.Fields.about }
    ensures { Meets D.Error.fault
        (After (reading.read_parts (D.source reader)) (FromParts (listed R.about R.Fields.about)))
        result }
{
    match reader.show(Request::Struct)? {
        Showing::Map(entries) => read_entries::<R, D>(alloc, entries),
        Showing::Sequence(elements) => read_in_order::<R, D>(alloc, elements),
        other => Err(other.refused(alloc, R::expecting())),
    }
}

/// Reads a struct by its description. It is the body of `deserialize`.
///
/// # Errors
///
/// Returns the first error of a field.
///
/// Returns an error with a message for a missing field, for a list that is too short, and for data
/// that are neither a map nor a list.
///
/// Returns the error for out of memory if memory runs out.
pub fn read_record<R: Record, D: Deserializer>(
    alloc: Global,
    deserializer: D,
) -> Result<R, D::Error>
where
    R::Fields: FieldList,
    requires { AsLong R.about R.Fields.about }
    ensures { Meets D.Error.fault
        (record_reads (listed R.about R.Fields.about) (D.source deserializer)) result }
{
    read_shown::<R, D>(alloc, deserializer)
}

/// Writes a struct by its description. It is the body of `serialize`.
///
/// # Errors
///
/// Returns the first error of a field, or the serializer's error.
pub fn write_record<R: Record, W: RefList, S: Serializer>(
    serializer: S,
    fields: &W,
) -> Result<S::Ok, S::Error>
    ensures { Writes S.Error.fault ⊥ (S.outcome serializer)
        (datum.struct R.about.name
        (named_fields R.about.names (W.absences []) (W.told fields.now []))) result }
{
    let names = R::names();
    let mut builder = serializer.serialize_struct(R::name(), names.len())?;
    fields.write_fields::<S, S::SerializeStruct>(names, &mut builder)?;
    builder.end()
}

/// Promises that the datum of a struct conforms to its shape. It is the body of `conforms`.
pub fn record_conforms<R: Record, W: RefList>(fields: &W)
    ensures { conforms
        (struct R.about.name (field_shapes R.about.names (W.shapes []) (R.about.list.defaults [])))
        (datum.struct R.about.name
        (named_fields R.about.names (R.about.list.defaults []) (W.told fields.now []))) }
{
    fields.conform()
}
