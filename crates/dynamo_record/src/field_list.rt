ghost use Rattle.std.specs.Prelude.{◌≡◌, ◌⊎◌, ◌<◌, ◌≤◌, ◌+◌, ◌^◌, map};
ghost use Rattle.dynamo_value.specs.Fault.{message, out_of_memory};
ghost use Rattle.dynamo_de.specs.Meets.{Meets};
ghost use Rattle.dynamo_shape.proofs.FieldsByName.{Slots};
ghost use Rattle.dynamo_record.specs.Fields.{Defaults, unread, complete, missed_name, read_fields};
ghost use Rattle.dynamo_record.specs.Listed.{AboutList, about_field, about_both, Shapes, Holds};
ghost use Rattle.dynamo_record.specs.Listed.{HoldsField, HoldsBoth, Fills, is_filled, Completes};
ghost use Rattle.dynamo_record.specs.Listed.{MakesOrFails};
ghost use Rattle.dynamo_record.specs.Behind.{Behind, both_behind, field_behind};
ghost use Rattle.dynamo_record.specs.Names.{missing_text};

use crate::names::first_of;
use crate::{Field, FieldType};
use dynamo_de::{Deserialize, Error, Reader};
use std::alloc::Global;

/// The fields of a struct, a tuple struct or a variant, by their types: one [`Field`], or a tuple
/// of two, four or eight lists.
///
/// Nest the tuples of many fields evenly, as `((Field<A>, Field<B>), (Field<C>, Field<D>))`: the
/// flatter they are, the faster they are checked and read.
pub trait FieldList: Sized {
    /// The fields that are read so far.
    type Slots;

    // The shapes of the fields, their data, and when they are the same.
    ghost about: { AboutList Self };

    // The fields that are read so far, as data.
    ghost holds: { Holds Self.Slots };

    /// Returns the number of fields, or at least a lower bound if it is larger than any `usize`.
    fn count() -> usize
        ensures at_most { result ≤ about.count }
        ensures exact { result + 1 < 2 ^ 64 → result ≡ about.count };

    /// Returns the slots with no field read.
    fn unread() -> Self::Slots
        ensures { (ss : Shapes) → holds result (unread (about.shapes ss)) (unread ss) };

    /// Reads a value as the field with this index.
    ///
    /// # Errors
    ///
    /// Returns the error of reading the field.
    fn read_value<D: Reader>(
        slots: &mut Self::Slots,
        place: usize,
        value: D,
        alloc: Global,
    ) -> Result<(), D::Error>
        ensures { place < about.count → place + 1 < 2 ^ 64 → (ss : Shapes) (os more : Slots)
            → holds slots.old os more
            → Meets D.Error.fault
            (Fills holds (about.shapes ss) place os more slots.new (D.source value)) result };

    /// Returns whether the field with this index is read.
    fn is_read(slots: &Self::Slots, place: usize) -> bool
        ensures { place < about.count → place + 1 < 2 ^ 64 → (os more : Slots)
            → holds slots.now os more
            → result ≡ is_filled place os };

    /// Returns the fields, and the names that follow theirs.
    ///
    /// # Errors
    ///
    /// Returns an error with the message of serde, as ``missing field `name` ``, for the first
    /// missing field. Returns the error for out of memory if memory runs out.
    fn complete<E: Error>(
        slots: Self::Slots,
        names: &'static [&'static str],
        alloc: Global,
    ) -> Result<(Self, &'static [&'static str]), E>
        ensures { (ss : Shapes) (gs : Defaults) (os more : Slots) → holds slots os more
            → Completes E.fault about.shapes about.told
            (complete (about.shapes ss) (about.defaults gs) os) (complete ss gs more)
            (missed_name (map (λ n. n.now) names.now) (about.shapes ss) (about.defaults gs) os)
            (λ others. missed_name (map (λ n. n.now) others.now) ss gs more) result };

    /// Reads the fields in order, or returns `None` if there are too few elements.
    ///
    /// # Errors
    ///
    /// Returns the first error of a field.
    fn read_in_order<D: Reader>(
        elements: &mut D::Elements,
        alloc: Global,
    ) -> Result<Option<Self>, D::Error>
        ensures { (ss : Shapes)
            → MakesOrFails D.Error.fault about.shapes about.told
            (read_fields (about.shapes ss) (D.elements elements.old))
            (read_fields ss (D.elements elements.new)) result };

    /// Drops the fields that are read so far.
    fn discard_slots(slots: Self::Slots);

    /// Drops the fields.
    fn discard(self);

    // The fields that follow are found after these.
    ghost behind: { Behind about.count holds about.shapes };
}

/// The error of a map without an entry for the field with this name.
pub(crate) fn missing_field<E: Error>(alloc: Global, name: &str) -> E
    ensures { (E.fault result ≡ message (missing_text name.now))
        ⊎ (E.fault result ≡ out_of_memory) }
{
    match format!(in alloc; "missing field `{name}`") {
        Ok(text) => E::custom(alloc, &text),
        Err(_) => E::out_of_memory(),
    }
}

impl<F: FieldType> FieldList for Field<F> {
    type Slots = Option<F::Value>;

    ghost about = { about_field (λ f. f.0) F.about F.default };

    ghost holds = { HoldsField F.about.shape F.about.tells };

    ghost behind = { field_behind F.about.shape F.about.tells };

    fn count() -> usize {
        1
    }

    fn unread() -> Option<F::Value> {
        None
    }

    fn read_value<D: Reader>(
        slots: &mut Option<F::Value>,
        _place: usize,
        value: D,
        alloc: Global,
    ) -> Result<(), D::Error> {
        let read = F::Value::deserialize(alloc, value)?;
        *slots = Some(read);
        Ok(())
    }

    fn is_read(slots: &Option<F::Value>, _place: usize) -> bool {
        slots.is_some()
    }

    fn complete<E: Error>(
        slots: Option<F::Value>,
        names: &'static [&'static str],
        alloc: Global,
    ) -> Result<(Field<F>, &'static [&'static str]), E> {
        let (name, others) = first_of(names);
        match slots {
            Some(value) => Ok((Field(value), others)),
            None => match F::absent::<E>(alloc) {
                Ok(Some(value)) => Ok((Field(value), others)),
                Ok(None) => Err(missing_field(alloc, name)),
                Err(error) => Err(error),
            },
        }
    }

    fn read_in_order<D: Reader>(
        elements: &mut D::Elements,
        alloc: Global,
    ) -> Result<Option<Field<F>>, D::Error> {
        match D::next_element(elements) {
            None => Ok(None),
            Some(element) => {
                let value = F::Value::deserialize(alloc, element)?;
                // A reader that marks places comes back to the sequence by this call.
                D::elements_left(elements);
                Ok(Some(Field(value)))
            }
        }
    }

    fn discard_slots(slots: Option<F::Value>) {
        drop(slots);
    }

    fn discard(self) {
        let Field(value) = self;
        drop(value);
    }
}

impl<L: FieldList, R: FieldList> FieldList for (L, R) {
    type Slots = (L::Slots, R::Slots);

    ghost about = { about_both L.about R.about };

    ghost holds = { HoldsBoth L.holds R.holds };

    ghost behind = { both_behind L.behind R.behind };

    fn count() -> usize {
        L::count().saturating_add(R::count())
    }

    fn unread() -> (L::Slots, R::Slots) {
        (L::unread(), R::unread())
    }

    fn read_value<D: Reader>(
        slots: &mut (L::Slots, R::Slots),
        place: usize,
        value: D,
        alloc: Global,
    ) -> Result<(), D::Error> {
        let first = L::count();
        if place < first {
            L::read_value(&mut slots.0, place, value, alloc)
        } else {
            R::read_value(&mut slots.1, place - first, value, alloc)
        }
    }

    fn is_read(slots: &(L::Slots, R::Slots), place: usize) -> bool {
        let first = L::count();
        if place < first {
            L::is_read(&slots.0, place)
        } else {
            R::is_read(&slots.1, place - first)
        }
    }

    fn complete<E: Error>(
        slots: (L::Slots, R::Slots),
        names: &'static [&'static str],
        alloc: Global,
    ) -> Result<((L, R), &'static [&'static str]), E> {
        let (left, right) = slots;
        match L::complete::<E>(left, names, alloc) {
            Ok(first) => {
                let (left, names) = first;
                match R::complete::<E>(right, names, alloc) {
                    Ok(second) => {
                        let (right, names) = second;
                        Ok(((left, right), names))
                    }
                    Err(error) => {
                        left.discard();
                        Err(error)
                    }
                }
            }
            Err(error) => {
                R::discard_slots(right);
                Err(error)
            }
        }
    }

    fn read_in_order<D: Reader>(
        elements: &mut D::Elements,
        alloc: Global,
    ) -> Result<Option<(L, R)>, D::Error> {
        match L::read_in_order::<D>(elements, alloc) {
            Ok(Some(left)) => match R::read_in_order::<D>(elements, alloc) {
                Ok(Some(right)) => Ok(Some((left, right))),
                Ok(None) => {
                    left.discard();
                    Ok(None)
                }
                Err(error) => {
                    left.discard();
                    Err(error)
                }
            },
            Ok(None) => Ok(None),
            Err(error) => Err(error),
        }
    }

    fn discard_slots(slots: (L::Slots, R::Slots)) {
        let (left, right) = slots;
        L::discard_slots(left);
        R::discard_slots(right);
    }

    fn discard(self) {
        let (left, right) = self;
        left.discard();
        right.discard();
    }
}
