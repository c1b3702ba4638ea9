ghost use Rattle.std.specs.Prelude.{◌≡◌, ◌++◌, ℕ, codes, map, length};
ghost use Rattle.std.specs.List.{range_with_len};
ghost use Rattle.dynamo_de.specs.Answer.{After};
ghost use Rattle.dynamo_de.specs.Meets.{Meets};
ghost use Rattle.dynamo_de.specs.Reading.{read_identifier, read_variant};
ghost use Rattle.dynamo_de.specs.Visitors.{or_its_fault};
ghost use Rattle.dynamo_shape.specs.Conforms as shapes;
ghost use Rattle.dynamo_record.specs.UnitEnums.{AboutUnits, IsNumber, FromName, FromVariant};
ghost use Rattle.dynamo_record.specs.UnitEnums.{unit_enum_shape, unit_enum_tells, unit_enum_reads};

use crate::names::place_of;
use crate::variant_names::{name_at, unknown_variant};
use dynamo_de::{
    DeserializeSeed, Deserializer, EnumAccess, Error, Reader, ReaderEnumAccess, Request, Showing,
    VariantAccess, identifier_of,
};
use dynamo_ser::Serializer;
use std::alloc::Global;
use std::marker::PhantomData;

/// An enum of unit variants, by its description: their names.
pub trait UnitEnum: Copy {
    // The names, and the index of a value's variant.
    ghost about: { AboutUnits Self };

    /// Returns the name of the enum.
    fn name() -> &'static str
        ensures { result.now ≡ about.name };

    /// Returns what reading expects, as `enum Side`.
    fn expecting() -> &'static str
        ensures { result.now ≡ codes "enum " ++ about.name };

    /// Returns the names of the variants, as they are stored.
    fn names() -> &'static [&'static str]
        ensures { map (λ n. n.now) result.now ≡ about.names };

    /// Returns the index of the variant: `*self as u32`.
    fn number(&self) -> u32
        ensures { result ≡ about.number self.now };

    /// Returns the variant with this index, or `None`: [`variant_at`] of all variants.
    fn variant(number: usize) -> Option<Self>
        ensures { IsNumber about.number (length about.names) number result };
}

/// Returns the variant with this index, or `None`. The slice has to be all variants, in order.
pub fn variant_at<T: Copy>(variants: &[T], number: usize) -> Option<T>
    ensures { (numbers : T → ℕ) (count : ℕ) → map numbers variants.now ≡ range_with_len 0 count
        → IsNumber numbers count number result }
{
    if number < variants.len() {
        Some(variants[number])
    } else {
        None
    }
}

/// The variant with this name.
fn named<T: UnitEnum, E: Error>(alloc: Global, name: &str) -> Result<T, E>
    ensures { Meets E.fault (FromName T.about name.now) result }
{
    let names = T::names();
    match T::variant(place_of(names, name)) {
        Some(variant) => Ok(variant),
        None => Err(unknown_variant::<E>(alloc, name, names)),
    }
}

/// Reads the name of a variant as the variant.
#[derive(Drop)]
struct NameSeed<T> {
    alloc: Global,
    of: PhantomData<T>,
}

impl<T: UnitEnum> DeserializeSeed for NameSeed<T> {
    type Value = T;

    ghost reads = { λ _ s. After (read_identifier s) (FromName T.about) };

    fn deserialize<D: Deserializer>(self, deserializer: D) -> Result<T, D::Error> {
        let name = identifier_of(self.alloc, deserializer, "variant identifier")?;
        named(self.alloc, name.as_str())
    }
}

/// Reads a variant, whatever its content is.
fn read_chosen<T: UnitEnum, A: EnumAccess>(alloc: Global, variant: A) -> Result<T, A::Error>
    ensures { Meets A.Error.fault (After (or_its_fault (A.chosen variant)) (FromVariant T.about))
        result }
{
    let (value, content) = variant.variant_seed(NameSeed::<T> {
        alloc,
        of: PhantomData,
    })?;
    content.unit_variant()?;
    Ok(value)
}

/// Asks for an enum, and reads it.
fn read_shown<T: UnitEnum, R: Reader>(alloc: Global, reader: R) -> Result<T, R::Error>
    ensures { Meets R.Error.fault (After (read_variant (R.source reader)) (FromVariant T.about))
        result }
{
    match reader.show(Request::Enum)? {
        Showing::Enum(choice) => {
            read_chosen::<T, ReaderEnumAccess<R>>(alloc, ReaderEnumAccess::new(choice))
        }
        other => Err(other.refused(alloc, T::expecting())),
    }
}

/// Reads an enum by its description, from a string or from a map of one entry. It is the body of
/// `deserialize`.
///
/// # Errors
///
/// Returns an error with a message that lists the variants for a name that isn't one of them, and
/// an error with a message for data that aren't an enum.
///
/// Returns the error for out of memory if memory runs out.
pub fn read_unit_enum<T: UnitEnum, D: Deserializer>(
    alloc: Global,
    deserializer: D,
) -> Result<T, D::Error>
    ensures { Meets D.Error.fault (unit_enum_reads T.about (D.source deserializer)) result }
{
    read_shown(alloc, deserializer)
}

/// Writes an enum by its description: the unit variant of its index. It is the body of `serialize`.
///
/// # Errors
///
/// Returns the serializer's error.
pub fn write_unit_enum<T: UnitEnum, S: Serializer>(
    value: &T,
    serializer: S,
) -> Result<S::Ok, S::Error>
    ensures { S.outcome serializer (unit_enum_tells T.about value.now) result }
{
    let number = value.number();
    serializer.serialize_unit_variant(T::name(), number, name_at(T::names(), number as usize))
}

/// Promises that the datum of a value conforms to the shape of its enum. It has no other effect.
pub fn conform_unit_enum<T: UnitEnum>(value: &T)
    ensures { shapes.conforms (unit_enum_shape T.about) (unit_enum_tells T.about value.now) }
{
    let _value = value;
}
