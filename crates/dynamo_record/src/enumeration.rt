ghost use Rattle.std.specs.Prelude.{◌≡◌, ◌++◌, codes, map};
ghost use Rattle.dynamo_de.specs.Answer.{After};
ghost use Rattle.dynamo_de.specs.Meets.{Meets};
ghost use Rattle.dynamo_de.specs.Reading.{read_identifier, read_variant};
ghost use Rattle.dynamo_de.specs.Visitors.{or_its_fault};
ghost use Rattle.dynamo_record.specs.Enums.{AboutEnum, of_variants, enum_reads, NamesVariant};
ghost use Rattle.dynamo_record.specs.Enums.{FromVariant, AsMany, VariantsNamed};

use crate::VariantList;
use crate::names::place_of;
use crate::variant_names::unknown_variant;
use dynamo_de::{
    DeserializeSeed, Deserializer, EnumAccess, Error, Reader, ReaderEnumAccess, Request, Showing,
    identifier_of,
};
use std::alloc::Global;
use std::marker::PhantomData;

/// An enum, by its description: the list of its variants.
pub trait Enumeration: Sized + Drop {
    /// The contents of the variants, as `Choice<Nothing, One<u8>>`: a [`VariantList`]. Only reading
    /// asks for that bound, so that all else is checked without the traits of the contents.
    type Variants;

    // The name of the enum, those of its variants, and the variant of a value.
    ghost about: { AboutEnum Self Self.Variants };

    /// Returns the name of the enum.
    fn name() -> &'static str
        ensures { result.now ≡ about.name };

    /// Returns what reading expects, as `enum Event`.
    fn expecting() -> &'static str
        ensures { result.now ≡ codes "enum " ++ about.name };

    /// Returns the names of the variants, as they are stored.
    fn names() -> &'static [&'static str]
        ensures { map (λ n. n.now) result.now ≡ about.names };

    /// Returns the value of this variant.
    fn make(variant: Self::Variants) -> Self
        ensures { about.parts result ≡ variant };

    // No two variants have the same name, and each has one.
    ghost named: { VariantsNamed about };
}

/// The index of the variant with this name.
fn place_named<T: Enumeration, E: Error>(alloc: Global, name: &str) -> Result<usize, E>
    ensures { Meets E.fault (NamesVariant T.about.names name.now) result }
{
    let names = T::names();
    let place = place_of(names, name);
    if place < names.len() {
        Ok(place)
    } else {
        Err(unknown_variant(alloc, name, names))
    }
}

/// Reads the name of a variant as its index.
#[derive(Drop)]
struct TagSeed<T> {
    alloc: Global,
    of: PhantomData<T>,
}

impl<T: Enumeration> DeserializeSeed for TagSeed<T> {
    type Value = usize;

    ghost reads = { λ _ s r. After (read_identifier s) (NamesVariant T.about.names) r };

    fn deserialize<D: Deserializer>(self, deserializer: D) -> Result<usize, D::Error> {
        let name = identifier_of(self.alloc, deserializer, "variant identifier")?;
        place_named::<T, D::Error>(self.alloc, name.as_str())
    }
}

/// Reads a variant and its content.
fn read_chosen<T: Enumeration, A: EnumAccess>(alloc: Global, variant: A) -> Result<T, A::Error>
where
    T::Variants: VariantList,
    requires { AsMany T.about T.Variants.about }
    ensures { Meets A.Error.fault
        (After (or_its_fault (A.chosen variant))
        (FromVariant (of_variants T.about T.Variants.about))) result }
{
    let (place, content) = variant.variant_seed(TagSeed::<T> {
        alloc,
        of: PhantomData,
    })?;
    match <T::Variants as VariantList>::read(place, content, alloc) {
        Ok(variant) => Ok(T::make(variant)),
        Err(error) => Err(error),
    }
}

/// Asks for an enum, and reads it.
fn read_shown<T: Enumeration, R: Reader>(alloc: Global, reader: R) -> Result<T, R::Error>
where
    T::Variants: VariantList,
    requires { AsMany T.about T.Variants.about }
    ensures { Meets R.Error.fault
        (After (read_variant (R.source reader))
        (FromVariant (of_variants T.about T.Variants.about))) result }
{
    match reader.show(Request::Enum)? {
        Showing::Enum(choice) => {
            read_chosen::<T, ReaderEnumAccess<R>>(alloc, ReaderEnumAccess::new(choice))
        }
        other => Err(other.refused(alloc, T::expecting())),
    }
}

/// Reads an enum by its description. It is the body of `deserialize`.
///
/// # Errors
///
/// Returns the error of reading the variant's content.
///
/// Returns an error with a message for a name that isn't a variant's, and for data that aren't an
/// enum.
///
/// Returns the error for out of memory if memory runs out.
pub fn read_enum<T: Enumeration, D: Deserializer>(
    alloc: Global,
    deserializer: D,
) -> Result<T, D::Error>
where
    T::Variants: VariantList,
    requires { AsMany T.about T.Variants.about }
    ensures { Meets D.Error.fault
        (enum_reads (of_variants T.about T.Variants.about) (D.source deserializer)) result }
{
    read_shown::<T, D>(alloc, deserializer)
}
