ghost use Rattle.std.specs.Prelude.{◌≡◌, ◌++◌, ◌<◌, codes, List, Some, map, vec_len};
ghost use Rattle.dynamo_de.specs.Meets.{Meets};
ghost use Rattle.dynamo_de.specs.Source.{Entry};
ghost use Rattle.dynamo_record.specs.Enums.{NamesVariant};
ghost use Rattle.dynamo_record.specs.Held.{Holds, IsLast};
ghost use Rattle.dynamo_record.specs.TaggedEnums.{AboutTagged, of_tagged, tagged_reads};
ghost use Rattle.dynamo_record.specs.TaggedEnums.{FromEntries, IsFit};

use crate::TaggedList;
use crate::field_list::missing_field;
use crate::held::held_entries;
use crate::names::place_of;
use crate::variant_names::unknown_variant;
use dynamo_de::{Deserialize, Deserializer, Error, Reader, entries_of};
use std::alloc::Global;

/// An internally tagged enum, by its description: the tag and the list of its variants. A value is
/// stored as a map of the fields of its variant, with the variant's name under the tag.
pub trait TaggedEnum: Sized + Drop {
    /// The contents of the variants, as `Choice<Nothing, Inner<Customer>>`: a [`TaggedList`]. Only
    /// reading asks for that bound, so that all else is checked without the traits of the contents.
    type Variants;

    // The tag, the name of the enum, those of its variants, and the variant of a value.
    ghost about: { AboutTagged Self Self.Variants };

    /// Returns the tag: the name of the entry that holds the name of the variant.
    fn tag() -> &'static str
        ensures { result.now ≡ about.tag };

    /// Returns the name of the enum.
    fn name() -> &'static str
        ensures { result.now ≡ about.name };

    /// Returns what reading expects, as `internally tagged enum Event`.
    fn expecting() -> &'static str
        ensures { result.now ≡ codes "internally tagged enum " ++ about.name };

    /// Returns the names of the variants, as they are stored.
    fn names() -> &'static [&'static str]
        ensures { map (λ n. n.now) result.now ≡ about.names };

    /// Returns the value of this variant.
    fn make(variant: Self::Variants) -> Self
        ensures { about.parts result ≡ variant };
}

/// The index of the variant with this name.
fn place_named<E: Error>(
    alloc: Global,
    name: &str,
    names: &'static [&'static str],
) -> Result<usize, E>
    ensures { Meets E.fault (NamesVariant (map (λ n. n.now) names.now) name.now) result }
{
    let place = place_of(names, name);
    if place < names.len() {
        Ok(place)
    } else {
        Err(unknown_variant(alloc, name, names))
    }
}

/// Reads the variant that the entry with this index names, from the other entries. `rest` is what
/// [`held_entries`] left.
fn read_variant<T: TaggedEnum, D: Reader>(
    alloc: Global,
    held: Vec<(String, D)>,
    place: usize,
    rest: &D::Entries,
) -> Result<T, D::Error>
where
    T::Variants: TaggedList,
    requires fits { IsFit (of_tagged T.about T.Variants.about) }
    requires inside { place < vec_len held }
    ensures { (es : List Entry) → Holds D.source held.items es → IsLast T.about.tag es (Some place)
        → Meets D.Error.fault (FromEntries (of_tagged T.about T.Variants.about) es) result }
{
    let mut held = held;
    let (_tag, named) = held.remove(place);
    let name = String::deserialize(alloc, named)?;
    let variant = place_named::<D::Error>(alloc, name.as_str(), T::names())?;
    match <T::Variants as TaggedList>::read::<D>(variant, held, rest, alloc) {
        Ok(variant) => Ok(T::make(variant)),
        Err(error) => Err(error),
    }
}

/// Reads an internally tagged enum by its description. It is the body of `deserialize`.
///
/// The variant is read from the entries of a map. Another entry than the tag and the fields is
/// ignored, as in a struct.
///
/// # Errors
///
/// Returns an error with the message of serde if there is no tag, as ``missing field `type` ``, and
/// if it names no variant.
///
/// Returns the error of reading the tag as a string, and then the first error of a field.
///
/// Returns an error for data that aren't a map.
///
/// Returns the error for out of memory if memory runs out.
pub fn read_tagged<T: TaggedEnum, D: Deserializer>(
    alloc: Global,
    deserializer: D,
) -> Result<T, D::Error>
where
    T::Variants: TaggedList,
    requires { IsFit (of_tagged T.about T.Variants.about) }
    ensures { Meets D.Error.fault
        (tagged_reads (of_tagged T.about T.Variants.about) (D.source deserializer)) result }
{
    let entries = entries_of(alloc, deserializer, T::expecting())?;
    let (held, last, rest) = held_entries::<D>(alloc, entries, T::tag())?;
    match last {
        Some(place) => read_variant::<T, D>(alloc, held, place, &rest),
        None => Err(missing_field(alloc, T::tag())),
    }
}
