ghost use Rattle.std.specs.Prelude.{◌≡◌, ◌<◌, ◌≤◌, ◌+◌, ◌^◌, ℕ, List};
ghost use Rattle.dynamo_de.specs.Meets.{Meets};
ghost use Rattle.dynamo_de.specs.Source.{Entry, Text};
ghost use Rattle.dynamo_record.specs.Held.{Holds, ReadsFields};
ghost use Rattle.dynamo_record.specs.TaggedLists.{AboutTaggedList, Structs, struct_at, about_bare};
ghost use Rattle.dynamo_record.specs.TaggedLists.{about_struct_variant, about_inner};
ghost use Rattle.dynamo_record.specs.TaggedLists.{about_tagged_one, about_tagged_choice};

use crate::held::{ignore_held, read_held};
use crate::{Choice, FieldList, Named, NamedFields, Nothing, Record};
use dynamo_de::Reader;
use std::alloc::Global;

/// The variants of an internally tagged enum, by their contents: [`Nothing`], [`Named`] or
/// [`Inner`], or a [`Choice`] of two lists. A value is one of the variants.
///
/// Nest the choices of many variants evenly, as `Choice<Choice<A, B>, Choice<C, D>>`: the flatter
/// they are, the faster they are checked and read.
pub trait TaggedList: Sized {
    // The structs of the variants, the fields of values, and when two values are the same.
    ghost about: { AboutTaggedList Self };

    /// Returns the number of variants, or at least a lower bound if it is larger than any `usize`.
    fn count() -> usize
        ensures at_most { result ≤ about.count }
        ensures exact { result + 1 < 2 ^ 64 → result ≡ about.count };

    /// Reads entries as the fields of the variant with this index. `rest` are the entries of their
    /// map that are left: none.
    ///
    /// # Errors
    ///
    /// Returns the first error of an entry, or the error of a missing field.
    fn read<D: Reader>(
        place: usize,
        entries: Vec<(String, D)>,
        rest: &D::Entries,
        alloc: Global,
    ) -> Result<Self, D::Error>
        ensures { (tag : Text) → about.fit tag → place < about.count → place + 1 < 2 ^ 64
            → (name : Text) (ss : Structs) (es : List Entry)
            → Holds D.source entries.items es
            → Meets D.Error.fault
            (ReadsFields about.place about.told place (struct_at place (about.structs name ss)).1
            es) result };
}

impl TaggedList for Nothing {
    ghost about = { about_tagged_one about_bare };

    fn count() -> usize {
        1
    }

    fn read<D: Reader>(
        _place: usize,
        entries: Vec<(String, D)>,
        _rest: &D::Entries,
        alloc: Global,
    ) -> Result<Nothing, D::Error> {
        match ignore_held::<D>(alloc, entries) {
            Ok(()) => Ok(Nothing),
            Err(error) => Err(error),
        }
    }
}

impl<N: NamedFields> TaggedList for Named<N> {
    ghost about = { about_tagged_one (about_struct_variant N.names (λ v. v.0) N.Fields.about) };

    fn count() -> usize {
        1
    }

    fn read<D: Reader>(
        _place: usize,
        entries: Vec<(String, D)>,
        rest: &D::Entries,
        alloc: Global,
    ) -> Result<Named<N>, D::Error> {
        read_held::<Named<N>, D>(alloc, entries, rest)
    }
}

/// The content of a newtype variant of an internally tagged enum: a struct, whose fields follow the
/// tag.
#[derive(Drop)]
pub struct Inner<R: Record>(pub R);

impl<R: Record> TaggedList for Inner<R>
where
    R::Fields: FieldList,
{
    ghost about = { about_tagged_one (about_inner (λ x. x.0) R.about R.Fields.about) };

    fn count() -> usize {
        1
    }

    fn read<D: Reader>(
        _place: usize,
        entries: Vec<(String, D)>,
        rest: &D::Entries,
        alloc: Global,
    ) -> Result<Inner<R>, D::Error> {
        match read_held::<R, D>(alloc, entries, rest) {
            Ok(fields) => Ok(Inner(fields)),
            Err(error) => Err(error),
        }
    }
}

impl<L: TaggedList, R: TaggedList> TaggedList for Choice<L, R> {
    ghost about = { about_tagged_choice L.about R.about };

    fn count() -> usize {
        L::count().saturating_add(R::count())
    }

    fn read<D: Reader>(
        place: usize,
        entries: Vec<(String, D)>,
        rest: &D::Entries,
        alloc: Global,
    ) -> Result<Choice<L, R>, D::Error> {
        let first = L::count();
        if place < first {
            match L::read::<D>(place, entries, rest, alloc) {
                Ok(variant) => Ok(Choice::Left(variant)),
                Err(error) => Err(error),
            }
        } else {
            match R::read::<D>(place - first, entries, rest, alloc) {
                Ok(variant) => Ok(Choice::Right(variant)),
                Err(error) => Err(error),
            }
        }
    }
}
