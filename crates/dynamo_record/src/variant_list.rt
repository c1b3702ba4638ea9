ghost use Rattle.std.specs.Prelude.{◌≡◌, ◌<◌, ◌≤◌, ◌+◌, ◌^◌, ℕ};
ghost use Rattle.dynamo_de.specs.Meets.{Meets};
ghost use Rattle.dynamo_de.specs.Source.{Text};
ghost use Rattle.dynamo_record.specs.Names.{Names};
ghost use Rattle.dynamo_record.specs.Variants.{AboutVariants, Contents, ReadsAt, about_choice};

use dynamo_de::VariantAccess;
use std::alloc::Global;

/// The variants of an enum, by their contents: one content, or a [`Choice`] of two lists. A value
/// is one of the variants.
///
/// Nest the choices of many variants evenly, as `Choice<Choice<A, B>, Choice<C, D>>`: the flatter
/// they are, the faster they are checked and read.
pub trait VariantList: Sized {
    // The contents of the variants, the data of values, and when two values are the same.
    ghost about: { AboutVariants Self };

    /// Returns the number of variants, or at least a lower bound if it is larger than any `usize`.
    fn count() -> usize
        ensures at_most { result ≤ about.count }
        ensures exact { result + 1 < 2 ^ 64 → result ≡ about.count };

    /// Reads the content of the variant with this index.
    ///
    /// # Errors
    ///
    /// Returns the error of reading the content.
    fn read<A: VariantAccess>(place: usize, content: A, alloc: Global) -> Result<Self, A::Error>
        ensures { place < about.count → place + 1 < 2 ^ 64
            → (name : Text) (ns : Names) (i : ℕ) (cs : Contents)
            → Meets A.Error.fault
            (ReadsAt about.contents about.told name ns i cs place (A.content content)) result };
}

/// A variant of the first list, or one of the second.
pub enum Choice<L, R> {
    /// A variant of the first list.
    Left(L),
    /// A variant of the second list.
    Right(R),
}

impl<L: VariantList, R: VariantList> VariantList for Choice<L, R> {
    ghost about = { about_choice L.about R.about };

    fn count() -> usize {
        L::count().saturating_add(R::count())
    }

    fn read<A: VariantAccess>(
        place: usize,
        content: A,
        alloc: Global,
    ) -> Result<Choice<L, R>, A::Error> {
        let first = L::count();
        if place < first {
            match L::read(place, content, alloc) {
                Ok(variant) => Ok(Choice::Left(variant)),
                Err(error) => Err(error),
            }
        } else {
            match R::read(place - first, content, alloc) {
                Ok(variant) => Ok(Choice::Right(variant)),
                Err(error) => Err(error),
            }
        }
    }
}
