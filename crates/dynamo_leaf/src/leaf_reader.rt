ghost use Rattle.std.specs.Prelude.{◌≡◌, ℕ, List, Option, None, Result, Ok, string_bytes};
ghost use Rattle.dynamo_value.specs.Fault.{Fault};
ghost use Rattle.dynamo_de.specs.Shows.{seen};
ghost use Rattle.dynamo_de.specs.Source.{Source, Entry, key_text};
ghost use Rattle.dynamo_leaf.specs.Leaf.{leaf_showing};

use crate::Leaf;
use dynamo_de::Showing;
use std::alloc::Global;

/// A reader that can read a key again, or be a variant. To use [`raise`] with a reader, implement
/// these two functions.
pub trait LeafReader: Sized + Drop {
    /// A variant of an enum.
    type Choice: Drop;

    // The source of the reader, and what its variants mean.
    ghost leaf_source: { Self → Source };

    ghost leaf_chosen: { Self.Choice → Result (List ℕ × Option Source) Fault };

    /// Returns the reader of a key. It allocates nothing.
    fn of_key(alloc: Global, text: String) -> Self
        ensures { leaf_source result ≡ key_text (string_bytes text) };

    /// Returns the unit variant of a name. It allocates nothing.
    fn of_name(alloc: Global, text: String) -> Self::Choice
        ensures { leaf_chosen result ≡ Ok (string_bytes text, None) };
}

/// Returns what a reader shows if its string is this leaf. It allocates nothing and never fails.
///
/// `L` and `M` are the reader's elements and entries, of which a leaf has none.
#[inline(always)]
pub fn raise<R: LeafReader, L, M>(
    alloc: Global,
    leaf: Leaf,
    text: String,
) -> Showing<R, L, M, R::Choice>
    ensures { (elements : L → List Source) (entries : M → List Entry)
        → seen R.leaf_source elements entries R.leaf_chosen result
        ≡ leaf_showing (string_bytes text) leaf }
{
    match leaf {
        Leaf::Bool(v) => Showing::Bool(v),
        Leaf::Integer(v) => Showing::Integer(v),
        Leaf::NumberText => Showing::NumberText(text),
        Leaf::Text => Showing::Text(text),
        Leaf::Name => Showing::Enum(R::of_name(alloc, text)),
        Leaf::Newtype => Showing::Newtype(R::of_key(alloc, text)),
    }
}
