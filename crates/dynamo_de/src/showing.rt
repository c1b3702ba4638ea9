ghost use Rattle.std.specs.Prelude.{◌≡◌, ◌⊎◌, ℕ, List, Option, Result, Ok, Err};
ghost use Rattle.dynamo_value.specs.Fault.{Fault, out_of_memory};
ghost use Rattle.dynamo_de.specs.Inside.{inside_shown, inside_seen};
ghost use Rattle.dynamo_de.specs.Meets.{IsMessage};
ghost use Rattle.dynamo_de.specs.Shows.{seen, IsSurface};
ghost use Rattle.dynamo_de.specs.Source.{Source, Entry};

use crate::taken::invalid_type;
use crate::{Error, Integer, Kind};
use std::alloc::Global;

/// What a [`Reader`](crate::Reader) finds in its source. `D` reads a content, `L` has the elements
/// of a sequence, `M` the entries of a map, `C` a variant.
#[derive(Drop)]
pub enum Showing<D, L, M, C> {
    /// A boolean.
    Bool(bool),
    /// An integer.
    Integer(Integer),
    /// A number that neither an `i64` nor a `u64` holds, as its string.
    NumberText(String),
    /// A character.
    Char(char),
    /// The first character of a string that has several.
    FirstChar(char),
    /// A string.
    Text(String),
    /// A byte string.
    Bytes(Vec<u8>),
    /// `None`.
    None,
    /// A unit.
    Unit,
    /// The content of an option.
    Some(D),
    /// The content of a newtype struct.
    Newtype(D),
    /// The elements of a sequence.
    Sequence(L),
    /// The entries of a map.
    Map(M),
    /// A variant of an enum.
    Enum(C),
}

/// What a reader finds, without contents.
pub type Surface = Showing<(), (), (), ()>;

/// The elements or the entries that a reader finds.
#[derive(Drop)]
pub enum Inside<L, M> {
    /// Neither: a scalar, a content or a variant.
    Nothing,
    /// The elements of a sequence.
    Elements(L),
    /// The entries of a map.
    Entries(M),
}

impl<D, L, M, C> Showing<D, L, M, C> {
    /// Returns the error for data that a type doesn't take, as
    /// `invalid type: string, expected a boolean`. The data is dropped.
    #[inline(always)]
    pub fn refused<E: Error>(self, alloc: Global, expecting: &str) -> E
    where
        D: Drop,
        L: Drop,
        M: Drop,
        C: Drop,
        ensures { (E.fault result ≡ out_of_memory) ⊎ IsMessage {V = E} (Err (E.fault result)) }
    {
        invalid_type(alloc, self.kind(), expecting)
    }

    /// Returns the kind of the data, for an error's message.
    pub fn kind(&self) -> Kind {
        match self {
            Showing::Bool(_) => Kind::Bool,
            Showing::Integer(v) => Kind::Integer(v.kind()),
            Showing::NumberText(_) => Kind::NumberText,
            Showing::Char(_) | Showing::FirstChar(_) => Kind::Char,
            Showing::Text(_) => Kind::Str,
            Showing::Bytes(_) => Kind::Bytes,
            Showing::None => Kind::None,
            Showing::Unit => Kind::Unit,
            Showing::Some(_) => Kind::Some,
            Showing::Newtype(_) => Kind::NewtypeStruct,
            Showing::Sequence(_) => Kind::Seq,
            Showing::Map(_) => Kind::Map,
            Showing::Enum(_) => Kind::Enum,
        }
    }

    /// Returns the same without its contents, which are dropped.
    pub fn surface(self) -> Surface
    where
        D: Drop,
        L: Drop,
        M: Drop,
        C: Drop,
        ensures { (source : D → Source) (elements : L → List Source) (entries : M → List Entry)
            (variants : C → Result (List ℕ × Option Source) Fault)
            → IsSurface result (seen source elements entries variants self) }
    {
        match self {
            Showing::Bool(v) => Showing::Bool(v),
            Showing::Integer(v) => Showing::Integer(v),
            Showing::NumberText(v) => Showing::NumberText(v),
            Showing::Char(v) => Showing::Char(v),
            Showing::FirstChar(v) => Showing::FirstChar(v),
            Showing::Text(v) => Showing::Text(v),
            Showing::Bytes(v) => Showing::Bytes(v),
            Showing::None => Showing::None,
            Showing::Unit => Showing::Unit,
            Showing::Some(_) => Showing::Some(()),
            Showing::Newtype(_) => Showing::Newtype(()),
            Showing::Sequence(_) => Showing::Sequence(()),
            Showing::Map(_) => Showing::Map(()),
            Showing::Enum(_) => Showing::Enum(()),
        }
    }

    /// Returns the elements or the entries, and drops the rest.
    pub fn inside(self) -> Inside<L, M>
    where
        D: Drop,
        C: Drop,
        ensures { (source : D → Source) (elements : L → List Source) (entries : M → List Entry)
            (variants : C → Result (List ℕ × Option Source) Fault)
            → inside_shown (Ok (seen source elements entries variants self))
            ≡ Ok (inside_seen elements entries result) }
    {
        match self {
            Showing::Sequence(elements) => Inside::Elements(elements),
            Showing::Map(entries) => Inside::Entries(entries),
            _ => Inside::Nothing,
        }
    }
}
