ghost use Rattle.std.specs.Prelude.{ℕ, List, string_bytes};
ghost use Rattle.dynamo_value.specs.Kind.{fault_of};
ghost use Rattle.dynamo_de.specs.Shown.{shown};
ghost use Rattle.dynamo_de.specs.Source.{Source, key_text, number_text, plain_text};
ghost use Rattle.dynamo_leaf.specs.Leaf.{ShowsText};

use crate::{Leaf, show_key, show_number, show_plain_text};
use dynamo_de::Request;
use dynamo_value::Result;

mod sealed {
    pub trait Sealed {}
}

use sealed::Sealed;

/// The kind of a string in an attribute value: [`KeyText`], [`NumberText`] or [`PlainText`]. There
/// are no others.
pub trait TextKind: Sealed + Drop {
    // The source of a string of this kind.
    ghost of_text: { List ℕ → Source };

    /// Returns what a string of this kind holds, and the string. It allocates nothing.
    ///
    /// # Errors
    ///
    /// Returns [`ErrorImpl::ExpectedNum`](dynamo_value::ErrorImpl) or
    /// [`ErrorImpl::ExpectedString`](dynamo_value::ErrorImpl) for a key, and
    /// [`ErrorImpl::FailedToParseInt`](dynamo_value::ErrorImpl) or
    /// [`ErrorImpl::FailedToParseFloat`](dynamo_value::ErrorImpl) for a number, as [`show_key`] and
    /// [`show_number`] have it. A plain string is never refused.
    fn show_text(request: Request, text: String) -> Result<(Leaf, String)>
        ensures { ShowsText fault_of (shown request (of_text (string_bytes text))) result };
}

/// The key of a map, for [`show_key`].
#[derive(Drop)]
pub struct KeyText;

impl Sealed for KeyText {}

impl TextKind for KeyText {
    ghost of_text = { key_text };

    #[inline(always)]
    fn show_text(request: Request, text: String) -> Result<(Leaf, String)> {
        let leaf = show_key(request, text.as_str())?;
        Ok((leaf, text))
    }
}

/// An element of a set of numbers, for [`show_number`].
#[derive(Drop)]
pub struct NumberText;

impl Sealed for NumberText {}

impl TextKind for NumberText {
    ghost of_text = { number_text };

    #[inline(always)]
    fn show_text(request: Request, text: String) -> Result<(Leaf, String)> {
        match show_number(request, text.as_str()) {
            Ok(leaf) => Ok((leaf, text)),
            Err(no_number) => Err(no_number.of_text(text)),
        }
    }
}

/// An element of a set of strings or the name of a variant, for [`show_plain_text`].
#[derive(Drop)]
pub struct PlainText;

impl Sealed for PlainText {}

impl TextKind for PlainText {
    ghost of_text = { plain_text };

    #[inline(always)]
    fn show_text(request: Request, text: String) -> Result<(Leaf, String)> {
        Ok((show_plain_text(request), text))
    }
}
