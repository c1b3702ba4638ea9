ghost use Rattle.std.specs.Prelude.{◌≡◌, ℕ, Bool, false, IfSome, List, Option, Result};
ghost use Rattle.dynamo_value.specs.Fault.{Fault, expected_char, map_value_before_key};
ghost use Rattle.dynamo_de.specs.Access.{Hints, hint_of};
ghost use Rattle.dynamo_de.specs.Inside.{ShowsInside};
ghost use Rattle.dynamo_de.specs.Shown.{shown};
ghost use Rattle.dynamo_de.specs.Shows.{Shows, ShowsSurface, TakesElement, TakesEntry, Names};
ghost use Rattle.dynamo_de.specs.Source.{Source, Entry, IsText};
ghost use Rattle.dynamo_de.specs.declared.request.Request.TheVariants as request;

use crate::{Error, Inside, Request, Showing, Surface};
use std::alloc::Global;

/// A source of data. To write a deserializer, implement it: the methods of
/// [`Deserializer`](crate::Deserializer), which call visitors, come with it.
pub trait Reader: Sized + Drop {
    /// The error of reading.
    type Error: Error;

    /// The remaining elements of a sequence.
    type Elements: Drop;

    /// The remaining entries of a map.
    type Entries: Drop;

    /// A variant of an enum.
    type Choice: Drop;

    // The source of the reader, and what its elements, entries and variants mean.
    ghost source: { Self → Source };

    ghost elements: { Self.Elements → List Source };

    // Whether the remaining elements are counted.
    ghost counted: { Self.Elements → Bool };

    ghost entries: { Self.Entries → List Entry };

    // Whether the remaining entries are counted.
    ghost counted_entries: { Self.Entries → Bool } = { λ _. false };

    ghost chosen: { Self.Choice → Result (List ℕ × Option Source) Fault };

    /// Returns the allocator of what is read.
    fn alloc(&self) -> Global;

    /// Returns the string of the key of a map or of the name of a variant, if the reader can lend
    /// it. Implement it to name entries in the places of errors.
    #[inline(always)]
    fn text(&self) -> Option<&str>
        ensures { IfSome result (λ text. IsText (source self.now) text.now) }
    {
        None
    }

    /// Returns what the source holds, given what is asked for.
    ///
    /// # Errors
    ///
    /// Returns an error if the source holds something else, or if memory runs out.
    fn show(
        self,
        request: Request,
    ) -> Result<Showing<Self, Self::Elements, Self::Entries, Self::Choice>, Self::Error>
        ensures { Shows Self.Error.fault source elements entries chosen
            (shown request (source self)) result };

    /// Returns what the source holds without its contents. It suffices for scalars.
    ///
    /// # Errors
    ///
    /// Returns an error if the source holds something else, or if memory runs out.
    fn surface(self, request: Request) -> Result<Surface, Self::Error>
        ensures { ShowsSurface Self.Error.fault (shown request (source self)) result }
    {
        Ok(self.show(request)?.surface())
    }

    /// Returns the elements or the entries that the source holds, for [`Request::IgnoredAny`].
    ///
    /// Implement it if [`show`](Self::show) would copy a scalar to show it.
    ///
    /// # Errors
    ///
    /// Returns an error if the source can't be ignored, or if memory runs out.
    fn inside(self) -> Result<Inside<Self::Elements, Self::Entries>, Self::Error>
        ensures { ShowsInside Self.Error.fault elements entries
            (shown request.IgnoredAny (source self)) result }
    {
        Ok(self.show(Request::IgnoredAny)?.inside())
    }

    /// Returns the reader of the next element, or `None` after the last one. Whether the remaining
    /// ones are counted doesn't change.
    fn next_element(rest: &mut Self::Elements) -> Option<Self>
        ensures taken { TakesElement source (elements rest.old) (elements rest.new) result }
        ensures same { counted rest.new ≡ counted rest.old };

    /// Returns the readers of the next key and its value, or `None` after the last one.
    fn next_entry(rest: &mut Self::Entries) -> Option<(Self, Self)>
        ensures { TakesEntry source (entries rest.old) (entries rest.new) result };

    /// Returns the readers of a variant's name and of its content, if it has one.
    ///
    /// # Errors
    ///
    /// Returns an error if the source isn't a variant, or if memory runs out.
    fn choose(choice: Self::Choice) -> Result<(Self, Option<Self>), Self::Error>
        ensures { Names Self.Error.fault source (chosen choice) result };

    /// Returns the error for [`MapValueBeforeKey`](dynamo_value::ErrorImpl::MapValueBeforeKey).
    fn value_before_key() -> Self::Error
        ensures { Self.Error.fault result ≡ map_value_before_key };

    /// Returns the error for a string of several characters where one is expected.
    fn more_than_one_char() -> Self::Error
        ensures { Self.Error.fault result ≡ expected_char };

    /// Returns the number of remaining elements, if it is known.
    fn elements_left(rest: &Self::Elements) -> Option<usize>
        ensures hint { Hints (elements rest.now) result }
        ensures exact { result ≡ hint_of (counted rest.now) (elements rest.now) };

    /// Returns the number of remaining entries, if it is known. An implementation that returns it
    /// says for which entries by the ghost member `counted_entries`.
    fn entries_left(rest: &Self::Entries) -> Option<usize>
        ensures hint { Hints (entries rest.now) result }
        ensures exact { result ≡ hint_of (counted_entries rest.now) (entries rest.now) };
}
