ghost use Rattle.dynamo_place.specs.PlaceText.{located_text};

use crate::Place;
use std::fmt;

/// An error of reading, and the place that reading had come to.
///
/// It is printed as the place and the error, `orders[3].price: Expected num`; of a whole value the
/// error alone.
#[derive(Debug, Drop)]
pub struct LocatedError<E> {
    /// Where the error was found. It is shorter than it could be if memory for it ran out.
    pub place: Place,

    /// The error.
    pub error: E,
}

impl<E: fmt::Display> fmt::Display for LocatedError<E> {
    ghost output = { located_text E.output };

    fn fmt<W: fmt::Write>(&self, f: &mut fmt::Formatter<W>) -> fmt::Result {
        if !self.place.steps().is_empty() {
            write!(f, "{}: ", self.place)?;
        }
        fmt::Display::fmt(&self.error, f)
    }
}

impl<E: std::error::Error> std::error::Error for LocatedError<E> {}
