ghost use Rattle.std.specs.Prelude.{◌≡◌};
ghost use Rattle.dynamo_value.specs.Fault.{map_value_before_key, expected_char};
ghost use Rattle.dynamo_de.specs.Shows.{seen};

use crate::spot::{Here, Spot};
use dynamo_de::{Inside, Reader, Request, Showing, Surface};
use std::alloc::Global;

/// A reader that shows what another one shows, and marks the place that reading has come to.
///
/// [`read_located`](crate::read_located) makes one.
#[derive(Drop)]
pub struct Located<'a, R> {
    reader: R,
    spot: Spot<'a>,
}

/// The remaining elements of a sequence, and how many were read.
#[derive(Drop)]
pub struct LocatedElements<'a, R: Reader> {
    rest: R::Elements,
    here: Here<'a>,
    index: usize,
}

/// The remaining entries of a map.
#[derive(Drop)]
pub struct LocatedEntries<'a, R: Reader> {
    rest: R::Entries,
    alloc: Global,
    here: Here<'a>,
}

/// A variant of an enum.
#[derive(Drop)]
pub struct LocatedChoice<'a, R: Reader> {
    choice: R::Choice,
    alloc: Global,
    here: Here<'a>,
}

impl<'a, R: Reader> Located<'a, R> {
    pub(crate) fn new(reader: R, spot: Spot<'a>) -> Self
        ensures { R.source result.reader ≡ R.source reader }
    {
        Located { reader, spot }
    }
}

type Inner<R> = Showing<R, <R as Reader>::Elements, <R as Reader>::Entries, <R as Reader>::Choice>;

type Outer<'a, R> = Showing<
    Located<'a, R>,
    LocatedElements<'a, R>,
    LocatedEntries<'a, R>,
    LocatedChoice<'a, R>,
>;

// The same, with located readers around what is inside.
fn raise<'a, R: Reader>(alloc: Global, shown: Inner<R>, here: Here<'a>) -> Outer<'a, R>
    ensures { seen (λ d. R.source d.reader) (λ l. R.elements l.rest) (λ m. R.entries m.rest)
        (λ c. R.chosen c.choice) result ≡ seen R.source R.elements R.entries R.chosen shown }
{
    match shown {
        Showing::Bool(v) => Showing::Bool(v),
        Showing::Integer(v) => Showing::Integer(v),
        Showing::NumberText(v) => Showing::NumberText(v),
        Showing::Char(v) => Showing::Char(v),
        Showing::FirstChar(v) => Showing::FirstChar(v),
        Showing::Text(v) => Showing::Text(v),
        Showing::Bytes(v) => Showing::Bytes(v),
        Showing::None => Showing::None,
        Showing::Unit => Showing::Unit,
        Showing::Some(reader) => Showing::Some(Located {
            reader,
            spot: here.again(),
        }),
        Showing::Newtype(reader) => Showing::Newtype(Located {
            reader,
            spot: here.again(),
        }),
        Showing::Sequence(rest) => Showing::Sequence(LocatedElements {
            rest,
            here,
            index: 0,
        }),
        Showing::Map(rest) => Showing::Map(LocatedEntries { rest, alloc, here }),
        Showing::Enum(choice) => Showing::Enum(LocatedChoice {
            choice,
            alloc,
            here,
        }),
    }
}

impl<'a, R: Reader> Reader for Located<'a, R> {
    type Error = R::Error;

    type Elements = LocatedElements<'a, R>;

    type Entries = LocatedEntries<'a, R>;

    type Choice = LocatedChoice<'a, R>;

    ghost source = { λ d. R.source d.reader };

    ghost elements = { λ l. R.elements l.rest };

    ghost counted = { λ l. R.counted l.rest };

    ghost entries = { λ m. R.entries m.rest };

    ghost counted_entries = { λ m. R.counted_entries m.rest };

    ghost chosen = { λ c. R.chosen c.choice };

    fn alloc(&self) -> Global {
        self.reader.alloc()
    }

    fn text(&self) -> Option<&str> {
        self.reader.text()
    }

    fn show(self, request: Request) -> Result<Outer<'a, R>, R::Error> {
        let Located { reader, spot } = self;
        let here = spot.mark();
        let alloc = reader.alloc();
        Ok(raise::<R>(alloc, reader.show(request)?, here))
    }

    fn surface(self, request: Request) -> Result<Surface, R::Error> {
        let Located { reader, spot } = self;
        spot.mark();
        reader.surface(request)
    }

    fn inside(self) -> Result<Inside<LocatedElements<'a, R>, LocatedEntries<'a, R>>, R::Error> {
        let Located { reader, spot } = self;
        let here = spot.mark();
        let alloc = reader.alloc();
        match reader.inside()? {
            Inside::Nothing => Ok(Inside::Nothing),
            Inside::Elements(rest) => Ok(Inside::Elements(LocatedElements {
                rest,
                here,
                index: 0,
            })),
            Inside::Entries(rest) => Ok(Inside::Entries(LocatedEntries { rest, alloc, here })),
        }
    }

    fn next_element(rest: &mut LocatedElements<'a, R>) -> Option<Located<'a, R>> {
        match R::next_element(&mut rest.rest) {
            None => {
                rest.here.mark();
                None
            }
            Some(element) => {
                let spot = rest.here.element(rest.index);
                rest.index = rest.index.wrapping_add(1);
                Some(Located::new(element, spot))
            }
        }
    }

    fn next_entry(rest: &mut LocatedEntries<'a, R>) -> Option<(Located<'a, R>, Located<'a, R>)> {
        match R::next_entry(&mut rest.rest) {
            None => {
                rest.here.mark();
                None
            }
            Some((key, value)) => {
                let spot = rest.here.entry(rest.alloc, key.text());
                let inside = rest.here.entry(rest.alloc, key.text());
                Some((Located::new(key, spot), Located::new(value, inside)))
            }
        }
    }

    fn choose(
        choice: LocatedChoice<'a, R>,
    ) -> Result<(Located<'a, R>, Option<Located<'a, R>>), R::Error> {
        let LocatedChoice {
            choice,
            alloc,
            here,
        } = choice;
        let (name, content) = R::choose(choice)?;
        let inside = here.entry(alloc, name.text());
        let name = Located::new(name, here.again());
        match content {
            None => Ok((name, None)),
            Some(content) => Ok((name, Some(Located::new(content, inside)))),
        }
    }

    fn value_before_key() -> R::Error
        ensures { R.Error.fault result ≡ map_value_before_key }
    {
        R::value_before_key()
    }

    fn more_than_one_char() -> R::Error
        ensures { R.Error.fault result ≡ expected_char }
    {
        R::more_than_one_char()
    }

    fn elements_left(rest: &LocatedElements<'a, R>) -> Option<usize> {
        rest.here.mark();
        R::elements_left(&rest.rest)
    }

    fn entries_left(rest: &LocatedEntries<'a, R>) -> Option<usize> {
        rest.here.mark();
        R::entries_left(&rest.rest)
    }
}
