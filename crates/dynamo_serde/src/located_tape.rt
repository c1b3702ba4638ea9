// A tape that says what its last step was about, so that the place of an error is known.
ghost use Rattle.std.specs.Prelude.{◌≡◌};
ghost use Rattle.dynamo_serde.specs.Laid.{Reads, Picks, Stays};
ghost use Rattle.dynamo_serde.specs.Tape.{place};

use crate::tape::{Mark, Tape};
use crate::trail::{self, Focus};
use dynamo_place::Place;
use dynamo_value::{Error, Result};
use serde::{Format, Kind, Name};
use std::alloc::Global;

// A step about a value or a key has that in focus, also after it was passed over. A step that goes
// on in a list, a set or a map has the whole of that in focus.
#[derive(Drop)]
pub(crate) struct LocatedTape<'v> {
    tape: Tape<'v>,
    focus: Focus,
}

impl<'v> LocatedTape<'v> {
    pub(crate) fn new(tape: Tape<'v>) -> LocatedTape<'v> {
        LocatedTape {
            tape,
            focus: Focus::Token(0),
        }
    }

    // The place of what is in focus.
    pub(crate) fn place(&self, alloc: Global) -> Place {
        trail::place(alloc, self.tape.tokens(), self.focus)
    }

    // The next step is about the value or the key that comes.
    #[inline(always)]
    fn focus_next(&mut self)
        ensures { self.new.tape ≡ self.old.tape }
    {
        self.focus = Focus::Token(self.tape.index());
    }

    // The next step is about the list, the set or the map that is being read.
    #[inline(always)]
    fn focus_around(&mut self)
        ensures { self.new.tape ≡ self.old.tape }
    {
        self.focus = Focus::Around(self.tape.index());
    }
}

impl<'v> Format for LocatedTape<'v> {
    type Error = Error;

    type Mark = Mark;

    ghost gives = { λ old _ e new. Reads (place old.tape) e (place new.tape) };

    ghost picks = { λ old _ is_key names at new. Picks (place old.tape) is_key names at
        (place new.tape) };

    ghost stays = { λ old new. Stays (place old.tape) (place new.tape) };

    fn bool(&mut self, input: &[u8]) -> Result<bool> {
        self.focus_next();
        self.tape.bool(input)
    }

    fn i64(&mut self, input: &[u8]) -> Result<i64> {
        self.focus_next();
        self.tape.i64(input)
    }

    fn u64(&mut self, input: &[u8]) -> Result<u64> {
        self.focus_next();
        self.tape.u64(input)
    }

    fn i128(&mut self, input: &[u8]) -> Result<i128> {
        self.focus_next();
        self.tape.i128(input)
    }

    fn u128(&mut self, input: &[u8]) -> Result<u128> {
        self.focus_next();
        self.tape.u128(input)
    }

    fn f32(&mut self, input: &[u8]) -> Result<f32> {
        self.focus_next();
        self.tape.f32(input)
    }

    fn f64(&mut self, input: &[u8]) -> Result<f64> {
        self.focus_next();
        self.tape.f64(input)
    }

    fn char(&mut self, input: &[u8]) -> Result<char> {
        self.focus_next();
        self.tape.char(input)
    }

    fn plain_str(&mut self, input: &[u8]) -> Result<(usize, usize)> {
        self.focus_next();
        self.tape.plain_str(input)
    }

    fn plain_bytes(&mut self, input: &[u8]) -> Result<(usize, usize)> {
        self.focus_next();
        self.tape.plain_bytes(input)
    }

    fn string(&mut self, alloc: Global, input: &[u8]) -> Result<String> {
        self.focus_next();
        self.tape.string(alloc, input)
    }

    fn byte_buf(&mut self, alloc: Global, input: &[u8]) -> Result<Vec<u8>> {
        self.focus_next();
        self.tape.byte_buf(alloc, input)
    }

    fn peek(&mut self, input: &[u8]) -> Result<Kind> {
        self.focus_next();
        self.tape.peek(input)
    }

    fn take_unit(&mut self, input: &[u8]) -> Result<bool> {
        self.focus_next();
        self.tape.take_unit(input)
    }

    fn take_none(&mut self, input: &[u8]) -> Result<bool> {
        self.focus_next();
        self.tape.take_none(input)
    }

    fn begin_seq(&mut self, input: &[u8]) -> Result<()> {
        self.focus_next();
        self.tape.begin_seq(input)
    }

    fn next_item(&mut self, input: &[u8]) -> Result<bool> {
        self.focus_around();
        self.tape.next_item(input)
    }

    fn end_tuple(&mut self, input: &[u8]) -> Result<()> {
        self.focus_around();
        self.tape.end_tuple(input)
    }

    fn begin_map(&mut self, input: &[u8]) -> Result<()> {
        self.focus_next();
        self.tape.begin_map(input)
    }

    fn begin_struct(&mut self, input: &[u8]) -> Result<bool> {
        self.focus_next();
        self.tape.begin_struct(input)
    }

    #[inline(always)]
    fn next_key(&mut self, input: &[u8], names: &[Name<'_>]) -> Result<Option<usize>> {
        self.focus_around();
        self.tape.next_key(input, names)
    }

    fn next_entry(&mut self, input: &[u8]) -> Result<bool> {
        self.focus_around();
        self.tape.next_entry(input)
    }

    fn variant(&mut self, input: &[u8], names: &[Name<'_>]) -> Result<usize> {
        self.focus_next();
        self.tape.variant(input, names)
    }

    fn skip(&mut self, input: &[u8]) -> Result<()> {
        self.focus_next();
        self.tape.skip(input)
    }

    fn mark(&mut self) -> Mark {
        self.tape.mark()
    }

    fn rewind(&mut self, mark: Mark) {
        self.tape.rewind(mark);
        self.focus_next();
    }

    fn release(&mut self, mark: Mark) {
        self.tape.release(mark)
    }

    fn is_fatal(&self, error: &Error) -> bool {
        self.tape.is_fatal(error)
    }

    fn missing(&self, name: &str) -> Error {
        self.tape.missing(name)
    }

    fn duplicate(&self, name: &str) -> Error {
        self.tape.duplicate(name)
    }

    fn unknown_key(&self) -> Error {
        self.tape.unknown_key()
    }

    fn unknown_variant(&self) -> Error {
        self.tape.unknown_variant()
    }

    fn wrong_len(&self) -> Error {
        self.tape.wrong_len()
    }

    fn invalid(&self) -> Error {
        self.tape.invalid()
    }

    fn no_memory(&self) -> Error {
        self.tape.no_memory()
    }

    fn custom(&self, message: &str) -> Error {
        self.tape.custom(message)
    }
}
