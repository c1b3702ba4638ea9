// The steps of serde's readers, on a tape.
ghost use Rattle.std.specs.Prelude.{◌≡◌, false};
ghost use Rattle.dynamo_serde.specs.Laid.{Reads, Picks, Stays};
ghost use Rattle.dynamo_serde.specs.Tape.{is_told, place};

use crate::fault::{about, fault, message, no_memory};
use crate::kinds;
use crate::tape::{Doubt, Mark, Tape, Token};
use dynamo_value::{Error, ErrorImpl, Result};
use serde::{Format, Kind, Name, NameKind};
use std::alloc::Global;
use std::num::ParseIntError;

impl<'v> Tape<'v> {
    fn no_integer(&self, text: &str, cause: ParseIntError) -> Error {
        match String::from_str(self.alloc, text) {
            Ok(text) => fault(ErrorImpl::FailedToParseInt(text, cause)),
            Err(_) => no_memory(),
        }
    }

    fn no_float(&self, text: &str) -> Error {
        match String::from_str(self.alloc, text) {
            Ok(text) => fault(ErrorImpl::FailedToParseFloat(text)),
            Err(_) => no_memory(),
        }
    }

    // The integer before is too wide for its type, which is of 8 bits at least.
    fn too_wide(&self) -> Error {
        match self.look_back() {
            Some(Token::Number(text)) => match text.parse::<i8>() {
                Ok(_) => message(self.alloc, "invalid value"),
                Err(cause) => self.no_integer(text, cause),
            },
            Some(Token::Key(_)) => fault(ErrorImpl::ExpectedNum),
            _ => message(self.alloc, "invalid value"),
        }
    }

    // An error about the string before.
    fn about_last(&self, what: &str) -> Error {
        match self.look_back() {
            Some(Token::Text(text) | Token::Key(text)) => about(self.alloc, what, text),
            _ => message(self.alloc, what),
        }
    }
}

macro_rules! read_integer {
    ($self:ident, $type:ty) => {
        match $self.look() {
            Some(Token::Number(text)) => match text.parse::<$type>() {
                Ok(n) => {
                    $self.pass();
                    $self.doubt = Doubt::Width;
                    Ok(n)
                }
                Err(cause) => Err($self.no_integer(text, cause)),
            },
            Some(Token::Key(text)) => match text.parse::<$type>() {
                Ok(n) => {
                    $self.pass();
                    $self.doubt = Doubt::Width;
                    Ok(n)
                }
                Err(_) => Err(fault(ErrorImpl::ExpectedNum)),
            },
            _ => Err(fault(ErrorImpl::ExpectedNum)),
        }
    };
}

macro_rules! read_float {
    ($self:ident, $type:ty) => {
        match $self.look() {
            Some(Token::Number(text) | Token::Key(text)) => match text.parse::<$type>() {
                Ok(x) => {
                    $self.pass();
                    Ok(x)
                }
                Err(_) => Err($self.no_float(text)),
            },
            _ => Err(fault(ErrorImpl::ExpectedNum)),
        }
    };
}

impl<'v> Format for Tape<'v> {
    type Error = Error;

    type Mark = Mark;

    ghost gives = { λ old _ e new. Reads (place old) e (place new) };

    ghost picks = { λ old _ is_key names at new. Picks (place old) is_key names at (place new) };

    ghost stays = { λ old new. Stays (place old) (place new) };

    fn bool(&mut self, _input: &[u8]) -> Result<bool> {
        let b = match self.look() {
            Some(Token::Bool(b)) => b,
            Some(Token::Null(b)) if self.is_told() => b,
            Some(Token::Key("true")) => true,
            Some(Token::Key("false")) => false,
            Some(Token::Key(_)) => return Err(fault(ErrorImpl::ExpectedString)),
            _ => return Err(fault(ErrorImpl::ExpectedBool)),
        };
        self.pass();
        Ok(b)
    }

    fn i64(&mut self, _input: &[u8]) -> Result<i64> {
        read_integer!(self, i64)
    }

    fn u64(&mut self, _input: &[u8]) -> Result<u64> {
        read_integer!(self, u64)
    }

    fn i128(&mut self, _input: &[u8]) -> Result<i128> {
        read_integer!(self, i128)
    }

    fn u128(&mut self, _input: &[u8]) -> Result<u128> {
        read_integer!(self, u128)
    }

    fn f32(&mut self, _input: &[u8]) -> Result<f32> {
        read_float!(self, f32)
    }

    fn f64(&mut self, _input: &[u8]) -> Result<f64> {
        read_float!(self, f64)
    }

    fn char(&mut self, _input: &[u8]) -> Result<char> {
        match self.text(ErrorImpl::ExpectedChar)?.parse::<char>() {
            Ok(c) => Ok(c),
            Err(_) => Err(fault(ErrorImpl::ExpectedChar)),
        }
    }

    // The input has no strings, so none can be borrowed.
    fn plain_str(&mut self, _input: &[u8]) -> Result<(usize, usize)> {
        Err(message(self.alloc, "a text is not lent: read a String"))
    }

    fn plain_bytes(&mut self, _input: &[u8]) -> Result<(usize, usize)> {
        Err(message(self.alloc, "a byte string is not lent: read a Vec<u8>"))
    }

    fn string(&mut self, alloc: Global, _input: &[u8]) -> Result<String> {
        let text = match self.look() {
            Some(Token::Number(text)) if self.is_told() => {
                self.pass();
                text
            }
            _ => self.text(ErrorImpl::ExpectedString)?,
        };
        Ok(String::from_str(alloc, text)?)
    }

    fn byte_buf(&mut self, alloc: Global, _input: &[u8]) -> Result<Vec<u8>> {
        match self.look() {
            Some(Token::Bytes(bytes)) => {
                self.pass();
                Ok(Vec::from_slice(alloc, bytes)?)
            }
            _ => Err(fault(ErrorImpl::ExpectedBytes)),
        }
    }

    fn peek(&mut self, _input: &[u8]) -> Result<Kind> {
        let kind = match self.look() {
            Some(Token::Null(_)) => Kind::Unit,
            Some(Token::Bool(_)) => Kind::Bool,
            Some(Token::Number(text)) => kind_of(text),
            Some(Token::Text(_) | Token::Key(_)) => Kind::Str,
            Some(Token::Bytes(_)) => Kind::Bytes,
            Some(Token::BeginList | Token::BeginSet(_)) => Kind::Seq,
            Some(Token::BeginMap(_)) => Kind::Map,
            _ => return Err(self.wrong_len()),
        };
        self.doubt = Doubt::Looked;
        self.unmatched = None;
        Ok(kind)
    }

    fn take_unit(&mut self, _input: &[u8]) -> Result<bool> {
        match self.look() {
            Some(Token::Null(true)) => {
                self.pass();
                Ok(true)
            }
            // A reader that saw `Kind::Unit` expects one.
            Some(Token::Null(false)) => Err(fault(ErrorImpl::ExpectedUnit)),
            _ => {
                self.doubt = Doubt::Unit;
                Ok(false)
            }
        }
    }

    fn take_none(&mut self, _input: &[u8]) -> Result<bool> {
        match self.look() {
            Some(Token::Null(true)) => {
                self.pass();
                Ok(true)
            }
            _ => Ok(false),
        }
    }

    fn begin_seq(&mut self, _input: &[u8]) -> Result<()> {
        match self.look() {
            Some(Token::BeginList | Token::BeginSet(_)) => {
                self.pass();
                Ok(())
            }
            _ => Err(fault(ErrorImpl::ExpectedSeq)),
        }
    }

    fn next_item(&mut self, _input: &[u8]) -> Result<bool> {
        match self.look() {
            Some(Token::EndSeq) => {
                self.pass();
                Ok(false)
            }
            Some(_) => Ok(true),
            None => Err(self.wrong_len()),
        }
    }

    // What a list has more than the tuple is passed over, as the library's readers do.
    fn end_tuple(&mut self, _input: &[u8]) -> Result<()> {
        for _ in 0..u64::MAX {
            match self.look() {
                Some(Token::EndSeq) => {
                    self.pass();
                    return Ok(());
                }
                Some(_) => self.pass_whole(),
                None => break,
            }
        }
        Err(self.wrong_len())
    }

    fn begin_map(&mut self, _input: &[u8]) -> Result<()> {
        match self.look() {
            Some(Token::BeginMap(_)) => {
                self.pass();
                Ok(())
            }
            // Only an enum looks before it asks for a map.
            _ => match self.doubt {
                Doubt::Looked => Err(fault(ErrorImpl::ExpectedEnum)),
                _ => Err(fault(ErrorImpl::ExpectedMap)),
            },
        }
    }

    // A struct is read from a list too, and not from a set.
    fn begin_struct(&mut self, _input: &[u8]) -> Result<bool> {
        let is_list = match self.look() {
            Some(Token::BeginMap(_)) => false,
            Some(Token::BeginList) => true,
            _ => return Err(fault(ErrorImpl::ExpectedMap)),
        };
        self.pass();
        Ok(is_list)
    }

    #[inline(always)]
    fn next_key(&mut self, _input: &[u8], names: &[Name<'_>]) -> Result<Option<usize>> {
        match self.look() {
            Some(Token::Key(key)) => {
                self.pass();
                self.doubt = Doubt::Variant;
                Ok(Some(serde::find(names, key)))
            }
            Some(Token::EndMap) => {
                self.pass();
                self.doubt = doubt_at_end(names);
                Ok(None)
            }
            _ => Err(fault(ErrorImpl::ExpectedMap)),
        }
    }

    fn next_entry(&mut self, _input: &[u8]) -> Result<bool> {
        match self.look() {
            Some(Token::Key(_)) => Ok(true),
            Some(Token::EndMap) => {
                self.pass();
                Ok(false)
            }
            _ => Err(fault(ErrorImpl::ExpectedMap)),
        }
    }

    fn variant(&mut self, _input: &[u8], names: &[Name<'_>]) -> Result<usize> {
        if !kinds::are_asked(names) {
            // An enum without a tag looks first, so what is no string here is a tag.
            let text = self.text(ErrorImpl::ExpectedString)?;
            let at = serde::find(names, text);
            self.unmatched = if at < names.len() { None } else { Some(text) };
            return Ok(at);
        }
        match self.look() {
            Some(token) => {
                self.doubt = Doubt::Told;
                Ok(serde::find(names, kinds::of_token(&token)))
            }
            None => Err(self.wrong_len()),
        }
    }

    fn skip(&mut self, _input: &[u8]) -> Result<()> {
        self.pass_whole();
        Ok(())
    }

    fn mark(&mut self) -> Mark {
        self.place()
    }

    fn rewind(&mut self, mark: Mark) {
        self.go_to(mark);
    }

    fn release(&mut self, _mark: Mark) {}

    fn is_fatal(&self, error: &Error) -> bool {
        matches!(error.kind(), ErrorImpl::OutOfMemory)
    }

    fn missing(&self, name: &str) -> Error {
        about(self.alloc, "missing field", name)
    }

    fn duplicate(&self, name: &str) -> Error {
        about(self.alloc, "duplicate field", name)
    }

    fn unknown_key(&self) -> Error {
        self.about_last("unknown field")
    }

    // After a tag that names no variant, the reader may be anywhere in the enum's map.
    fn unknown_variant(&self) -> Error {
        if let Some(name) = self.unmatched {
            return about(self.alloc, "unknown variant", name);
        }
        if self.is_crowded() {
            return fault(ErrorImpl::ExpectedSingleKey);
        }
        self.about_last("unknown variant")
    }

    fn wrong_len(&self) -> Error {
        message(self.alloc, "invalid length")
    }

    fn invalid(&self) -> Error {
        match self.doubt {
            Doubt::Width => self.too_wide(),
            Doubt::Unit => fault(ErrorImpl::ExpectedUnit),
            Doubt::Variant => fault(ErrorImpl::ExpectedSingleKey),
            Doubt::Content => message(self.alloc, "missing content"),
            _ => message(self.alloc, "invalid value"),
        }
    }

    fn no_memory(&self) -> Error {
        no_memory()
    }

    fn custom(&self, text: &str) -> Error {
        message(self.alloc, text)
    }
}

// What is in doubt at the end of a map: an enum's content, if the name of one field was looked for.
#[inline(always)]
fn doubt_at_end(names: &[Name<'_>]) -> Doubt
    ensures { is_told result ≡ false }
{
    match names {
        [name] if name.kind == NameKind::Field && !name.skipped => Doubt::Content,
        _ => Doubt::Variant,
    }
}

// What a number whose kind nobody asks for is read as.
fn kind_of(text: &str) -> Kind {
    if text.parse::<u64>().is_ok() {
        Kind::Unsigned
    } else if text.parse::<i64>().is_ok() {
        Kind::Signed
    } else {
        Kind::Float
    }
}
