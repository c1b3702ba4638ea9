ghost use Rattle.std.specs.Prelude.{◌≡◌, option_map};
ghost use Rattle.dynamo_value.specs.View.{view};
ghost use Rattle.dynamo_write.specs.Answers.{AnswersWithin};
ghost use Rattle.dynamo_write.specs.Set as set;
ghost use Rattle.dynamo_write.specs.Set.{as_set, set_kind};
ghost use Rattle.dynamo_write.specs.SetKind.{kind_of};

use dynamo_value::{AttributeValue, Error, ErrorImpl, Result};
use std::alloc::Global;

/// The kinds of DynamoDB's sets.
#[derive(Clone, Copy, Debug)]
pub enum SetKind {
    /// Sets of strings.
    Strings,

    /// Sets of numbers.
    Numbers,

    /// Sets of byte strings.
    Blobs,
}

impl SetKind {
    /// Returns the kind of set for a newtype struct of this name, if it is the symbol of one.
    pub fn of_symbol(name: &str) -> Option<SetKind>
        ensures { option_map kind_of result ≡ set_kind name.now }
    {
        if name == "\u{37e}STRINGSET\u{37e}" {
            Some(SetKind::Strings)
        } else if name == "\u{37e}NUMBERSET\u{37e}" {
            Some(SetKind::Numbers)
        } else if name == "\u{37e}BYTESSET\u{37e}" {
            Some(SetKind::Blobs)
        } else {
            None
        }
    }

    /// Turns a list into a set of this kind.
    ///
    /// # Errors
    ///
    /// Returns [`ErrorImpl::NotSetlike`] if the value isn't a list.
    ///
    /// Returns [`ErrorImpl::StringSetExpectedType`], [`ErrorImpl::NumberSetExpectedType`] or
    /// [`ErrorImpl::BinarySetExpectedType`] if an element is of another kind.
    ///
    /// Returns [`ErrorImpl::OutOfMemory`] if memory runs out.
    pub fn set_of(self, alloc: Global, value: AttributeValue) -> Result<AttributeValue>
        ensures { AnswersWithin (as_set (kind_of self) (view value)) result }
    {
        let AttributeValue::L(values) = value else {
            return Err(Error::from(ErrorImpl::NotSetlike));
        };
        let mut texts = Vec::new(alloc);
        let mut blobs = Vec::new(alloc);
        for value in values {
            match (self, value) {
                (SetKind::Strings, AttributeValue::S(text)) => texts.push(text)?,
                (SetKind::Numbers, AttributeValue::N(text)) => texts.push(text)?,
                (SetKind::Blobs, AttributeValue::B(blob)) => blobs.push(blob)?,
                (SetKind::Strings, _) => return Err(Error::from(ErrorImpl::StringSetExpectedType)),
                (SetKind::Numbers, _) => return Err(Error::from(ErrorImpl::NumberSetExpectedType)),
                (SetKind::Blobs, _) => return Err(Error::from(ErrorImpl::BinarySetExpectedType)),
            }
        }
        Ok(match self {
            SetKind::Strings => AttributeValue::Ss(texts),
            SetKind::Numbers => AttributeValue::Ns(texts),
            SetKind::Blobs => AttributeValue::Bs(blobs),
        })
    }
}

/// Returns what is written for a newtype struct of this name: a set of the elements if the name is
/// the symbol of a set, or else the content.
///
/// # Errors
///
/// Returns the error of [`SetKind::set_of`] if the name is the symbol of a set.
pub fn named(alloc: Global, name: &str, value: AttributeValue) -> Result<AttributeValue>
    ensures { AnswersWithin (set.named (set_kind name.now) (view value)) result }
{
    match SetKind::of_symbol(name) {
        Some(kind) => kind.set_of(alloc, value),
        None => Ok(value),
    }
}
