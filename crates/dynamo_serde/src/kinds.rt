// The kinds of attribute values. serde's `Kind` has fewer, so whoever reads any attribute value
// asks which of these names the value has that comes, as if it were a variant's.
ghost use Rattle.std.specs.Prelude.{◌≡◌};
ghost use Rattle.dynamo_serde.specs.Laid.{kind_name};
ghost use Rattle.dynamo_serde.specs.Tape.{token_of};

use crate::tape::Token;
use dynamo_write::SetKind;
use serde::{Case, Name, NameKind};

// A name is a word between two characters U+037E, as no variant is named.
macro_rules! kind {
    ($name:literal) => {
        Name {
            name: $name,
            kind: NameKind::Field,
            case: Case::AsIs,
            aliases: &[],
            skipped: false,
        }
    };
}

pub(crate) static KINDS: [Name<'static>; 10] = [
    kind!("\u{37e}N\u{37e}"),
    kind!("\u{37e}S\u{37e}"),
    kind!("\u{37e}BOOL\u{37e}"),
    kind!("\u{37e}B\u{37e}"),
    kind!("\u{37e}NULL\u{37e}"),
    kind!("\u{37e}M\u{37e}"),
    kind!("\u{37e}L\u{37e}"),
    kind!("\u{37e}SS\u{37e}"),
    kind!("\u{37e}NS\u{37e}"),
    kind!("\u{37e}BS\u{37e}"),
];

// The places of the kinds in `KINDS`.
pub(crate) const N: usize = 0;

pub(crate) const S: usize = 1;

pub(crate) const BOOL: usize = 2;

pub(crate) const B: usize = 3;

pub(crate) const NULL: usize = 4;

pub(crate) const M: usize = 5;

pub(crate) const L: usize = 6;

pub(crate) const SS: usize = 7;

pub(crate) const NS: usize = 8;

pub(crate) const BS: usize = 9;

// Whether these are the names of the kinds.
pub(crate) fn are_asked(names: &[Name<'_>]) -> bool {
    match names.first() {
        Some(first) => first.name == "\u{37e}N\u{37e}",
        None => false,
    }
}

// The name of the kind of what begins with this token; an end and a key have none.
pub(crate) fn of_token(token: &Token<'_>) -> &'static str
    ensures { result.now ≡ kind_name (token_of token.now) }
{
    match token {
        Token::Number(_) => "\u{37e}N\u{37e}",
        Token::Text(_) => "\u{37e}S\u{37e}",
        Token::Bool(_) => "\u{37e}BOOL\u{37e}",
        Token::Bytes(_) => "\u{37e}B\u{37e}",
        Token::Null(_) => "\u{37e}NULL\u{37e}",
        Token::BeginMap(_) => "\u{37e}M\u{37e}",
        Token::BeginList => "\u{37e}L\u{37e}",
        Token::BeginSet(SetKind::Strings) => "\u{37e}SS\u{37e}",
        Token::BeginSet(SetKind::Numbers) => "\u{37e}NS\u{37e}",
        Token::BeginSet(SetKind::Blobs) => "\u{37e}BS\u{37e}",
        Token::EndSeq | Token::EndMap | Token::Key(_) => "",
    }
}
