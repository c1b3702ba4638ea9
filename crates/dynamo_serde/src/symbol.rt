// The content of a symbol: a word between two characters U+037E, as the one key of a map that is
// sent.
ghost use Rattle.std.specs.Prelude.{◌≡◌, Some, IfOk, option_map};
ghost use Rattle.dynamo_value.specs.View.{view};
ghost use Rattle.dynamo_serde.specs.Symbol.{named, converted as converted_to};
ghost use Rattle.dynamo_serde.specs.SymbolOf.{symbol_of};

use crate::fault::fault;
use dynamo_value::{AttributeValue, ErrorImpl, Result};
use dynamo_write::SetKind;
use std::alloc::Global;

// A list under one of these is a set.
pub(crate) const STRING_SET: &str = "\u{37e}STRINGSET\u{37e}";

pub(crate) const NUMBER_SET: &str = "\u{37e}NUMBERSET\u{37e}";

pub(crate) const BINARY_SET: &str = "\u{37e}BYTESSET\u{37e}";

// A string under it is a number.
pub(crate) const NUMBER: &str = "\u{37e}NUMBER\u{37e}";

// A boolean under it is that NULL.
pub(crate) const NULL: &str = "\u{37e}NULL\u{37e}";

#[derive(Clone, Copy, Drop)]
pub(crate) enum Symbol {
    Set(SetKind),
    Number,
    Null,
}

// The symbol of this name, if it is one.
pub(crate) fn symbol_named(name: &str) -> Option<Symbol>
    ensures { option_map symbol_of result ≡ named name.now }
{
    match SetKind::of_symbol(name) {
        Some(kind) => Some(Symbol::Set(kind)),
        None if name == NUMBER => Some(Symbol::Number),
        None if name == NULL => Some(Symbol::Null),
        None => None,
    }
}

// What a value becomes under a symbol.
pub(crate) fn converted(
    alloc: Global,
    symbol: Symbol,
    value: AttributeValue,
) -> Result<AttributeValue>
    ensures { IfOk result
        (λ made. converted_to (symbol_of symbol) (view value) ≡ Some (view made)) }
{
    match (symbol, value) {
        (Symbol::Set(kind), value) => kind.set_of(alloc, value),
        (Symbol::Number, AttributeValue::S(text)) => Ok(AttributeValue::N(text)),
        (Symbol::Number, _) => Err(fault(ErrorImpl::ExpectedString)),
        (Symbol::Null, AttributeValue::Bool(b)) => Ok(AttributeValue::Null(b)),
        (Symbol::Null, _) => Err(fault(ErrorImpl::ExpectedBool)),
    }
}
