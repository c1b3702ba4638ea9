// Cuts of token lists, by the brackets that are open around each token.
ghost use Rattle.std.specs.Prelude.{◌≡◌, ◌++◌};

use crate::failure::{Failure, NO_TYPE, refused};
use crate::token::{Kind, Token};
use std::alloc::{AllocError, Global};

/// The parts between commas outside brackets. A comma at the end has no part after it.
///
/// # Errors
///
/// Returns [`AllocError`] if memory runs out.
pub fn parts(alloc: Global, tokens: &[Token]) -> Result<Vec<&[Token]>, AllocError> {
    let depth = tokens.first().map_or(0, |token| token.depth);
    let mut found = Vec::new(alloc);
    for part in tokens.split(|token| token.depth == depth && token.is(",")) {
        if !part.is_empty() {
            found.push(part)?;
        }
    }
    Ok(found)
}

/// The tokens between the bracket that the list begins with and the one that closes it, and those
/// after it. None where it begins otherwise.
pub fn bracketed<'a>(tokens: &'a [Token], bracket: &str) -> Option<(&'a [Token], &'a [Token])> {
    let (open, rest) = tokens.split_first()?;
    if !open.is(bracket) {
        return None;
    }
    let end = rest.iter().position(|token| token.depth == open.depth)?;
    let (inside, closed) = rest.split_at(end);
    let (_, after) = closed.split_first()?;
    Some((inside, after))
}

/// Returns the attributes at the beginning of the list, and the tokens that they belong to.
pub fn attributed(tokens: &[Token]) -> (&[Token], &[Token])
    ensures { result.0.now ++ result.1.now ≡ tokens.now }
{
    let depth = tokens.first().map_or(0, |token| token.depth);
    let is_after = |token: &Token| {
        token.depth == depth && !token.is("#") && !token.is("[") && !token.is("]")
    };
    let end = tokens.iter().position(is_after).unwrap_or(tokens.len());
    tokens.split_at(end)
}

/// What follows the visibility that the list may begin with.
pub fn after_visibility(tokens: &[Token]) -> &[Token] {
    match tokens {
        [first, rest @ ..] if first.is("pub") => match bracketed(rest, "(") {
            Some((_, after)) if !after.is_empty() => after,
            _ => rest,
        },
        _ => tokens,
    }
}

/// The text of a type.
///
/// # Errors
///
/// Returns [`Failure::Refused`] with the line if the tokens are no type.
///
/// Returns [`Failure::Memory`] if memory runs out.
pub fn type_text(alloc: Global, tokens: &[Token], line: u32) -> Result<String, Failure> {
    let mut text = String::new(alloc);
    let mut before: Option<&Token> = None;
    for token in tokens {
        if token.kind == Kind::Text || token.is("#") || token.is("{") {
            return Err(refused(token.line, NO_TYPE));
        }
        if before.is_some_and(|before| are_spaced(before, token)) {
            text.push(' ')?;
        }
        text.push_str(token.text.as_str())?;
        before = Some(token);
    }
    if text.is_empty() {
        return Err(refused(line, NO_TYPE));
    }
    Ok(text)
}

// Whether there is a space between the two.
fn are_spaced(before: &Token, after: &Token) -> bool {
    let is_wide = |token: &Token| token.is("+") || token.is("=");
    before.is(",")
        || before.is(";")
        || is_wide(before)
        || is_wide(after)
        || (before.is_word() && after.is_word())
}

/// The line of the first token, or this one where there is none.
pub fn line_of(tokens: &[Token], line: u32) -> u32 {
    tokens.first().map_or(line, |token| token.line)
}
