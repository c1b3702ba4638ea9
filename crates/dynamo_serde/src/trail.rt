// The way from a whole attribute value to a token of its tape.
use crate::tape::Token;
use dynamo_place::{Place, Step};
use std::alloc::{AllocError, Global};

// What a step of reading is about: the value or the key at a token, or the list, set or map that
// the token is in. Tokens are named by their indexes.
#[derive(Clone, Copy, Drop)]
pub(crate) enum Focus {
    Token(usize),
    Around(usize),
}

// How far a list, a set or a map is read: to the element with this index, or to the entry with this
// key.
#[derive(Clone, Copy, Drop)]
enum Open<'v> {
    Elements(usize),
    Entries(&'v str),
}

// The place of what is in focus. If memory runs out, the last steps are left out.
pub(crate) fn place(alloc: Global, tokens: &[Token<'_>], focus: Focus) -> Place {
    let mut steps = Vec::new(alloc);
    if let Ok(open) = open_at(alloc, tokens, focus) {
        let _ = push_steps(alloc, &open, &mut steps);
    }
    Place::of_steps(steps)
}

// The lists, sets and maps that what is in focus is in, the outermost first.
fn open_at<'v>(
    alloc: Global,
    tokens: &[Token<'v>],
    focus: Focus,
) -> Result<Vec<Open<'v>>, AllocError> {
    let (Focus::Token(index) | Focus::Around(index)) = focus;
    let mut open = Vec::new(alloc);
    for token in tokens.iter().take(index) {
        pass(*token, &mut open)?;
    }
    match (focus, tokens.get(index)) {
        (Focus::Around(_), _) | (_, Some(Token::EndSeq | Token::EndMap)) => {
            open.pop();
        }
        (_, Some(Token::Key(key))) => enter(key, &mut open),
        _ => {}
    }
    Ok(open)
}

// Goes over a token.
fn pass<'v>(token: Token<'v>, open: &mut Vec<Open<'v>>) -> Result<(), AllocError> {
    match token {
        Token::BeginList | Token::BeginSet(_) => open.push(Open::Elements(0))?,
        Token::BeginMap(_) => open.push(Open::Entries(""))?,
        Token::Key(key) => enter(key, open),
        Token::EndSeq | Token::EndMap => {
            open.pop();
            end_value(open);
        }
        _ => end_value(open),
    }
    Ok(())
}

// The entry with this key begins.
fn enter<'v>(key: &'v str, open: &mut Vec<Open<'v>>) {
    if let Some(last) = open.last_mut() {
        *last = Open::Entries(key);
    }
}

// A value ends. In a list or a set the next element comes.
fn end_value(open: &mut Vec<Open<'_>>) {
    if let Some(Open::Elements(index)) = open.last_mut() {
        *index = index.saturating_add(1);
    }
}

// Pushes the step into each of them.
fn push_steps(alloc: Global, open: &[Open<'_>], steps: &mut Vec<Step>) -> Result<(), AllocError> {
    for one in open {
        let step = match one {
            Open::Elements(index) => Step::Element(*index),
            Open::Entries(key) => Step::Attribute(String::from_str(alloc, key)?),
        };
        steps.push(step)?;
    }
    Ok(())
}
