use crate::attributes::{Attributes, read_attributes};
use crate::declaration::{Body, Contents, Variant};
use crate::failure::{Failure, NO_BODY, NO_CONTENTS, NO_NAME, NO_WHERE, Reason, refused};
use crate::parser::{named_fields, unnamed_fields};
use crate::parts::{attributed, bracketed, line_of, parts};
use crate::rename::{RenameRule, stored_variant};
use crate::token::Token;
use std::alloc::Global;

// The attributes that no variant has.
const MISPLACED: [&str; 7] = [
    "skip_serializing_if",
    "with",
    "alias",
    "default",
    "deny_unknown_fields",
    "transparent",
    "tag",
];

/// The body of an enum with these attributes. Where variants have no names of their own, those that
/// they are written under go by its rule.
///
/// # Errors
///
/// Returns [`Failure::Refused`] with the line for anything that is not described.
///
/// Returns [`Failure::Memory`] if memory runs out.
pub fn enum_body(
    alloc: Global,
    rest: &[Token],
    about: &Attributes,
    line: u32,
) -> Result<Body, Failure> {
    if let [word, ..] = rest
        && word.is("where")
    {
        return Err(refused(word.line, NO_WHERE));
    }
    let Some((inside, _)) = bracketed(rest, "{") else {
        return Err(refused(line, NO_BODY));
    };
    let mut variants = Vec::new(alloc);
    for part in parts(alloc, inside)? {
        variants.push(read_variant(alloc, part, about.rename_all, line)?)?;
    }
    if variants.is_empty() {
        return Err(refused(line, "an enum without variants is not described"));
    }
    match &about.tag {
        Some(tag) => Ok(Body::Tagged(tag.clone()?, variants)),
        None if variants.iter().all(|variant| variant.is_unit()) => Ok(Body::Units(variants)),
        None => Ok(Body::Choices(variants)),
    }
}

fn read_variant(
    alloc: Global,
    tokens: &[Token],
    rule: Option<RenameRule>,
    line: u32,
) -> Result<Variant, Failure> {
    let line = line_of(tokens, line);
    let (above, rest) = attributed(tokens);
    let about = read_attributes(alloc, above)?;
    about.refuse(&MISPLACED)?;
    let (name, rest) = match rest {
        [name, rest @ ..] if name.is_word() => (name, rest),
        _ => return Err(refused(line_of(rest, line), NO_NAME)),
    };
    let contents = read_contents(alloc, rest, about.rename_all, name.line)?;
    if !matches!(contents, Contents::Named(_)) {
        about.refuse(&["rename_all"])?;
    }
    let name = name.text.clone()?;
    let shown = stored_variant(alloc, name.as_str(), about.rename, rule)?;
    Ok(Variant {
        name,
        shown,
        contents,
    })
}

fn read_contents(
    alloc: Global,
    tokens: &[Token],
    rule: Option<RenameRule>,
    line: u32,
) -> Result<Contents, Failure> {
    if let Some((inside, [])) = bracketed(tokens, "{") {
        let fields = named_fields(alloc, inside, rule, false, line)?;
        if fields.is_empty() {
            return Err(refused(line, NO_CONTENTS));
        }
        if let Some(field) = fields.iter().find(|field| !field.aliases.is_empty()) {
            return Err(Failure::Refused(field.line, Reason::Misplaced("alias")));
        }
        return Ok(Contents::Named(fields));
    }
    if let Some((inside, [])) = bracketed(tokens, "(") {
        return unnamed_contents(alloc, inside, line);
    }
    match tokens {
        [] => Ok(Contents::Nothing),
        [equals, ..] if equals.is("=") => {
            Err(refused(line, "variants with a number are not described"))
        }
        _ => Err(refused(line, NO_BODY)),
    }
}

fn unnamed_contents(alloc: Global, inside: &[Token], line: u32) -> Result<Contents, Failure> {
    let mut types = unnamed_fields(alloc, inside, line)?;
    if types.len() > 1 {
        return Ok(Contents::Several(types));
    }
    match types.pop() {
        Some(of) => Ok(Contents::One(of)),
        None => Err(refused(line, NO_CONTENTS)),
    }
}

impl Variant {
    fn is_unit(&self) -> bool {
        matches!(self.contents, Contents::Nothing)
    }
}
