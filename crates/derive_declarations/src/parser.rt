use crate::attributes::{Attributes, read_attributes};
use crate::declaration::{Body, Declaration, Field, Parameter};
use crate::failure::{
    Failure, NO_BODY, NO_END, NO_FIELDS, NO_NAME, NO_SET, NO_WHERE, Reason, refused,
};
use crate::lexer::tokens;
use crate::module::imported;
use crate::parts::{after_visibility, attributed, bracketed, line_of, parts, type_text};
use crate::rename::{RenameRule, stored_field};
use crate::tagged::refuse_tagged;
use crate::token::Token;
use crate::types::refuse_type;
use crate::variants::enum_body;
use std::alloc::Global;

// Fields that have no names are called by the letters.
const LETTERS: usize = 26;

/// Reads the declarations of structs and enums in a text, in order.
///
/// # Errors
///
/// Returns [`Failure::Refused`] with the line for anything that is not described.
///
/// Returns [`Failure::Memory`] if memory runs out.
pub fn read_declarations(alloc: Global, text: &str) -> Result<Vec<Declaration>, Failure> {
    let tokens = tokens(alloc, text)?;
    let mut found = Vec::new(alloc);
    for item in tokens.split_inclusive(ends_item) {
        if imported(item).is_none() && !is_end(item) {
            found.push(read_declaration(alloc, item)?)?;
        }
    }
    refuse_equal_lists(alloc, found.as_slice())?;
    refuse_tagged(found.as_slice())?;
    Ok(found)
}

/// Checks that no two lists of fields would be declared with the same name.
///
/// # Errors
///
/// Returns [`Failure::Refused`] with the line of the second if two would.
///
/// Returns [`Failure::Memory`] if memory runs out.
pub fn refuse_equal_lists(alloc: Global, declarations: &[Declaration]) -> Result<(), Failure> {
    let mut names: Vec<&str> = Vec::new(alloc);
    for declaration in declarations {
        for name in declaration.lists(alloc)? {
            if names.iter().any(|other| *other == name) {
                let reason = Reason::SameList(String::from_str(alloc, name)?);
                return Err(Failure::Refused(declaration.line, reason));
            }
            names.push(name)?;
        }
    }
    Ok(())
}

/// Whether an item ends with this token. After an import with braces the mark that ends it is an
/// item of its own.
pub fn ends_item(token: &Token) -> bool {
    token.depth == 0 && (token.is(";") || token.is("}"))
}

/// Whether the item is no more than the mark after an import with braces.
pub fn is_end(item: &[Token]) -> bool {
    matches!(item, [end] if end.is(";"))
}

/// Reads a struct or an enum.
///
/// # Errors
///
/// Returns [`Failure::Refused`] with the line for anything that is not described.
///
/// Returns [`Failure::Memory`] if memory runs out.
pub fn read_declaration(alloc: Global, item: &[Token]) -> Result<Declaration, Failure> {
    let start = line_of(item, 1);
    let (above, rest) = attributed(item);
    let about = read_attributes(alloc, above)?;
    about.refuse(&["skip_serializing_if", "with", "alias"])?;
    let rest = after_visibility(rest);
    let line = line_of(rest, start);
    let (is_struct, name, rest) = named_item(rest, line)?;
    let (parameters, rest) = match bracketed(rest, "<") {
        Some((inside, rest)) => (parameters(alloc, inside, line)?, rest),
        None => (Vec::new(alloc), rest),
    };
    let body = if is_struct {
        about.refuse(&["tag"])?;
        struct_body(alloc, rest, &parameters, &about, line)?
    } else if parameters.is_empty() {
        enum_body(alloc, rest, &about, line)?
    } else {
        return Err(refused(line, "enums with type parameters are not described"));
    };
    if !matches!(body, Body::Record(_)) {
        about.refuse(&["default", "deny_unknown_fields"])?;
    }
    if !matches!(body, Body::Transparent(_)) {
        about.refuse(&["transparent"])?;
    }
    let Attributes {
        is_key,
        denies_unknown,
        rename,
        ..
    } = about;
    let name = name.text.clone()?;
    let shown = match rename {
        Some(rename) => rename,
        None => name.clone()?,
    };
    Ok(Declaration {
        name,
        shown,
        line,
        parameters,
        is_key,
        denies_unknown,
        body,
    })
}

// Whether the item is a struct, its name, and what follows that.
fn named_item(item: &[Token], line: u32) -> Result<(bool, &Token, &[Token]), Failure> {
    let (is_struct, name, rest) = match item {
        [keyword, name, rest @ ..] if keyword.is("struct") => (true, name, rest),
        [keyword, name, rest @ ..] if keyword.is("enum") => (false, name, rest),
        _ => return Err(refused(line, "only structs and enums are described")),
    };
    if name.is_word() {
        Ok((is_struct, name, rest))
    } else {
        Err(refused(name.line, NO_NAME))
    }
}

fn parameters(alloc: Global, inside: &[Token], line: u32) -> Result<Vec<Parameter>, Failure> {
    let mut found = Vec::new(alloc);
    for part in parts(alloc, inside)? {
        if part.iter().any(|token| token.is("=")) {
            return Err(refused(line, "a default of a type parameter is not described"));
        }
        let (name, bounds) = match part {
            [name] => (name, String::new(alloc)),
            [name, colon, bounds @ ..] if colon.is(":") => {
                (name, type_text(alloc, bounds, line)?)
            }
            _ => return Err(refused(line, "const parameters are not described")),
        };
        if !name.is_word() {
            return Err(refused(name.line, NO_NAME));
        }
        let name = name.text.clone()?;
        found.push(Parameter { name, bounds })?;
    }
    Ok(found)
}

fn struct_body(
    alloc: Global,
    rest: &[Token],
    parameters: &[Parameter],
    about: &Attributes,
    line: u32,
) -> Result<Body, Failure> {
    match rest {
        [] => Err(refused(line, NO_END)),
        [word, ..] if word.is("where") => Err(refused(word.line, NO_WHERE)),
        [end] if end.is(";") => {
            about.refuse(&["rename_all"])?;
            if !parameters.is_empty() {
                return Err(refused(line, "a unit struct with type parameters is not described"));
            }
            Ok(Body::Unit)
        }
        [open, ..] if open.is("(") => {
            about.refuse(&["rename_all"])?;
            unnamed_body(alloc, rest, parameters, about.is_transparent, line)
        }
        [open, ..] if open.is("{") => {
            let (inside, _) = bracketed(rest, "{").unwrap_or((&[], &[]));
            let is_default = about.defaults_fields()?;
            let fields = named_fields(alloc, inside, about.rename_all, is_default, line)?;
            if fields.is_empty() {
                return Err(refused(line, NO_FIELDS));
            }
            refuse_equal_names(alloc, &fields)?;
            Ok(Body::Record(fields))
        }
        _ => Err(refused(line, NO_BODY)),
    }
}

// Checks that no other name of a field is a name of a field already.
fn refuse_equal_names(alloc: Global, fields: &[Field]) -> Result<(), Failure> {
    let mut names: Vec<&str> = Vec::new(alloc);
    for field in fields {
        names.push(field.shown.as_str())?;
    }
    for field in fields {
        for other in &field.aliases {
            if names.iter().any(|name| *name == other.as_str()) {
                let reason = Reason::SameName(other.clone()?);
                return Err(Failure::Refused(field.line, reason));
            }
            names.push(other.as_str())?;
        }
    }
    Ok(())
}

// The body of a struct whose fields have no names: a newtype, where it is one field, or a
// transparent struct.
fn unnamed_body(
    alloc: Global,
    rest: &[Token],
    parameters: &[Parameter],
    is_transparent: bool,
    line: u32,
) -> Result<Body, Failure> {
    let inside = match bracketed(rest, "(") {
        Some((inside, [end])) if end.is(";") => inside,
        Some((_, [word, ..])) if word.is("where") => {
            return Err(refused(word.line, NO_WHERE));
        }
        _ => return Err(refused(line, NO_END)),
    };
    let mut types = unnamed_fields(alloc, inside, line)?;
    if types.len() > 1 {
        return Ok(Body::Tuple(types));
    }
    let Some(of) = types.pop() else {
        return Err(refused(line, NO_FIELDS));
    };
    let is_described = parameters.is_empty()
        || parameters
            .iter()
            .any(|parameter| parameter.name.as_str() == of.as_str());
    if !is_described {
        return Err(refused(
            line,
            "a generic newtype is described where its field is a parameter",
        ));
    }
    Ok(if is_transparent {
        Body::Transparent(of)
    } else {
        Body::Newtype(of)
    })
}

/// The texts of the types of the fields between brackets, which have no names.
///
/// # Errors
///
/// Returns [`Failure::Refused`] with the line for anything that is not described.
///
/// Returns [`Failure::Memory`] if memory runs out.
pub fn unnamed_fields(alloc: Global, inside: &[Token], line: u32) -> Result<Vec<String>, Failure> {
    let mut types = Vec::new(alloc);
    for part in parts(alloc, inside)? {
        types.push(unnamed_field(alloc, part, line)?)?;
    }
    if types.len() > LETTERS {
        return Err(refused(line, "at most 26 fields without names are described"));
    }
    Ok(types)
}

fn unnamed_field(alloc: Global, tokens: &[Token], line: u32) -> Result<String, Failure> {
    let (above, rest) = attributed(tokens);
    let about = read_attributes(alloc, above)?;
    if about.line != 0 {
        return Err(refused(
            about.line,
            "serde attributes have no place at a field without a name",
        ));
    }
    let of = after_visibility(rest);
    refuse_type(alloc, of)?;
    type_text(alloc, of, line_of(tokens, line))
}

/// The named fields between braces. Where they have no names of their own, those that they are
/// written under go by the rule. With `all_default` each has a default, as by `default` on the
/// struct.
///
/// # Errors
///
/// Returns [`Failure::Refused`] with the line for anything that is not described.
///
/// Returns [`Failure::Memory`] if memory runs out.
pub fn named_fields(
    alloc: Global,
    inside: &[Token],
    rule: Option<RenameRule>,
    all_default: bool,
    line: u32,
) -> Result<Vec<Field>, Failure> {
    let mut fields = Vec::new(alloc);
    for part in parts(alloc, inside)? {
        fields.push(named_field(alloc, part, rule, all_default, line)?)?;
    }
    Ok(fields)
}

fn named_field(
    alloc: Global,
    tokens: &[Token],
    rule: Option<RenameRule>,
    all_default: bool,
    line: u32,
) -> Result<Field, Failure> {
    let line = line_of(tokens, line);
    let (above, rest) = attributed(tokens);
    let mut about = read_attributes(alloc, above)?;
    about.refuse(&["rename_all", "transparent", "tag", "deny_unknown_fields"])?;
    about.is_default = about.is_default || all_default;
    let (name, of) = match after_visibility(rest) {
        [name, colon, of @ ..] if name.is_word() && colon.is(":") => (name, of),
        _ => return Err(refused(line_of(rest, line), "a field is written `name: Type`")),
    };
    let form = about.form(of)?;
    refuse_type(alloc, of)?;
    let of = match form.set {
        Some(set) if !set.is_rust_set => element_of(of),
        _ => Some(of),
    };
    let Some(of) = of else {
        return Err(refused(name.line, NO_SET));
    };
    let of = type_text(alloc, of, name.line)?;
    let name = name.text.clone()?;
    let shown = stored_field(alloc, name.as_str(), about.rename, rule)?;
    Ok(Field {
        name,
        shown,
        aliases: about.aliases,
        line: about.line,
        of,
        form,
    })
}

// The `T` of a type `Vec<T>`.
fn element_of(of: &[Token]) -> Option<&[Token]> {
    match of {
        [vec, rest @ ..] if vec.is("Vec") => match bracketed(rest, "<") {
            Some((element, [])) => Some(element),
            _ => None,
        },
        _ => None,
    }
}
