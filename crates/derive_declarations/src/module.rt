use crate::cut::{Cut, cut_text};
use crate::declaration::Declaration;
use crate::failure::Failure;
use crate::import::{Import, read_imports};
use crate::lexer::tokens;
use crate::parser::{ends_item, is_end, read_declaration, refuse_equal_lists};
use crate::parts::{attributed, bracketed, parts};
use crate::tagged::refuse_tagged;
use crate::token::Token;
use std::alloc::{AllocError, Global};

// What Rattle derives. It derives `Default` too, but not of strings and lists.
const DERIVED: &str = "Clone Copy PartialEq Eq PartialOrd Ord Hash Debug Drop";

/// A file of declarations.
#[derive(Drop)]
pub struct Module {
    /// Its structs and enums, in order.
    pub declarations: Vec<Declaration>,

    /// What its `use` declarations bring in, without the names of serde.
    pub imports: Vec<Import>,

    /// The documentation of the module, at the head of the file.
    pub docs: String,

    /// The rest of its text, without its imports, the attributes of serde, and derives that Rattle
    /// doesn't have. A type derives `Drop` or `Copy`.
    pub text: String,
}

/// Reads a file of declarations: structs and enums, and the imports above them.
///
/// # Errors
///
/// Returns [`Failure::Refused`] with the line for anything that is not described.
///
/// Returns [`Failure::Memory`] if memory runs out.
pub fn read_module(alloc: Global, text: &str) -> Result<Module, Failure> {
    let tokens = tokens(alloc, text)?;
    let mut declarations = Vec::new(alloc);
    let mut imports = Vec::new(alloc);
    let mut cuts = Vec::new(alloc);
    for item in tokens.split_inclusive(ends_item) {
        if let Some(names) = imported(item) {
            let mut found = read_imports(alloc, names)?;
            imports.append(&mut found)?;
            cuts.push(whole(alloc, item))?;
        } else if is_end(item) {
            cuts.push(whole(alloc, item))?;
        } else {
            let declaration = read_declaration(alloc, item)?;
            let mut own = cuts_of(alloc, item, declaration.body.are_units())?;
            cuts.append(&mut own)?;
            declarations.push(declaration)?;
        }
    }
    refuse_equal_lists(alloc, declarations.as_slice())?;
    refuse_tagged(declarations.as_slice())?;
    let text = cut_text(alloc, text, cuts.as_slice())?;
    let (docs, text) = without_docs(alloc, text.as_str())?;
    Ok(Module {
        declarations,
        imports,
        docs,
        text,
    })
}

// The documentation that a text begins with, with the comments before it, and the rest.
fn without_docs(alloc: Global, text: &str) -> Result<(String, String), AllocError> {
    let mut docs = String::new(alloc);
    let mut rest = String::new(alloc);
    let mut is_head = true;
    for line in text.lines() {
        is_head = is_head
            && (line.is_empty() || (line.starts_with("//") && !line.starts_with("///")));
        rest.push_str(line)?;
        rest.push('\n')?;
        if is_head && line.starts_with("//!") {
            docs.push_str(rest.as_str())?;
            rest = String::new(alloc);
        }
    }
    let rest = String::from_str(alloc, rest.trim_start())?;
    Ok((docs, rest))
}

/// What follows `use`, if the item is an import. One with an attribute or a visibility is none.
pub fn imported(item: &[Token]) -> Option<&[Token]> {
    match item {
        [word, names @ ..] if word.is("use") => Some(names),
        _ => None,
    }
}

// The cut of all tokens.
fn whole(alloc: Global, tokens: &[Token]) -> Cut {
    Cut {
        start: tokens.first().map_or(0, |token| token.start),
        end: tokens.last().map_or(0, |token| token.end),
        put: String::new(alloc),
    }
}

// The cuts of a declaration, in order. The printed impls copy the values of an enum of unit
// variants, and drop those of others.
fn cuts_of(alloc: Global, item: &[Token], are_units: bool) -> Result<Vec<Cut>, AllocError> {
    let (above, rest) = attributed(item);
    let derived = derived(alloc, above)?;
    let has = |name: &str| derived.iter().any(|it| it.is(name));
    let wanted = match (are_units, has("Copy"), has("Clone"), has("Drop")) {
        (_, true, _, _) | (false, false, _, true) => "",
        (true, false, true, _) => "Copy",
        (true, false, false, _) => "Clone, Copy",
        (false, false, _, false) => "Drop",
    };
    let first = (0..above.len()).find(|at| attribute_of(above, *at, "derive").is_some());
    let mut cuts = attribute_cuts(alloc, item, first, wanted)?;
    if let Some(token) = rest.first()
        && first.is_none()
        && !wanted.is_empty()
    {
        let cut = Cut {
            start: token.start,
            end: token.start,
            put: format!(in alloc; "#[derive({wanted})]\n")?,
        };
        let place = cuts.iter().position(|it| it.start > token.start);
        cuts.insert(place.unwrap_or(cuts.len()), cut)?;
    }
    Ok(cuts)
}

// The cuts of serde's attributes and of derives, of which the one at the first place derives these
// names too.
fn attribute_cuts(
    alloc: Global,
    item: &[Token],
    first: Option<usize>,
    wanted: &str,
) -> Result<Vec<Cut>, AllocError> {
    let mut cuts = Vec::new(alloc);
    for at in 0..item.len() {
        if let Some((attribute, _)) = attribute_of(item, at, "serde") {
            cuts.push(whole(alloc, attribute))?;
        }
        if let Some((attribute, names)) = attribute_of(item, at, "derive") {
            let wanted = if first == Some(at) { wanted } else { "" };
            let mut cut = whole(alloc, attribute);
            cut.put = derive_text(alloc, names, wanted)?;
            cuts.push(cut)?;
        }
    }
    Ok(cuts)
}

// The tokens of the attribute of this name that begins at this place, and those after the name
// inside of its brackets.
fn attribute_of<'a>(
    tokens: &'a [Token],
    at: usize,
    name: &str,
) -> Option<(&'a [Token], &'a [Token])> {
    let tokens = tokens.get(at..)?;
    let (mark, rest) = tokens.split_first()?;
    let (inside, _) = bracketed(rest, "[")?;
    let (word, names) = inside.split_first()?;
    if !mark.is("#") || !word.is(name) {
        return None;
    }
    Some((tokens.get(..inside.len().saturating_add(3))?, names))
}

// The last words of all paths that the attributes derive.
fn derived(alloc: Global, above: &[Token]) -> Result<Vec<&Token>, AllocError> {
    let mut found = Vec::new(alloc);
    for at in 0..above.len() {
        if let Some((_, names)) = attribute_of(above, at, "derive") {
            let mut names = derived_by(alloc, names)?;
            found.append(&mut names)?;
        }
    }
    Ok(found)
}

fn derived_by(alloc: Global, tokens: &[Token]) -> Result<Vec<&Token>, AllocError> {
    let mut found = Vec::new(alloc);
    if let Some((inside, _)) = bracketed(tokens, "(") {
        for part in parts(alloc, inside)? {
            if let Some(name) = part.last() {
                found.push(name)?;
            }
        }
    }
    Ok(found)
}

// A derive of the names that Rattle has, and of those that are wanted; empty where no name is left.
fn derive_text(alloc: Global, tokens: &[Token], wanted: &str) -> Result<String, AllocError> {
    let mut text = String::new(alloc);
    for name in derived_by(alloc, tokens)? {
        let is_dropped = name.is("Drop") && wanted.ends_with("Copy");
        let name = name.text.as_str();
        if DERIVED.split(' ').any(|derived| derived == name) && !is_dropped {
            push_name(&mut text, name)?;
        }
    }
    if !wanted.is_empty() {
        push_name(&mut text, wanted)?;
    }
    if text.is_empty() {
        return Ok(text);
    }
    format!(in alloc; "#[derive({text})]")
}

fn push_name(text: &mut String, name: &str) -> Result<(), AllocError> {
    if !text.is_empty() {
        text.push_str(", ")?;
    }
    text.push_str(name)
}
