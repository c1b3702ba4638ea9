use crate::declaration::{Form, Presence, SetKind, StoredSet};
use crate::failure::{Failure, Reason, refused};
use crate::parts::{bracketed, parts};
use crate::rename::RenameRule;
use crate::token::{Kind, Token};
use std::alloc::Global;

/// What the attributes at one place say.
#[derive(Drop)]
pub struct Attributes {
    /// Whether `Ord` and `Hash` are derived.
    pub is_key: bool,
    /// Whether `Default` is derived.
    pub derives_default: bool,
    /// Whether it is `transparent`.
    pub is_transparent: bool,
    pub rename: Option<String>,
    pub rename_all: Option<RenameRule>,
    pub is_default: bool,
    /// The tag of an enum that is internally tagged.
    pub tag: Option<String>,
    /// The type, such as `Vec`, whose function is in `skip_serializing_if`.
    pub omitted: Option<&'static str>,
    pub set: Option<SetKind>,

    /// The other names in `alias`.
    pub aliases: Vec<String>,
    /// Whether there is `deny_unknown_fields`.
    pub denies_unknown: bool,

    /// The line of the last attribute of serde.
    pub line: u32,
}

impl Attributes {
    /// Checks that there is none of these attributes, which have no place here.
    ///
    /// # Errors
    ///
    /// Returns [`Failure::Refused`] with the line and the first of them that there is.
    pub fn refuse(&self, names: &[&'static str]) -> Result<(), Failure> {
        match names.iter().find(|name| self.has(name)) {
            Some(name) => Err(Failure::Refused(self.line, Reason::Misplaced(*name))),
            None => Ok(()),
        }
    }

    // Checks that there isn't already the attribute that is on this line.
    fn refuse_again(&self, name: &'static str, line: u32) -> Result<(), Failure> {
        if self.has(name) {
            return Err(Failure::Refused(line, Reason::Twice(name)));
        }
        Ok(())
    }

    fn has(&self, name: &str) -> bool {
        match name {
            "alias" => !self.aliases.is_empty(),
            "default" => self.is_default,
            "deny_unknown_fields" => self.denies_unknown,
            "rename" => self.rename.is_some(),
            "rename_all" => self.rename_all.is_some(),
            "skip_serializing_if" => self.omitted.is_some(),
            "tag" => self.tag.is_some(),
            "transparent" => self.is_transparent,
            "with" => self.set.is_some(),
            _ => false,
        }
    }

    /// Returns whether each missing field of the struct with these attributes is read as its type's
    /// default.
    ///
    /// # Errors
    ///
    /// Returns [`Failure::Refused`] with the line if the struct has a default of its own.
    pub fn defaults_fields(&self) -> Result<bool, Failure> {
        if self.is_default && !self.derives_default {
            let text = "`default` of a struct is described if it derives `Default`";
            return Err(refused(self.line, text));
        }
        Ok(self.is_default)
    }

    /// Returns how a field of this type with these attributes is stored.
    ///
    /// # Errors
    ///
    /// Returns [`Failure::Refused`] with the line if the field is left out by a function of another
    /// type, or if it is left out and then can't be read.
    pub fn form(&self, of: &[Token]) -> Result<Form, Failure> {
        if let Some(name) = self.omitted {
            if !type_name(of).is_some_and(|token| token.is(name)) {
                return Err(Failure::Refused(self.line, Reason::OtherType(name)));
            }
            if name != "Option" && !self.is_default {
                let text = "a field that is skipped if it is empty needs `default` to be read";
                return Err(refused(self.line, text));
            }
        }
        let is_rust_set = type_name(of).is_some_and(|token| is_set_type(token));
        let presence = match (self.omitted, self.is_default) {
            (Some(_), _) => Presence::Omitted,
            (None, true) => Presence::Defaulted,
            (None, false) => Presence::Required,
        };
        Ok(Form {
            set: self.set.map(|kind| StoredSet { kind, is_rust_set }),
            presence,
        })
    }
}

/// Reads the attributes at one place. Those that are neither serde's nor derives are skipped.
///
/// # Errors
///
/// Returns [`Failure::Refused`] with the line for an attribute of serde that the description
/// doesn't have, and for `cfg`.
///
/// Returns [`Failure::Memory`] if memory runs out.
pub fn read_attributes(alloc: Global, tokens: &[Token]) -> Result<Attributes, Failure> {
    let mut found = Attributes {
        is_key: false,
        derives_default: false,
        is_transparent: false,
        rename: None,
        rename_all: None,
        is_default: false,
        tag: None,
        omitted: None,
        set: None,
        aliases: Vec::new(alloc),
        denies_unknown: false,
        line: 0,
    };
    let depth = tokens.first().map_or(0, |token| token.depth);
    let mut derives_ord = false;
    let mut derives_hash = false;
    for attribute in tokens.split(|token| token.depth == depth && token.is("#")) {
        let Some((inside, _)) = bracketed(attribute, "[") else {
            continue;
        };
        let Some((name, rest)) = inside.split_first() else {
            continue;
        };
        if name.is("cfg") || name.is("cfg_attr") {
            return Err(refused(
                name.line,
                "declarations that depend on `cfg` are not described",
            ));
        }
        if name.is("serde_as") || name.is("serde_with") {
            unknown(alloc, name)?;
        }
        if name.is("derive") {
            let derives = |name: &str| rest.iter().any(|token| token.is(name));
            derives_ord = derives_ord || derives("Ord");
            derives_hash = derives_hash || derives("Hash");
            found.derives_default = found.derives_default || derives("Default");
        }
        if name.is("serde") {
            found.line = name.line;
            read_serde(alloc, rest, &mut found)?;
        }
    }
    found.is_key = derives_ord && derives_hash;
    Ok(found)
}

fn read_serde(alloc: Global, tokens: &[Token], found: &mut Attributes) -> Result<(), Failure> {
    let Some((inside, _)) = bracketed(tokens, "(") else {
        return Ok(());
    };
    for part in parts(alloc, inside)? {
        match part {
            [name] if name.is("default") => {
                found.refuse_again("default", name.line)?;
                found.is_default = true;
            }
            [name] if name.is("transparent") => {
                found.refuse_again("transparent", name.line)?;
                found.is_transparent = true;
            }
            [name] if name.is("deny_unknown_fields") => {
                found.refuse_again("deny_unknown_fields", name.line)?;
                found.denies_unknown = true;
            }
            [name, equals, text] if equals.is("=") && text.kind == Kind::Text => {
                read_valued(alloc, name, text, found)?;
            }
            [name, ..] => return unknown(alloc, name),
            [] => {}
        }
    }
    Ok(())
}

// Reads an attribute that has a text.
fn read_valued(
    alloc: Global,
    name: &Token,
    text: &Token,
    found: &mut Attributes,
) -> Result<(), Failure> {
    if name.is("rename") {
        found.refuse_again("rename", name.line)?;
        found.rename = Some(plain_text(text)?);
    } else if name.is("alias") {
        found.aliases.push(plain_text(text)?)?;
    } else if name.is("tag") {
        found.refuse_again("tag", name.line)?;
        found.tag = Some(plain_text(text)?);
    } else if name.is("rename_all") {
        found.refuse_again("rename_all", name.line)?;
        found.rename_all = Some(rule(text)?);
    } else if name.is("with") {
        found.refuse_again("with", name.line)?;
        found.set = Some(set_kind(text)?);
    } else if name.is("skip_serializing_if") {
        found.refuse_again("skip_serializing_if", name.line)?;
        found.omitted = Some(omitted_type(text)?);
    } else {
        return unknown(alloc, name);
    }
    Ok(())
}

// A name that is printed as it is.
fn plain_text(text: &Token) -> Result<String, Failure> {
    if !text.text.chars().all(is_plain) {
        return Err(refused(
            text.line,
            "a name is plain ASCII without quotes and backslashes",
        ));
    }
    Ok(text.text.clone()?)
}

fn is_plain(c: char) -> bool {
    matches!(c, ' '..='~') && c != '"' && c != '\\'
}

fn rule(text: &Token) -> Result<RenameRule, Failure> {
    match RenameRule::of(text.text.as_str()) {
        Some(rule) => Ok(rule),
        None => Err(Failure::Refused(text.line, Reason::Rule(text.text.clone()?))),
    }
}

fn set_kind(text: &Token) -> Result<SetKind, Failure> {
    match text.text.as_str() {
        "serde_dynamo::string_set" => Ok(SetKind::Strings),
        "serde_dynamo::number_set" => Ok(SetKind::Numbers),
        "serde_dynamo::binary_set" => Ok(SetKind::Binaries),
        _ => Err(Failure::Refused(text.line, Reason::With(text.text.clone()?))),
    }
}

// The name of the type whose default this function tells.
fn omitted_type(text: &Token) -> Result<&'static str, Failure> {
    match text.text.as_str() {
        "Option::is_none" => Ok("Option"),
        "String::is_empty" => Ok("String"),
        "Vec::is_empty" => Ok("Vec"),
        "BTreeMap::is_empty" => Ok("BTreeMap"),
        "HashMap::is_empty" => Ok("HashMap"),
        "BTreeSet::is_empty" => Ok("BTreeSet"),
        "HashSet::is_empty" => Ok("HashSet"),
        _ => Err(Failure::Refused(text.line, Reason::SkipIf(text.text.clone()?))),
    }
}

// Whether a field of this type holds its members as a set.
fn is_set_type(name: &Token) -> bool {
    name.is("BTreeSet") || name.is("HashSet")
}

// The last name of the path of a type.
fn type_name(of: &[Token]) -> Option<&Token> {
    let end = of
        .iter()
        .position(|token| token.is("<"))
        .unwrap_or(of.len());
    of[..end].last()
}

fn unknown(alloc: Global, name: &Token) -> Result<(), Failure> {
    let text = String::from_str(alloc, name.text.as_str())?;
    Err(Failure::Refused(name.line, Reason::Attribute(text)))
}
