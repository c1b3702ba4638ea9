use crate::names::{letters, names};
use crate::tree::{ref_tree, tree, tree_of, wrapped};
use derive_declarations::{Contents, Declaration, Variant, fields_of};
use std::alloc::{AllocError, Global};

// The names that have a meaning of their own in a ghost member.
const KEYWORDS: &str = "data record deriving module package open unfoldable abbrev axiom unfold \
    unfolding ruleset mutual infix infixl infixr elim coe fcoe tcoe hcom com";

/// A variant, by what describes it in the impls of its enum.
#[derive(Drop)]
pub struct Case<'a> {
    pub variant: &'a Variant,

    // The name of its enum.
    of: &'a str,
    is_tagged: bool,

    // What its fields are called, and what is written of them, after a comma.
    names: Vec<&'a str>,
    refs: String,
}

/// The cases of an enum. If it has a tag, these declarations have the structs in its newtype
/// variants.
pub fn cases<'a>(
    alloc: Global,
    of: &'a str,
    variants: &'a [Variant],
    structs: Option<&[Declaration]>,
) -> Result<Vec<Case<'a>>, AllocError> {
    let mut found = Vec::new(alloc);
    for variant in variants {
        let (names, refs) = held(alloc, &variant.contents, structs)?;
        found.push(Case {
            variant,
            of,
            is_tagged: structs.is_some(),
            names,
            refs,
        })?;
    }
    Ok(found)
}

// What the fields of a variant of these contents are called, and what is written of them.
fn held<'a>(
    alloc: Global,
    contents: &'a Contents,
    structs: Option<&[Declaration]>,
) -> Result<(Vec<&'a str>, String), AllocError> {
    let (names, refs) = match contents {
        Contents::Nothing => return Ok((Vec::new(alloc), String::new(alloc))),
        Contents::One(ty) => {
            let names = vec![in alloc; "n"]?;
            let Some(structs) = structs else {
                return Ok((names, String::from_str(alloc, ", n")?));
            };
            let fields = fields_of(structs, ty.as_str()).unwrap_or(&[]);
            (names, ref_tree(alloc, fields, "&n.")?)
        }
        Contents::Several(types) => {
            let names = letters(alloc, types.len())?;
            let refs = tree(alloc, names.as_slice())?;
            (names, refs)
        }
        Contents::Named(fields) => (names(alloc, fields)?, ref_tree(alloc, fields, "")?),
    };
    Ok((names, format!(in alloc; ", &{refs}")?))
}

/// What the list of variants has for a variant of these contents, and the names of the functions
/// that write it and by which it conforms.
pub fn listing(contents: &Contents, is_tagged: bool) -> (&'static str, &'static str, &'static str) {
    match (contents, is_tagged) {
        (Contents::Nothing, false) => ("Nothing", "write_unit", "unit_conforms"),
        (Contents::Nothing, true) => ("Nothing", "write_tagged_unit", "tagged_unit_conforms"),
        (Contents::One(_), false) => ("One", "write_one", "one_conforms"),
        (Contents::One(_), true) => ("Inner", "write_tagged_inner", "tagged_inner_conforms"),
        (Contents::Several(_), _) => ("Several", "write_several", "several_conform"),
        (Contents::Named(_), false) => ("Named", "write_struct", "named_conform"),
        (Contents::Named(_), true) => ("Named", "write_tagged_struct", "tagged_struct_conforms"),
    }
}

impl Case<'_> {
    /// The variant of its fields, as a value and as a pattern: `Event::Tuple(a, b)`.
    pub fn of_fields(&self, alloc: Global) -> Result<String, AllocError> {
        let (of, name) = (self.of, self.variant.name.as_str());
        let names = self.names.join(alloc, ", ")?;
        match self.variant.contents {
            Contents::Nothing => format!(in alloc; "{of}::{name}"),
            Contents::Named(_) => format!(in alloc; "{of}::{name} {{ {names} }}"),
            _ => format!(in alloc; "{of}::{name}({names})"),
        }
    }

    fn listing(&self) -> (&'static str, &'static str, &'static str) {
        listing(&self.variant.contents, self.is_tagged)
    }

    /// Its pattern in the list of variants, as `Named(Field(a))`. Several fields are bound after
    /// it, since no pattern moves several parts out of an enum: it is `Named(fields)`, and the
    /// second the pattern of these, as `(Field(a), Field(b))`.
    pub fn listed(&self, alloc: Global) -> Result<(String, Option<String>), AllocError> {
        let (listed, _, _) = self.listing();
        let leaves = tree_of(alloc, self.names.as_slice(), "Field(", ")")?;
        Ok(match self.variant.contents {
            Contents::Nothing => (String::from_str(alloc, listed)?, None),
            Contents::One(_) => (format!(in alloc; "{listed}(n)")?, None),
            _ if self.names.len() < 2 => (format!(in alloc; "{listed}({leaves})")?, None),
            _ => (format!(in alloc; "{listed}(fields)")?, Some(leaves)),
        })
    }

    /// Its type in the list of variants, as `Several<(Field<u8>, Field<u8>)>`.
    pub fn listed_type(&self, alloc: Global) -> Result<String, AllocError> {
        let (listed, _, _) = self.listing();
        match &self.variant.contents {
            Contents::Nothing => String::from_str(alloc, listed),
            Contents::One(ty) => format!(in alloc; "{listed}<{ty}>"),
            Contents::Several(types) => {
                let leaves = tree_of(alloc, types.as_slice(), "Field<", ">")?;
                format!(in alloc; "{listed}<{leaves}>")
            }
            Contents::Named(_) => format!(in alloc; "{listed}<{}Fields>", self.variant.name),
        }
    }

    /// What its fields are called in a ghost member, each after a space.
    pub fn ghost_binders(&self, alloc: Global) -> Result<String, AllocError> {
        let names = ghost_names(alloc, self.names.as_slice())?;
        wrapped(alloc, names.as_slice(), " ", "")?.join(alloc, "")
    }

    /// Its fields in the list of variants, in a ghost member.
    pub fn ghost_parts(&self, alloc: Global) -> Result<String, AllocError> {
        let names = ghost_names(alloc, self.names.as_slice())?;
        let leaves = match self.variant.contents {
            Contents::Nothing => return String::from_str(alloc, "_"),
            Contents::One(_) => tree(alloc, names.as_slice())?,
            _ => tree_of(alloc, names.as_slice(), "record { 0 = ", " }")?,
        };
        format!(in alloc; "record {{ 0 = {leaves} }}")
    }

    /// The proof in a ghost member that no two of its fields, with the tag, have the same name.
    pub fn ghost_named(&self) -> &'static str {
        match (&self.variant.contents, self.is_tagged) {
            (Contents::Named(_), _) | (Contents::One(_), true) => "(refl, refl)",
            _ => "_",
        }
    }

    /// The call that writes the variant at this index.
    pub fn write_call(&self, alloc: Global, index: usize) -> Result<String, AllocError> {
        let (_, function, _) = self.listing();
        let types = self.type_arguments(alloc)?;
        let refs = self.refs.as_str();
        format!(in alloc; "{function}::<{types}, S>(serializer, {index}{refs})")
    }

    /// The call by which the variant at this index conforms.
    pub fn conform_call(&self, alloc: Global, index: usize) -> Result<String, AllocError> {
        let (_, _, function) = self.listing();
        let types = self.type_arguments(alloc)?;
        let refs = self.refs.as_str();
        format!(in alloc; "{function}::<{types}>({index}{refs})")
    }

    // The type arguments that both have.
    fn type_arguments(&self, alloc: Global) -> Result<String, AllocError> {
        let of = self.of;
        match &self.variant.contents {
            Contents::Nothing => String::from_str(alloc, of),
            Contents::One(ty) if self.is_tagged => format!(in alloc; "{of}, {ty}, _"),
            Contents::One(ty) => format!(in alloc; "{of}, {ty}"),
            Contents::Several(_) => format!(in alloc; "{of}, _"),
            Contents::Named(_) => format!(in alloc; "{of}, {}Fields, _", self.variant.name),
        }
    }
}

// The names in a ghost member, in quotes where they have a meaning there.
fn ghost_names(alloc: Global, names: &[&str]) -> Result<Vec<String>, AllocError> {
    let mut found = Vec::new(alloc);
    for name in names {
        found.push(if KEYWORDS.split(' ').any(|it| it == *name) {
            format!(in alloc; "«{name}»")?
        } else {
            String::from_str(alloc, name)?
        })?;
    }
    Ok(found)
}
