ghost use Rattle.std.specs.Prelude.{◌≤◌, ◌<◌};

use derive_declarations::{Field, Presence, SetKind, StoredSet};
use std::alloc::{AllocError, Global};
use std::fmt::Display;

/// The list of these fields, each between two texts, as `dynamo_record` groups them: one is alone,
/// and more are a pair, four or eight groups, of which the first are the larger.
pub fn tree_of<T: Display>(
    alloc: Global,
    leaves: &[T],
    before: &str,
    after: &str,
) -> Result<String, AllocError> {
    let groups = match leaves {
        [] => return Ok(String::new(alloc)),
        [leaf] => return format!(in alloc; "{before}{leaf}{after}"),
        _ if leaves.len() < 4 => 2,
        _ if leaves.len() < 8 => 4,
        _ => 8,
    };
    let mut items = Vec::new(alloc);
    let mut rest = leaves;
    for done in 0..groups {
        let (group, others) = rest.split_at(share(rest.len(), groups - done));
        items.push(tree_of(alloc, group, before, after)?)?;
        rest = others;
    }
    let items = items.join(alloc, ", ")?;
    format!(in alloc; "({items})")
}

// How many leaves the first of so many groups has.
fn share(leaves: usize, groups: usize) -> usize
    requires { 0 < groups }
    ensures within { result ≤ leaves }
    ensures some { 0 < leaves → 0 < result }
    ensures fewer { 1 < groups → 1 < leaves → result < leaves }
{
    leaves.div_ceil(groups)
}

/// The list of these fields.
pub fn tree<T: Display>(alloc: Global, leaves: &[T]) -> Result<String, AllocError> {
    tree_of(alloc, leaves, "", "")
}

/// Each text between these two.
pub fn wrapped<T: Display>(
    alloc: Global,
    texts: &[T],
    before: &str,
    after: &str,
) -> Result<Vec<String>, AllocError> {
    let mut found = Vec::new(alloc);
    for text in texts {
        found.push(format!(in alloc; "{before}{text}{after}")?)?;
    }
    Ok(found)
}

/// The list of the types of the fields.
pub fn type_tree(alloc: Global, fields: &[Field]) -> Result<String, AllocError> {
    let mut leaves = Vec::new(alloc);
    for field in fields {
        leaves.push(leaf_type(alloc, field)?)?;
    }
    tree(alloc, leaves.as_slice())
}

fn leaf_type(alloc: Global, field: &Field) -> Result<String, AllocError> {
    let of = match field.form.set {
        Some(set) => {
            let prefix = if set.is_rust_set { "As" } else { "In" };
            let (name, member) = (set_name(set), field.of.as_str());
            format!(in alloc; "{prefix}{name}<{member}>")?
        }
        None => field.of.clone()?,
    };
    match field.form.presence {
        Presence::Required => format!(in alloc; "Field<{of}>"),
        Presence::Defaulted => format!(in alloc; "Field<WithDefault<{of}>>"),
        Presence::Omitted => format!(in alloc; "Field<Omitted<{of}>>"),
    }
}

/// The list of what is written of the fields, each of which is borrowed by its name after this.
pub fn ref_tree(alloc: Global, fields: &[Field], before: &str) -> Result<String, AllocError> {
    let mut leaves = Vec::new(alloc);
    for field in fields {
        leaves.push(leaf_ref(alloc, field, before)?)?;
    }
    tree(alloc, leaves.as_slice())
}

fn leaf_ref(alloc: Global, field: &Field, before: &str) -> Result<String, AllocError> {
    let name = field.name.as_str();
    let value = match field.form.set {
        Some(set) => {
            let wrapper = set_name(set);
            format!(in alloc; "{wrapper}({before}{name})")?
        }
        None => format!(in alloc; "{before}{name}")?,
    };
    match field.form.presence {
        Presence::Omitted => format!(in alloc; "OmittedRef({value})"),
        _ => Ok(value),
    }
}

// The name of the type that a value is written by as such a set.
fn set_name(set: StoredSet) -> &'static str {
    match set.kind {
        SetKind::Strings => "StringSet",
        SetKind::Numbers => "NumberSet",
        SetKind::Binaries => "BinarySet",
    }
}
