use derive_declarations::{Declaration, Parameter};
use std::alloc::{AllocError, Global};
use std::fmt::Write;

/// How the impls of a type name it.
#[derive(Drop)]
pub struct Heading {
    /// Its own name.
    pub name: String,

    /// The name that it is written under.
    pub shown: String,

    /// Its parameters after its name, as `<T>`; empty where it has none.
    pub arguments: String,

    /// The type, as `Page<T>`.
    pub ty: String,

    /// Whether it is a key of maps.
    pub is_key: bool,

    /// Whether an unknown field is an error.
    pub denies_unknown: bool,

    /// Its parameters with their bounds, where their types are shaped.
    pub shaped: String,

    /// The same, where they are keys.
    pub keyed: String,
}

impl Heading {
    /// Returns how the impls of this declaration name its type.
    pub fn of(alloc: Global, declaration: &Declaration) -> Result<Heading, AllocError> {
        let name = declaration.name.clone()?;
        let parameters = declaration.parameters.as_slice();
        let arguments = listed(alloc, parameters, "")?;
        Ok(Heading {
            ty: format!(in alloc; "{name}{arguments}")?,
            name,
            shown: declaration.shown.clone()?,
            arguments,
            is_key: declaration.is_key,
            denies_unknown: declaration.denies_unknown,
            shaped: listed(alloc, parameters, "Shaped")?,
            keyed: listed(alloc, parameters, "ShapedKey")?,
        })
    }
}

// The parameters in angle brackets, each with its own bounds and this one, or by its name alone if
// this one is empty. Nothing if there are none.
fn listed(alloc: Global, parameters: &[Parameter], bound: &str) -> Result<String, AllocError> {
    let mut text = String::new(alloc);
    for Parameter { name, bounds } in parameters {
        let before = if text.is_empty() { "<" } else { ", " };
        match (bound, bounds.as_str()) {
            ("", _) => write!(text, "{before}{name}")?,
            (_, "") => write!(text, "{before}{name}: {bound}")?,
            _ => write!(text, "{before}{name}: {bounds} + {bound}")?,
        }
    }
    if !text.is_empty() {
        text.push('>')?;
    }
    Ok(text)
}
