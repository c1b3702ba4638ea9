//! The `use` lines of types, traits and functions.
use derive_declarations::{Body, Contents, Declaration, Failure, Field, Import, Reason};
use std::alloc::{AllocError, Global};
use std::fmt::Write;
use std::iter::once;

// The types of the library and of `std` that a field may have and that need an import.
const KNOWN: [(&str, &str); 5] = [
    ("serde_dynamo", "ByteBuf"),
    ("std::collections", "BTreeMap"),
    ("std::collections", "BTreeSet"),
    ("std::collections", "HashMap"),
    ("std::collections", "HashSet"),
];

// The type parameters of the methods that are printed.
const METHOD_PARAMETERS: [&str; 3] = ["D", "E", "S"];

/// The names that a file imports.
#[derive(Drop)]
pub struct Uses {
    found: Vec<Import>,
}

impl Uses {
    /// No names.
    pub fn new(alloc: Global) -> Uses {
        Uses {
            found: Vec::new(alloc),
        }
    }

    /// Adds a name of a path.
    pub fn add(&mut self, alloc: Global, path: &str, name: &str) -> Result<(), AllocError> {
        let import = Import {
            path: String::from_str(alloc, path)?,
            name: String::from_str(alloc, name)?,
        };
        Ok(self.found.push(import)?)
    }

    /// Adds what a file of declarations imports, and the known types that its fields have, if they
    /// aren't other types there.
    pub fn add_own(
        &mut self,
        alloc: Global,
        imports: &[Import],
        declarations: &[Declaration],
    ) -> Result<(), AllocError> {
        for import in imports {
            self.add(alloc, import.path.as_str(), import.name.as_str())?;
        }
        for (path, name) in KNOWN {
            let is_other = imports.iter().any(|it| it.brings(name) || it.brings("*"))
                || declarations.iter().any(|it| it.name.as_str() == name);
            if !is_other && declarations.iter().any(|it| has_type(it, name)) {
                self.add(alloc, path, name)?;
            }
        }
        Ok(())
    }

    /// Refuses a declaration that has the name of one of these imports, or of a type parameter of
    /// the impls. A type parameter of a declaration has neither.
    ///
    /// # Errors
    ///
    /// `Refused` with the line of the first such declaration and the name; out of memory.
    pub fn refuse_taken(&self, alloc: Global, declarations: &[Declaration]) -> Result<(), Failure> {
        for declaration in declarations {
            let parameters = declaration.parameters.iter().map(|it| it.name.as_str());
            let mut names = once(declaration.name.as_str()).chain(parameters);
            if let Some(name) = names.find(|name| self.is_taken(name)) {
                let name = String::from_str(alloc, name)?;
                return Err(Failure::Refused(declaration.line, Reason::TakenName(name)));
            }
        }
        Ok(())
    }

    fn is_taken(&self, name: &str) -> bool {
        METHOD_PARAMETERS.contains(&name) || self.found.iter().any(|it| it.name.as_str() == name)
    }

    /// Prints the imports, each on a line. `rt fmt` joins those of a path.
    pub fn print(mut self, out: &mut String) -> Result<(), AllocError> {
        self.found.sort_unstable();
        self.found.dedup();
        for Import { path, name } in self.found {
            if path.is_empty() {
                writeln!(out, "use {name};")?;
            } else {
                writeln!(out, "use {path}::{{{name}}};")?;
            }
        }
        Ok(())
    }
}

// Whether a field of the declaration has a type with this name.
fn has_type(declaration: &Declaration, name: &str) -> bool {
    match &declaration.body {
        Body::Record(fields) => have_type(fields, name),
        Body::Newtype(of) | Body::Transparent(of) => says(of.as_str(), name),
        Body::Tuple(types) => types.iter().any(|of| says(of.as_str(), name)),
        Body::Unit | Body::Units(_) => false,
        Body::Choices(variants) | Body::Tagged(_, variants) => variants.iter().any(
            |variant| match &variant.contents {
                Contents::Nothing => false,
                Contents::One(of) => says(of.as_str(), name),
                Contents::Several(types) => types.iter().any(|of| says(of.as_str(), name)),
                Contents::Named(fields) => have_type(fields, name),
            },
        ),
    }
}

fn have_type(fields: &[Field], name: &str) -> bool {
    fields.iter().any(|field| says(field.of.as_str(), name))
}

// Whether a type has this name in it.
fn says(of: &str, name: &str) -> bool {
    of.split(|c: char| c != '_' && !c.is_ascii_alphanumeric())
        .any(|word| word == name)
}
