use crate::failure::{Failure, NO_IMPORT, refused};
use crate::token::Token;
use std::alloc::{AllocError, Global};

/// A name that a `use` declaration brings in, and the path that leads to it.
#[derive(Drop, PartialEq, Eq, PartialOrd, Ord)]
pub struct Import {
    /// The path of the name.
    pub path: String,

    /// The name, with ` as ` and another name if it has one here.
    pub name: String,
}

impl Import {
    /// Whether the declarations below it say this name.
    pub fn brings(&self, name: &str) -> bool {
        match self.name.as_str().split_once(" as ") {
            Some((_, own)) => own == name,
            None => self.name.as_str() == name,
        }
    }

    // Whether it is of serde, whose names the printed impls import where they need them.
    fn is_of_serde(&self) -> bool {
        let path = if self.path.is_empty() {
            &self.name
        } else {
            &self.path
        };
        let first = path.as_str().split(|c: char| c == ':' || c == ' ').next();
        matches!(first, Some("serde" | "serde_derive" | "serde_bytes"))
    }
}

// Where the reading of a `use` declaration is.
#[derive(Drop)]
struct Reader {
    alloc: Global,

    // The paths before the braces that are open.
    open: Vec<String>,
    path: String,
    name: Option<String>,
    wants_name: bool,
    is_renamed: bool,
    found: Vec<Import>,
}

/// Reads the names that a `use` declaration brings in, without those of serde, from the tokens
/// after the word `use`.
///
/// # Errors
///
/// Returns [`Failure::Refused`] with the line for anything else than such a declaration.
///
/// Returns [`Failure::Memory`] if memory runs out.
pub fn read_imports(alloc: Global, tokens: &[Token]) -> Result<Vec<Import>, Failure> {
    let mut reader = Reader {
        alloc,
        open: Vec::new(alloc),
        path: String::new(alloc),
        name: None,
        wants_name: true,
        is_renamed: false,
        found: Vec::new(alloc),
    };
    for token in tokens {
        reader.read(token)?;
    }
    reader.end_name()?;
    Ok(reader.found)
}

impl Reader {
    fn read(&mut self, token: &Token) -> Result<(), Failure> {
        let is_name = token.is("*") || (token.is_word() && !token.is("as"));
        if is_name != self.wants_name && (is_name || token.is("as") || token.is(";")) {
            return Err(refused(token.line, NO_IMPORT));
        }
        self.wants_name = !is_name && !token.is("}") && !token.is(";");
        if is_name {
            Ok(self.read_name(token.text.as_str())?)
        } else if token.is("as") {
            self.is_renamed = true;
            Ok(())
        } else if token.is("{") {
            self.enter_name()?;
            Ok(self.open.push(self.path.clone()?)?)
        } else if token.is(",") {
            Ok(self.end_name()?)
        } else if token.is("}") {
            self.end_name()?;
            drop(self.open.pop());
            Ok(self.return_to_open()?)
        } else if token.is(":") || token.is(";") {
            Ok(())
        } else {
            Err(refused(token.line, NO_IMPORT))
        }
    }

    fn read_name(&mut self, name: &str) -> Result<(), AllocError> {
        if self.is_renamed {
            self.is_renamed = false;
            let before = self.name.take();
            let before = before.as_ref().map_or("_", |before| before.as_str());
            self.name = Some(format!(in self.alloc; "{before} as {name}")?);
        } else {
            self.enter_name()?;
            self.name = Some(String::from_str(self.alloc, name)?);
        }
        Ok(())
    }

    // Makes the name a part of the path.
    fn enter_name(&mut self) -> Result<(), AllocError> {
        if let Some(name) = self.name.take() {
            if !self.path.is_empty() {
                self.path.push_str("::")?;
            }
            self.path.push_str(name.as_str())?;
        }
        Ok(())
    }

    // Ends a name, and goes back to the path of the braces around it.
    fn end_name(&mut self) -> Result<(), AllocError> {
        if let Some(name) = self.name.take() {
            let is_buffer = self.path.as_str() == "serde_bytes" && name.starts_with("ByteBuf");
            let path = if is_buffer {
                String::from_str(self.alloc, "serde_dynamo")?
            } else {
                self.path.clone()?
            };
            let import = Import { path, name };
            if !import.is_of_serde() {
                self.found.push(import)?;
            }
        }
        self.return_to_open()
    }

    fn return_to_open(&mut self) -> Result<(), AllocError> {
        self.path = match self.open.last() {
            Some(path) => path.clone()?,
            None => String::new(self.alloc),
        };
        Ok(())
    }
}
