use std::alloc::{AllocError, Global};

/// The crate and the module of the declarations, as antt names them.
#[derive(Drop)]
pub struct ModulePath {
    /// The name of the crate.
    pub krate: String,

    /// The module inside the crate, with a dot after each part.
    pub inside: String,

    /// Whether the user gave them.
    pub is_given: bool,
}

impl ModulePath {
    /// Returns the path for a crate and a module that were not given.
    ///
    /// # Errors
    ///
    /// Returns [`AllocError`] if memory runs out.
    pub fn unknown(alloc: Global) -> Result<ModulePath, AllocError> {
        Ok(ModulePath {
            krate: String::from_str(alloc, "my_crate")?,
            inside: String::from_str(alloc, "my_module.")?,
            is_given: false,
        })
    }

    /// Reads `crate::module`; none where that is no path.
    ///
    /// # Errors
    ///
    /// Returns [`AllocError`] if memory runs out.
    pub fn of(alloc: Global, text: &str) -> Result<Option<ModulePath>, AllocError> {
        if !text.split("::").all(|part| is_name(part)) {
            return Ok(None);
        }
        let (krate, modules) = text.split_once("::").unwrap_or((text, ""));
        let mut inside = String::new(alloc);
        for part in modules.split("::").filter(|part| !part.is_empty()) {
            inside.push_str(part)?;
            inside.push('.')?;
        }
        Ok(Some(ModulePath {
            krate: String::from_str(alloc, krate)?,
            inside,
            is_given: true,
        }))
    }
}

fn is_name(part: &str) -> bool {
    !part.is_empty() && part.chars().all(|c| c == '_' || c.is_ascii_alphanumeric())
}
