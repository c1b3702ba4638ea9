ghost use Rattle.std.specs.Prelude.{◌≡◌, ◌≢◌, IfOk, MatchOption, string_bytes};
ghost use Rattle.derive_declarations.specs.declared.rename.RenameRule.{RenameRule};
ghost use Rattle.derive_declarations.specs.Renamed.{rule_name, renamed_field, renamed_variant};
ghost use Rattle.derive_declarations.specs.Renamed.{stored_name};
ghost use Rattle.derive_declarations.specs.Renamed.{pascal, camel, snake, kebab};

use std::alloc::{AllocError, Global};

/// The way in which serde writes the names of fields and variants, by `rename_all`.
#[derive(Clone, Copy)]
pub enum RenameRule {
    /// `lowercase`.
    Lower,
    /// `UPPERCASE`.
    Upper,
    /// `PascalCase`.
    Pascal,
    /// `camelCase`.
    Camel,
    /// `snake_case`.
    Snake,
    /// `SCREAMING_SNAKE_CASE`.
    ScreamingSnake,
    /// `kebab-case`.
    Kebab,
    /// `SCREAMING-KEBAB-CASE`.
    ScreamingKebab,
}

impl RenameRule {
    /// Returns the rule with this name, if it is one of the eight.
    pub fn of(name: &str) -> Option<RenameRule>
        ensures { MatchOption result ((rule : RenameRule) → name.now ≢ rule_name rule)
            (λ rule. name.now ≡ rule_name rule) }
    {
        match name {
            "lowercase" => Some(RenameRule::Lower),
            "UPPERCASE" => Some(RenameRule::Upper),
            "PascalCase" => Some(RenameRule::Pascal),
            "camelCase" => Some(RenameRule::Camel),
            "snake_case" => Some(RenameRule::Snake),
            "SCREAMING_SNAKE_CASE" => Some(RenameRule::ScreamingSnake),
            "kebab-case" => Some(RenameRule::Kebab),
            "SCREAMING-KEBAB-CASE" => Some(RenameRule::ScreamingKebab),
            _ => None,
        }
    }

    /// Returns the name of a field, which is in `snake_case`, by this rule.
    ///
    /// # Errors
    ///
    /// Returns [`AllocError`] if memory runs out.
    pub fn of_field(self, alloc: Global, field: &str) -> Result<String, AllocError>
        ensures { IfOk result (λ name. string_bytes name ≡ renamed_field self field.now) }
    {
        match self {
            RenameRule::Lower | RenameRule::Snake => String::from_str(alloc, field),
            RenameRule::Upper | RenameRule::ScreamingSnake => field.to_ascii_uppercase(alloc),
            RenameRule::Pascal => pascal(alloc, field),
            RenameRule::Camel => camel(alloc, pascal(alloc, field)?.as_str()),
            RenameRule::Kebab => kebab(alloc, field),
            RenameRule::ScreamingKebab => kebab(alloc, field)?.to_ascii_uppercase(alloc),
        }
    }

    /// Returns the name of a variant, which is in `PascalCase`, by this rule.
    ///
    /// # Errors
    ///
    /// Returns [`AllocError`] if memory runs out.
    pub fn of_variant(self, alloc: Global, variant: &str) -> Result<String, AllocError>
        ensures { IfOk result (λ name. string_bytes name ≡ renamed_variant self variant.now) }
    {
        match self {
            RenameRule::Pascal => String::from_str(alloc, variant),
            RenameRule::Lower => variant.to_ascii_lowercase(alloc),
            RenameRule::Upper => variant.to_ascii_uppercase(alloc),
            RenameRule::Camel => camel(alloc, variant),
            RenameRule::Snake => snake(alloc, variant),
            RenameRule::ScreamingSnake => snake(alloc, variant)?.to_ascii_uppercase(alloc),
            RenameRule::Kebab => kebab(alloc, snake(alloc, variant)?.as_str()),
            RenameRule::ScreamingKebab => {
                kebab(alloc, snake(alloc, variant)?.as_str())?.to_ascii_uppercase(alloc)
            }
        }
    }
}

/// Returns the name that a field is stored under: its own `rename`, else by the rule, else its name
/// in Rust.
///
/// # Errors
///
/// Returns [`AllocError`] if memory runs out.
pub fn stored_field(
    alloc: Global,
    field: &str,
    rename: Option<String>,
    rule: Option<RenameRule>,
) -> Result<String, AllocError>
    ensures { IfOk result
        (λ name. string_bytes name ≡ stored_name renamed_field rename rule field.now) }
{
    match (rename, rule) {
        (Some(rename), _) => Ok(rename),
        (None, Some(rule)) => rule.of_field(alloc, field),
        (None, None) => String::from_str(alloc, field),
    }
}

/// Returns the name that a variant is stored under: its own `rename`, else by the rule, else its
/// name in Rust.
///
/// # Errors
///
/// Returns [`AllocError`] if memory runs out.
pub fn stored_variant(
    alloc: Global,
    variant: &str,
    rename: Option<String>,
    rule: Option<RenameRule>,
) -> Result<String, AllocError>
    ensures { IfOk result
        (λ name. string_bytes name ≡ stored_name renamed_variant rename rule variant.now) }
{
    match (rename, rule) {
        (Some(rename), _) => Ok(rename),
        (None, Some(rule)) => rule.of_variant(alloc, variant),
        (None, None) => String::from_str(alloc, variant),
    }
}

// Each part between underscores begins with a capital, and the underscores go.
fn pascal(alloc: Global, snake: &str) -> Result<String, AllocError>
    ensures { IfOk result (λ name. string_bytes name ≡ pascal snake.now) }
{
    let mut name = String::new(alloc);
    let mut begins = true;
    for c in snake.chars() {
        if c == '_' {
            begins = true;
        } else {
            name.push(if begins { c.to_ascii_uppercase() } else { c })?;
            begins = false;
        }
    }
    Ok(name)
}

// The first letter is small.
fn camel(alloc: Global, pascal: &str) -> Result<String, AllocError>
    ensures { IfOk result (λ name. string_bytes name ≡ camel pascal.now) }
{
    let mut name = String::new(alloc);
    let mut chars = pascal.chars();
    let Some(first) = chars.next() else {
        return Ok(name);
    };
    name.push(first.to_ascii_lowercase())?;
    name.push_str(chars.as_str())?;
    Ok(name)
}

// Capitals become small letters, with an underscore before each but the first.
fn snake(alloc: Global, pascal: &str) -> Result<String, AllocError>
    ensures { IfOk result (λ name. string_bytes name ≡ snake pascal.now) }
{
    let mut name = String::new(alloc);
    let mut chars = pascal.chars();
    let Some(first) = chars.next() else {
        return Ok(name);
    };
    name.push(first.to_ascii_lowercase())?;
    for c in chars {
        if c.is_ascii_uppercase() {
            name.push('_')?;
        }
        name.push(c.to_ascii_lowercase())?;
    }
    Ok(name)
}

// Hyphens in place of underscores.
fn kebab(alloc: Global, snake: &str) -> Result<String, AllocError>
    ensures { IfOk result (λ name. string_bytes name ≡ kebab snake.now) }
{
    let mut name = String::new(alloc);
    for c in snake.chars() {
        name.push(if c == '_' { '-' } else { c })?;
    }
    Ok(name)
}
