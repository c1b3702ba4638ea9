use crate::impls::print_impls;
use crate::imports::Words;
use crate::module_path::ModulePath;
use derive_declarations::{Body, Declaration, Failure, Import, Module, RenameRule};
use std::alloc::{AllocError, Global};
use std::fmt::Write;

/// The imports and the impls of the declarations, to put below them in this module.
///
/// # Errors
///
/// `Refused` if a declaration has a name that the impls need for something else; out of memory.
pub fn impls_of(
    alloc: Global,
    path: &ModulePath,
    declarations: &[Declaration],
) -> Result<String, Failure> {
    let mut out = String::new(alloc);
    if !declarations.is_empty() {
        print_imports(alloc, &mut out, path, declarations, None)?;
        print_all(alloc, &mut out, declarations)?;
    }
    Ok(out)
}

/// The whole file of this module: its imports, the declarations, and their impls.
///
/// # Errors
///
/// `Refused` if a declaration has a name that the impls need for something else; out of memory.
pub fn file_of(alloc: Global, path: &ModulePath, module: &Module) -> Result<String, Failure> {
    let mut out = String::new(alloc);
    let declarations = module.declarations.as_slice();
    if !declarations.is_empty() {
        out.push_str(module.docs.as_str())?;
        let imports = Some(module.imports.as_slice());
        print_imports(alloc, &mut out, path, declarations, imports)?;
        out.push('\n')?;
        out.push_str(module.text.as_str())?;
        print_all(alloc, &mut out, declarations)?;
    }
    Ok(out)
}

fn print_imports(
    alloc: Global,
    out: &mut String,
    path: &ModulePath,
    declarations: &[Declaration],
    own: Option<&[Import]>,
) -> Result<(), Failure> {
    if !path.is_given && declarations.iter().any(|it| it.body.is_enum()) {
        out.push_str(
            "// Write the crate and the module of the enums for my_crate and my_module below.\n",
        )?;
    }
    let words = Words::of(alloc, declarations)?;
    words.print_definitions(alloc, out)?;
    for declaration in declarations {
        print_enum_import(alloc, out, path, declarations, declaration)?;
    }
    out.push('\n')?;
    let mut uses = words.uses(alloc)?;
    uses.refuse_taken(alloc, declarations)?;
    if let Some(imports) = own {
        uses.add_own(alloc, imports, declarations)?;
    }
    Ok(uses.print(out)?)
}

fn print_all(
    alloc: Global,
    out: &mut String,
    declarations: &[Declaration],
) -> Result<(), AllocError> {
    for declaration in declarations {
        let alias = alias(alloc, declarations, declaration)?;
        print_impls(alloc, out, declaration, declarations, alias.as_str())?;
    }
    Ok(())
}

// What the imports name the variants of an enum by. Several enums of a kind have an alias each.
fn alias(
    alloc: Global,
    declarations: &[Declaration],
    declaration: &Declaration,
) -> Result<String, AllocError> {
    let are_units = declaration.body.are_units();
    let word = if are_units { "variants" } else { "is" };
    let alike = declarations
        .iter()
        .filter(|it| it.body.is_enum() && it.body.are_units() == are_units);
    if alike.count() == 1 {
        return String::from_str(alloc, word);
    }
    let name = RenameRule::Snake.of_variant(alloc, declaration.name.as_str())?;
    format!(in alloc; "{word}_of_{name}")
}

fn print_enum_import(
    alloc: Global,
    out: &mut String,
    path: &ModulePath,
    declarations: &[Declaration],
    declaration: &Declaration,
) -> Result<(), AllocError> {
    let ModulePath { krate, inside, .. } = path;
    let name = declaration.name.as_str();
    let alias = alias(alloc, declarations, declaration)?;
    match declaration.body {
        Body::Units(_) => writeln!(
            out,
            "ghost use Rattle.{krate}.specs.contracts.{inside}{name}.{{enum as {alias}}};"
        ),
        Body::Choices(_) | Body::Tagged(_, _) => writeln!(
            out,
            "ghost use Rattle.{krate}.specs.declared.{inside}{name}.TheVariants as {alias};"
        ),
        _ => Ok(()),
    }
}
