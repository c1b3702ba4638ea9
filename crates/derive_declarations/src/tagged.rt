use crate::declaration::{Body, Contents, Declaration, Field, Variant};
use crate::failure::{Failure, Reason, refused};

/// Returns the fields of the struct with this name, if it is one of the declarations, has named
/// fields and no type parameters.
pub fn fields_of<'a>(declarations: &'a [Declaration], name: &str) -> Option<&'a [Field]> {
    let found = declarations.iter().find(|it| it.name.as_str() == name)?;
    match &found.body {
        Body::Record(fields) if found.parameters.is_empty() => Some(fields.as_slice()),
        _ => None,
    }
}

// Whether a struct of this name has other names for its fields, or refuses unknown ones.
fn is_by_rules(declarations: &[Declaration], name: &str) -> bool {
    for found in declarations {
        if let Body::Record(fields) = &found.body
            && found.name.as_str() == name
            && (found.denies_unknown || fields.iter().any(|field| !field.aliases.is_empty()))
        {
            return true;
        }
    }
    false
}

/// Checks that each enum with a tag can be described: a newtype variant holds a struct of these
/// declarations, which has no `alias` and no `deny_unknown_fields`, and no field has the name of
/// the tag.
///
/// # Errors
///
/// Returns [`Failure::Refused`] with the line of the enum if it can't.
///
/// Returns [`Failure::Memory`] if memory runs out.
pub fn refuse_tagged(declarations: &[Declaration]) -> Result<(), Failure> {
    for declaration in declarations {
        if let Body::Tagged(tag, variants) = &declaration.body {
            for variant in variants {
                refuse_variant(declarations, tag.as_str(), variant, declaration.line)?;
            }
        }
    }
    Ok(())
}

fn refuse_variant(
    declarations: &[Declaration],
    tag: &str,
    variant: &Variant,
    line: u32,
) -> Result<(), Failure> {
    let fields = match &variant.contents {
        Contents::Nothing => return Ok(()),
        Contents::Named(fields) => fields.as_slice(),
        Contents::Several(_) => {
            let text = "a variant of several fields without names has no place behind a tag";
            return Err(refused(line, text));
        }
        Contents::One(of) if is_by_rules(declarations, of.as_str()) => {
            return Err(Failure::Refused(line, Reason::RulesBehindTag(of.clone()?)));
        }
        Contents::One(of) => match fields_of(declarations, of.as_str()) {
            Some(fields) => fields,
            None => return Err(Failure::Refused(line, Reason::NoStruct(of.clone()?))),
        },
    };
    match fields.iter().find(|field| field.shown.as_str() == tag) {
        Some(field) => {
            let name = field.name.clone()?;
            Err(Failure::Refused(line, Reason::FieldIsTag(name)))
        }
        None => Ok(()),
    }
}
