ghost use Rattle.std.specs.Prelude.{◌≡◌, ◌⊎◌, map};
ghost use Rattle.dynamo_value.specs.Fault.{message, out_of_memory};
ghost use Rattle.dynamo_record.specs.UnitEnums.{name_at};

use dynamo_de::Error;
use std::alloc::{AllocError, Global};

/// The name with this index, or an empty one after the last.
pub(crate) fn name_at(names: &'static [&'static str], place: usize) -> &'static str
    ensures { result.now ≡ name_at (map (λ n. n.now) names.now) place }
{
    match names.get(place) {
        Some(name) => *name,
        None => "",
    }
}

/// The error of a string that isn't the name of a variant.
pub(crate) fn unknown_variant<E: Error>(
    alloc: Global,
    text: &str,
    names: &'static [&'static str],
) -> E
    ensures { ((text : _) × (E.fault result ≡ message text)) ⊎ (E.fault result ≡ out_of_memory) }
{
    match no_such_name(alloc, "variant", text, names) {
        Ok(refusal) => E::custom(alloc, refusal.as_str()),
        Err(_) => E::out_of_memory(),
    }
}

/// The error of a string that isn't the name of a field.
pub(crate) fn unknown_field<E: Error>(
    alloc: Global,
    text: &str,
    names: &'static [&'static str],
) -> E
    ensures { ((text : _) × (E.fault result ≡ message text)) ⊎ (E.fault result ≡ out_of_memory) }
{
    match no_such_name(alloc, "field", text, names) {
        Ok(refusal) => E::custom(alloc, refusal.as_str()),
        Err(_) => E::out_of_memory(),
    }
}

// The message of these errors, as serde has it.
fn no_such_name(
    alloc: Global,
    kind: &str,
    text: &str,
    names: &'static [&'static str],
) -> Result<String, AllocError> {
    let mut refusal = String::new(alloc);
    refusal.push_str("unknown ")?;
    refusal.push_str(kind)?;
    refusal.push_str(" `")?;
    refusal.push_str(text)?;
    if names.is_empty() {
        refusal.push_str("`, there are no ")?;
        refusal.push_str(kind)?;
        refusal.push_str("s")?;
        return Ok(refusal);
    }
    refusal.push_str("`, expected ")?;
    if names.len() > 2 {
        refusal.push_str("one of ")?;
    }
    for (place, name) in names.iter().enumerate() {
        if place > 0 {
            refusal.push_str(if names.len() == 2 { " or " } else { ", " })?;
        }
        refusal.push_str("`")?;
        refusal.push_str(*name)?;
        refusal.push_str("`")?;
    }
    Ok(refusal)
}
