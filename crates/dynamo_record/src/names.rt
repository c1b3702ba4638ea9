ghost use Rattle.std.specs.Prelude.{◌≡◌, map, MatchResult};
ghost use Rattle.dynamo_value.specs.Fault.{out_of_memory};
ghost use Rattle.dynamo_de.specs.Source.{Text, key_text};
ghost use Rattle.dynamo_shape.specs.NameRules.{own_name};
ghost use Rattle.dynamo_record.specs.Names.{first_name, other_names, place_of};

use dynamo_de::{Reader, identifier_of};
use std::alloc::Global;

/// The first of some names and the others. Without names it is empty.
pub(crate) fn first_of(names: &'static [&'static str]) -> (&'static str, &'static [&'static str])
    ensures first { result.0.now ≡ first_name (map (λ n. n.now) names.now) }
    ensures others { map (λ n. n.now) result.1.now ≡ other_names (map (λ n. n.now) names.now) }
{
    match names.split_first() {
        Some((first, others)) => (*first, others),
        None => ("", names),
    }
}

/// The index of a name among some names, or their number if it isn't one of them.
pub(crate) fn place_of(names: &'static [&'static str], key: &str) -> usize
    ensures { result ≡ place_of 0 (map (λ n. n.now) names.now) key.now }
{
    for (place, name) in names.iter().enumerate() {
        if key == *name {
            return place;
        }
    }
    names.len()
}

/// The index of a key among some names, or their number if it isn't one of them. A key that the
/// reader lends is compared where it lies.
pub(crate) fn place_of_key<D: Reader>(
    names: &'static [&'static str],
    key: D,
    alloc: Global,
) -> Result<usize, D::Error>
    ensures { (name : Text) → D.source key ≡ key_text name → MatchResult result
        (λ place. place ≡ place_of 0 (map (λ n. n.now) names.now) name)
        (λ e. D.Error.fault e ≡ out_of_memory) }
{
    if let Some(name) = key.text() {
        return Ok(place_of(names, name));
    }
    let name = identifier_of(alloc, key, "field identifier")?;
    Ok(place_of(names, name.as_str()))
}

/// The own name of the field with this other name, or the name itself.
pub(crate) fn own_name<'a>(
    aliases: &'static [(&'static str, &'static str)],
    name: &'a str,
) -> &'a str
    ensures { result.now ≡ own_name (map (λ a. (a.0.now, a.1.now)) aliases.now) name.now }
{
    for alias in aliases {
        if name == alias.0 {
            return alias.1;
        }
    }
    name
}
