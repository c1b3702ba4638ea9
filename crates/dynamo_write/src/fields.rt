ghost use Rattle.std.specs.Prelude.{◌≡◌, ◌++◌, ◌∷◌, [], min, MatchResult, OnOk, vec_capacity};
ghost use Rattle.dynamo_value.specs.Fault.{out_of_memory};
ghost use Rattle.dynamo_value.specs.Kind.{fault_of};

use dynamo_value::Result;
use std::alloc::AllocError;

// For how many fields the first makes room at most, whatever number is expected.
const MOST: usize = 64;

/// Pushes a field of a struct. The first makes room for as many as are expected, and for 64 at
/// most.
#[inline(always)]
pub(crate) fn push<V: Drop>(
    fields: &mut Vec<(&'static str, V)>,
    expected: usize,
    field: (&'static str, V),
) -> Result<()>
    ensures ok { OnOk result (fields.new.items ≡ fields.old.items ++ field.entry ∷ []) }
    ensures err { MatchResult result (λ _. Unit {0})
        (λ e. (fault_of e ≡ out_of_memory) × (fields.new.items ≡ fields.old.items)) }
{
    if fields.capacity() == 0 {
        make_room(fields, expected)?;
    }
    fields.push(field)?;
    Ok(())
}

// Makes room for as many fields as are expected, and for 64 at most. It is called once
// for a struct, so it isn't inlined.
#[inline(never)]
fn make_room<V>(fields: &mut Vec<(&'static str, V)>, expected: usize) -> Result<(), AllocError>
    requires { vec_capacity fields.old ≡ 0 }
    ensures fields { fields.new.items ≡ fields.old.items }
    ensures room { OnOk result (vec_capacity fields.new ≡ min expected 64) }
{
    fields.reserve_exact(expected.min(MOST))
}
