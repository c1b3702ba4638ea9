//! What [`reread`] and `==` promise of the samples, field by field.
ghost use Rattle.std.specs.Prelude.{◌≡◌, ◌↔◌, Ok, IfOk, MatchResult, IsTrue};
ghost use Rattle.serde_json.specs.View as sj;
ghost use Rattle.dynamo_value.specs.Fault.{out_of_memory};
ghost use Rattle.dynamo_value.specs.Kind.{fault_of};
ghost use Rattle.dynamo_value.specs.View.{view};
ghost use Rattle.dynamo_write.specs.Written.{written};
ghost use Rattle.dynamo_de.specs.Source.{attribute};
ghost use Rattle.dynamo_json.specs.Json.{json_of};
ghost use Rattle.dynamo_shape.specs.ReadsBack.{Permitted};
ghost use Rattle.serde_dynamo.specs.SampleShapes.{user_shape, same_user, event_shape, sets_shape};
ghost use Rattle.serde_dynamo.specs.SampleShapes.{same_sets};
ghost use Rattle.serde_dynamo.specs.Samples.{user_told, event_told, sets_told};

use crate::reread;
use crate::samples::{Event, Sets, User};
use dynamo_value::{AttributeValue, Result};
use serde_json::Value;
use std::alloc::Global;

/// [`reread`] of a user: the struct of its three fields is written, and each field reads back.
///
/// # Errors
///
/// Returns [`ErrorImpl::OutOfMemory`](dynamo_value::ErrorImpl::OutOfMemory) if memory runs out.
pub fn reread_user(alloc: Global, user: &User) -> Result<(AttributeValue, Value, User)>
    ensures written { IfOk result (λ parts. written (user_told user.now) ≡ Ok (view parts.0)) }
    ensures json { IfOk result (λ parts. sj.view parts.1 ≡ json_of (view parts.0)) }
    ensures read { IfOk result
        (λ parts. Permitted user_shape (attribute (view parts.0)) (Ok (user_told parts.2))) }
    ensures back { MatchResult result (λ parts. same_user user.now parts.2)
        (λ e. fault_of e ≡ out_of_memory) }
{
    reread(alloc, user)
}

/// Returns whether two users have equal fields: `==`.
pub fn users_are_equal(user: &User, other: &User) -> bool
    ensures { IsTrue result ↔ same_user user.now other.now }
{
    user == other
}

/// [`reread`] of an event: its variant is written by its name, with its content, and reads back.
///
/// # Errors
///
/// Returns [`ErrorImpl::OutOfMemory`](dynamo_value::ErrorImpl::OutOfMemory) if memory runs out.
pub fn reread_event(alloc: Global, event: &Event) -> Result<(AttributeValue, Value, Event)>
    ensures written { IfOk result (λ parts. written (event_told event.now) ≡ Ok (view parts.0)) }
    ensures json { IfOk result (λ parts. sj.view parts.1 ≡ json_of (view parts.0)) }
    ensures read { IfOk result
        (λ parts. Permitted event_shape (attribute (view parts.0)) (Ok (event_told parts.2))) }
    ensures back { MatchResult result (λ parts. event.now ≡ parts.2)
        (λ e. fault_of e ≡ out_of_memory) }
{
    reread(alloc, event)
}

/// Returns whether two events are the same variant with equal contents: `==`.
pub fn events_are_equal(event: &Event, other: &Event) -> bool
    ensures { IsTrue result ↔ (event.now ≡ other.now) }
{
    event == other
}

/// [`reread`] of three sets: the struct of the sets is written, and each set reads back with its
/// elements in order.
///
/// # Errors
///
/// Returns [`ErrorImpl::OutOfMemory`](dynamo_value::ErrorImpl::OutOfMemory) if memory runs out.
pub fn reread_sets(alloc: Global, sets: &Sets) -> Result<(AttributeValue, Value, Sets)>
    ensures written { IfOk result (λ parts. written (sets_told sets.now) ≡ Ok (view parts.0)) }
    ensures json { IfOk result (λ parts. sj.view parts.1 ≡ json_of (view parts.0)) }
    ensures read { IfOk result
        (λ parts. Permitted sets_shape (attribute (view parts.0)) (Ok (sets_told parts.2))) }
    ensures back { MatchResult result (λ parts. same_sets sets.now parts.2)
        (λ e. fault_of e ≡ out_of_memory) }
{
    reread(alloc, sets)
}

/// Returns whether two structs of sets have equal elements, in order: `==`.
pub fn sets_are_equal(sets: &Sets, other: &Sets) -> bool
    ensures { IsTrue result ↔ same_sets sets.now other.now }
{
    sets == other
}
