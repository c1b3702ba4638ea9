ghost use Rattle.std.specs.Prelude.{◌≡◌, MatchResult, string_bytes};
ghost use Rattle.dynamo_value.specs.Fault.{out_of_memory};
ghost use Rattle.dynamo_value.specs.Kind.{fault_of};
ghost use Rattle.dynamo_shape.specs.ByValue.{SameEach, SameOption};

use crate::Wide40;
use serde_dynamo::{AttributeValue, reread_clear};
use serde_json::Value;
use std::alloc::Global;

/// What was stored of an account reads back, attribute by attribute.
///
/// # Errors
///
/// [`OutOfMemory`](serde_dynamo::ErrorImpl::OutOfMemory) alone.
pub fn stored_wide_40(
    alloc: Global,
    wide: &Wide40,
) -> serde_dynamo::Result<(AttributeValue, Value, Wide40)>
    ensures id { MatchResult result (λ parts. string_bytes wide.now.id ≡ string_bytes parts.2.id)
        (λ e. fault_of e ≡ out_of_memory) }
    ensures version { MatchResult result (λ parts. wide.now.version ≡ parts.2.version)
        (λ e. fault_of e ≡ out_of_memory) }
    ensures port { MatchResult result (λ parts. wide.now.port ≡ parts.2.port)
        (λ e. fault_of e ≡ out_of_memory) }
    ensures visits { MatchResult result (λ parts. wide.now.visits ≡ parts.2.visits)
        (λ e. fault_of e ≡ out_of_memory) }
    ensures created_at { MatchResult result (λ parts. wide.now.created_at ≡ parts.2.created_at)
        (λ e. fault_of e ≡ out_of_memory) }
    ensures hours_from_utc { MatchResult result
        (λ parts. wide.now.hours_from_utc ≡ parts.2.hours_from_utc)
        (λ e. fault_of e ≡ out_of_memory) }
    ensures altitude { MatchResult result (λ parts. wide.now.altitude ≡ parts.2.altitude)
        (λ e. fault_of e ≡ out_of_memory) }
    ensures balance { MatchResult result (λ parts. wide.now.balance ≡ parts.2.balance)
        (λ e. fault_of e ≡ out_of_memory) }
    ensures last_seen { MatchResult result (λ parts. wide.now.last_seen ≡ parts.2.last_seen)
        (λ e. fault_of e ≡ out_of_memory) }
    ensures is_active { MatchResult result (λ parts. wide.now.is_active ≡ parts.2.is_active)
        (λ e. fault_of e ≡ out_of_memory) }
    ensures nickname { MatchResult result
        (λ parts. SameOption (λ a b. string_bytes a ≡ string_bytes b) wide.now.nickname
        parts.2.nickname) (λ e. fault_of e ≡ out_of_memory) }
    ensures digest { MatchResult result
        (λ parts. SameEach (λ a b. a ≡ b) wide.now.digest.items parts.2.digest.items)
        (λ e. fault_of e ≡ out_of_memory) }
    ensures city { MatchResult result
        (λ parts. string_bytes wide.now.city ≡ string_bytes parts.2.city)
        (λ e. fault_of e ≡ out_of_memory) }
    ensures floor { MatchResult result (λ parts. wide.now.floor ≡ parts.2.floor)
        (λ e. fault_of e ≡ out_of_memory) }
    ensures street_number { MatchResult result
        (λ parts. wide.now.street_number ≡ parts.2.street_number)
        (λ e. fault_of e ≡ out_of_memory) }
    ensures zip { MatchResult result (λ parts. wide.now.zip ≡ parts.2.zip)
        (λ e. fault_of e ≡ out_of_memory) }
    ensures phone { MatchResult result (λ parts. wide.now.phone ≡ parts.2.phone)
        (λ e. fault_of e ≡ out_of_memory) }
    ensures winter_low { MatchResult result (λ parts. wide.now.winter_low ≡ parts.2.winter_low)
        (λ e. fault_of e ≡ out_of_memory) }
    ensures summer_high { MatchResult result (λ parts. wide.now.summer_high ≡ parts.2.summer_high)
        (λ e. fault_of e ≡ out_of_memory) }
    ensures score { MatchResult result (λ parts. wide.now.score ≡ parts.2.score)
        (λ e. fault_of e ≡ out_of_memory) }
    ensures expires_at { MatchResult result (λ parts. wide.now.expires_at ≡ parts.2.expires_at)
        (λ e. fault_of e ≡ out_of_memory) }
    ensures is_verified { MatchResult result (λ parts. wide.now.is_verified ≡ parts.2.is_verified)
        (λ e. fault_of e ≡ out_of_memory) }
    ensures comment { MatchResult result
        (λ parts. SameOption (λ a b. string_bytes a ≡ string_bytes b) wide.now.comment
        parts.2.comment) (λ e. fault_of e ≡ out_of_memory) }
    ensures picture { MatchResult result
        (λ parts. SameEach (λ a b. a ≡ b) wide.now.picture.items parts.2.picture.items)
        (λ e. fault_of e ≡ out_of_memory) }
    ensures country { MatchResult result
        (λ parts. string_bytes wide.now.country ≡ string_bytes parts.2.country)
        (λ e. fault_of e ≡ out_of_memory) }
    ensures age { MatchResult result (λ parts. wide.now.age ≡ parts.2.age)
        (λ e. fault_of e ≡ out_of_memory) }
    ensures height { MatchResult result (λ parts. wide.now.height ≡ parts.2.height)
        (λ e. fault_of e ≡ out_of_memory) }
    ensures weight { MatchResult result (λ parts. wide.now.weight ≡ parts.2.weight)
        (λ e. fault_of e ≡ out_of_memory) }
    ensures updated_at { MatchResult result (λ parts. wide.now.updated_at ≡ parts.2.updated_at)
        (λ e. fault_of e ≡ out_of_memory) }
    ensures chess_rating { MatchResult result
        (λ parts. wide.now.chess_rating ≡ parts.2.chess_rating) (λ e. fault_of e ≡ out_of_memory) }
    ensures longitude { MatchResult result (λ parts. wide.now.longitude ≡ parts.2.longitude)
        (λ e. fault_of e ≡ out_of_memory) }
    ensures latitude { MatchResult result (λ parts. wide.now.latitude ≡ parts.2.latitude)
        (λ e. fault_of e ≡ out_of_memory) }
    ensures deleted_at { MatchResult result (λ parts. wide.now.deleted_at ≡ parts.2.deleted_at)
        (λ e. fault_of e ≡ out_of_memory) }
    ensures is_public { MatchResult result (λ parts. wide.now.is_public ≡ parts.2.is_public)
        (λ e. fault_of e ≡ out_of_memory) }
    ensures referrer { MatchResult result
        (λ parts. SameOption (λ a b. string_bytes a ≡ string_bytes b) wide.now.referrer
        parts.2.referrer) (λ e. fault_of e ≡ out_of_memory) }
    ensures signature { MatchResult result
        (λ parts. SameEach (λ a b. a ≡ b) wide.now.signature.items parts.2.signature.items)
        (λ e. fault_of e ≡ out_of_memory) }
    ensures language { MatchResult result
        (λ parts. string_bytes wide.now.language ≡ string_bytes parts.2.language)
        (λ e. fault_of e ≡ out_of_memory) }
    ensures level { MatchResult result (λ parts. wide.now.level ≡ parts.2.level)
        (λ e. fault_of e ≡ out_of_memory) }
    ensures rank { MatchResult result (λ parts. wide.now.rank ≡ parts.2.rank)
        (λ e. fault_of e ≡ out_of_memory) }
    ensures points { MatchResult result (λ parts. wide.now.points ≡ parts.2.points)
        (λ e. fault_of e ≡ out_of_memory) }
{
    reread_clear(alloc, wide)
}
