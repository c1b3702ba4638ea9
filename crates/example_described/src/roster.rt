ghost use Rattle.std.specs.Prelude.{[], ◌∷◌, ◌≡◌, MatchResult, codes, nat_eq, refl, string_bytes};
ghost use Rattle.std.specs.BTreeSet as sorted;
ghost use Rattle.std.specs.Cmp.Lexicographic.{pointwise, slice_cmp};
ghost use Rattle.std.specs.HashSet as hashed;
ghost use Rattle.std.specs.Ordering.{nat_cmp};
ghost use Rattle.std.specs.String.{string_cmp, string_eq};
ghost use Rattle.dynamo_value.specs.Bytes.{octets_of};
ghost use Rattle.dynamo_value.specs.Fault.{out_of_memory};
ghost use Rattle.dynamo_value.specs.Kind.{fault_of};
ghost use Rattle.dynamo_shape.specs.ByValue.{SameSet};
ghost use Rattle.dynamo_record.specs.Records.{record_of, record_tells, record_reads, about_record};

use dynamo_record::{
    AsBinarySet, AsNumberSet, AsStringSet, Field, FieldList, Omitted, OmittedRef, Record,
    WithDefault, read_record, record_conforms, write_record,
};
use serde_dynamo::de::{Deserialize, Deserializer, Error};
use serde_dynamo::ser::{Serialize, Serializer};
use serde_dynamo::{
    AttributeValue, BinarySet, ByteBuf, NumberSet, Shaped, StringSet, reread_clear,
};
use serde_json::Value;
use std::alloc::Global;
use std::collections::{BTreeSet, HashSet};

/// The roster of a shift. It has each kind of set as an ordered and as a hashed set, of which some
/// are left out if they are empty, and a set that is stored as a list.
#[derive(Debug, Drop)]
pub struct Roster {
    pub id: String,
    pub names: BTreeSet<String>,
    pub badges: BTreeSet<u32>,
    pub tokens: BTreeSet<ByteBuf>,
    pub hours: BTreeSet<u8>,
    pub skills: HashSet<String>,
    pub rooms: HashSet<u16>,
    pub seals: HashSet<ByteBuf>,
}

type RosterFields = (
    Field<String>,
    Field<AsStringSet<BTreeSet<String>>>,
    Field<AsNumberSet<BTreeSet<u32>>>,
    Field<Omitted<AsBinarySet<BTreeSet<ByteBuf>>>>,
    Field<BTreeSet<u8>>,
    Field<Omitted<AsStringSet<HashSet<String>>>>,
    Field<WithDefault<AsNumberSet<HashSet<u16>>>>,
    Field<AsBinarySet<HashSet<ByteBuf>>>,
);

impl Record for Roster {
    type Fields = RosterFields;

    ghost about = { record_of (codes "Roster") (codes "id" ∷ codes "names" ∷ codes "badges" ∷ codes "tokens" ∷ codes "hours" ∷ codes "skills" ∷ codes "rooms" ∷ codes "seals" ∷ []) (λ s. (record { 0 = s.id }, record { 0 = s.names }, record { 0 = s.badges }, record { 0 = s.tokens }, record { 0 = s.hours }, record { 0 = s.skills }, record { 0 = s.rooms }, record { 0 = s.seals })) ⟦<RosterFields as FieldList>⟧.about };

    ghost named = { (refl, refl) };

    fn name() -> &'static str {
        "Roster"
    }

    fn expecting() -> &'static str {
        "struct Roster"
    }

    fn names() -> &'static [&'static str] {
        &[
            "id", "names", "badges", "tokens", "hours", "skills", "rooms", "seals",
        ]
    }

    fn make(fields: RosterFields) -> Roster {
        let (
            Field(id),
            Field(names),
            Field(badges),
            Field(tokens),
            Field(hours),
            Field(skills),
            Field(rooms),
            Field(seals),
        ) = fields;
        Roster {
            id,
            names,
            badges,
            tokens,
            hours,
            skills,
            rooms,
            seals,
        }
    }
}

impl Serialize for Roster {
    ghost tells = { record_tells ⟦<Roster as Record>⟧.about };

    fn serialize<S: Serializer>(&self, serializer: S) -> Result<S::Ok, S::Error> {
        write_record::<Roster, _, S>(
            serializer,
            &(
                &self.id,
                StringSet(&self.names),
                NumberSet(&self.badges),
                OmittedRef(BinarySet(&self.tokens)),
                &self.hours,
                OmittedRef(StringSet(&self.skills)),
                NumberSet(&self.rooms),
                BinarySet(&self.seals),
            ),
        )
    }
}

impl Deserialize for Roster {
    ghost reads = { record_reads ⟦<Roster as Record>⟧.about };

    fn deserialize<D: Deserializer>(alloc: Global, deserializer: D) -> Result<Roster, D::Error> {
        read_record(alloc, deserializer)
    }
}

impl Shaped for Roster {
    ghost about = { about_record ⟦<Roster as Record>⟧.about (refl, refl) };

    ghost as_told = { refl };

    ghost reads_by_shape = { λ _ _ h. h };

    fn absent<E: Error>(_alloc: Global) -> Result<Option<Roster>, E> {
        Ok(None)
    }

    fn conforms(&self) {
        record_conforms::<Roster, _>(&(
            &self.id,
            StringSet(&self.names),
            NumberSet(&self.badges),
            OmittedRef(BinarySet(&self.tokens)),
            &self.hours,
            OmittedRef(StringSet(&self.skills)),
            NumberSet(&self.rooms),
            BinarySet(&self.seals),
        ))
    }
}

/// Stores a roster and reads it back. It returns the attribute value, its DynamoDB JSON, and the
/// roster that was read, of which each set has the same members.
///
/// # Errors
///
/// Returns [`OutOfMemory`](serde_dynamo::ErrorImpl::OutOfMemory) alone.
pub fn stored_roster(
    alloc: Global,
    roster: &Roster,
) -> serde_dynamo::Result<(AttributeValue, Value, Roster)>
    ensures id { MatchResult result (λ parts. string_bytes roster.now.id ≡ string_bytes parts.2.id)
        (λ e. fault_of e ≡ out_of_memory) }
    ensures names { MatchResult result
        (λ parts. SameSet (sorted.contains string_cmp) roster.now.names parts.2.names)
        (λ e. fault_of e ≡ out_of_memory) }
    ensures badges { MatchResult result
        (λ parts. SameSet (sorted.contains nat_cmp) roster.now.badges parts.2.badges)
        (λ e. fault_of e ≡ out_of_memory) }
    ensures tokens { MatchResult result
        (λ parts. SameSet (sorted.contains (λ a b. slice_cmp nat_cmp (octets_of a) (octets_of b)))
        roster.now.tokens parts.2.tokens) (λ e. fault_of e ≡ out_of_memory) }
    ensures hours { MatchResult result
        (λ parts. SameSet (sorted.contains nat_cmp) roster.now.hours parts.2.hours)
        (λ e. fault_of e ≡ out_of_memory) }
    ensures skills { MatchResult result
        (λ parts. SameSet (hashed.contains string_eq) roster.now.skills parts.2.skills)
        (λ e. fault_of e ≡ out_of_memory) }
    ensures rooms { MatchResult result
        (λ parts. SameSet (hashed.contains nat_eq) roster.now.rooms parts.2.rooms)
        (λ e. fault_of e ≡ out_of_memory) }
    ensures seals { MatchResult result
        (λ parts. SameSet (hashed.contains (λ a b. pointwise nat_eq (octets_of a) (octets_of b)))
        roster.now.seals parts.2.seals) (λ e. fault_of e ≡ out_of_memory) }
{
    reread_clear(alloc, roster)
}
