ghost use Rattle.std.specs.Prelude.{[], ◌∷◌, ◌≡◌, MatchResult, codes, refl, string_bytes};
ghost use Rattle.std.specs.BTreeMap as sorted;
ghost use Rattle.std.specs.HashMap as hashed;
ghost use Rattle.std.specs.String.{string_cmp, string_eq};
ghost use Rattle.dynamo_value.specs.Fault.{out_of_memory};
ghost use Rattle.dynamo_value.specs.Kind.{fault_of};
ghost use Rattle.dynamo_shape.specs.ByValue.{SameEach, SameMap};
ghost use Rattle.dynamo_record.specs.Records.{record_of, record_tells, record_reads, about_record};

use dynamo_record::{
    Field, FieldList, InNumberSet, InStringSet, Record, WithDefault, read_record, record_conforms,
    write_record,
};
use serde_dynamo::de::{Deserialize, Deserializer, Error};
use serde_dynamo::ser::{Serialize, Serializer};
use serde_dynamo::{AttributeValue, ByteBuf, NumberSet, Shaped, StringSet, reread};
use serde_json::Value;
use std::alloc::Global;
use std::collections::{BTreeMap, HashMap};

/// The settings of a user, each of which has a default.
#[derive(Debug, Drop)]
pub struct Settings {
    pub colors: BTreeMap<String, String>,
    pub volumes: HashMap<String, u8>,
    pub tags: Vec<String>,
    pub channels: Vec<u16>,
    pub span: (u32, char),
    pub picture: Box<ByteBuf>,
}

type SettingsFields = (
    (
        Field<WithDefault<BTreeMap<String, String>>>,
        Field<WithDefault<HashMap<String, u8>>>,
    ),
    (
        Field<WithDefault<InStringSet<String>>>,
        Field<WithDefault<InNumberSet<u16>>>,
    ),
    Field<WithDefault<(u32, char)>>,
    Field<WithDefault<Box<ByteBuf>>>,
);

impl Record for Settings {
    type Fields = SettingsFields;

    ghost about = { record_of (codes "Settings") (codes "colors" ∷ codes "volumes" ∷ codes "tags" ∷ codes "channels" ∷ codes "span" ∷ codes "picture" ∷ []) (λ s. ((record { 0 = s.colors }, record { 0 = s.volumes }), (record { 0 = s.tags }, record { 0 = s.channels }), record { 0 = s.span }, record { 0 = s.picture })) ⟦<SettingsFields as FieldList>⟧.about };

    ghost named = { (refl, refl) };

    fn name() -> &'static str {
        "Settings"
    }

    fn expecting() -> &'static str {
        "struct Settings"
    }

    fn names() -> &'static [&'static str] {
        &["colors", "volumes", "tags", "channels", "span", "picture"]
    }

    fn make(fields: SettingsFields) -> Settings {
        let (
            (Field(colors), Field(volumes)),
            (Field(tags), Field(channels)),
            Field(span),
            Field(picture),
        ) = fields;
        Settings {
            colors,
            volumes,
            tags,
            channels,
            span,
            picture,
        }
    }
}

impl Serialize for Settings {
    ghost tells = { record_tells ⟦<Settings as Record>⟧.about };

    fn serialize<S: Serializer>(&self, serializer: S) -> Result<S::Ok, S::Error> {
        write_record::<Settings, _, S>(
            serializer,
            &(
                (&self.colors, &self.volumes),
                (StringSet(&self.tags), NumberSet(&self.channels)),
                &self.span,
                &self.picture,
            ),
        )
    }
}

impl Deserialize for Settings {
    ghost reads = { record_reads ⟦<Settings as Record>⟧.about };

    fn deserialize<D: Deserializer>(alloc: Global, deserializer: D) -> Result<Settings, D::Error> {
        read_record(alloc, deserializer)
    }
}

impl Shaped for Settings {
    ghost about = { about_record ⟦<Settings as Record>⟧.about (refl, refl) };

    ghost as_told = { refl };

    ghost reads_by_shape = { λ _ _ h. h };

    fn absent<E: Error>(_alloc: Global) -> Result<Option<Settings>, E> {
        Ok(None)
    }

    fn conforms(&self) {
        record_conforms::<Settings, _>(&(
            (&self.colors, &self.volumes),
            (StringSet(&self.tags), NumberSet(&self.channels)),
            &self.span,
            &self.picture,
        ))
    }
}

/// Settings that were stored read back, each by value: the maps as finite maps, and the lists in
/// order.
///
/// # Errors
///
/// [`OutOfMemory`](serde_dynamo::ErrorImpl::OutOfMemory) alone.
pub fn stored_settings(
    alloc: Global,
    settings: &Settings,
) -> serde_dynamo::Result<(AttributeValue, Value, Settings)>
    ensures colors { MatchResult result
        (λ parts. SameMap (sorted.get string_cmp) (λ a b. string_bytes a ≡ string_bytes b)
        settings.now.colors parts.2.colors) (λ e. fault_of e ≡ out_of_memory) }
    ensures volumes { MatchResult result (λ parts. SameMap (hashed.get string_eq) (λ a b. a ≡ b)
        settings.now.volumes parts.2.volumes) (λ e. fault_of e ≡ out_of_memory) }
    ensures tags { MatchResult result (λ parts. SameEach (λ a b. string_bytes a ≡ string_bytes b)
        settings.now.tags.items parts.2.tags.items) (λ e. fault_of e ≡ out_of_memory) }
    ensures channels { MatchResult result (λ parts. SameEach (λ a b. a ≡ b)
        settings.now.channels.items parts.2.channels.items) (λ e. fault_of e ≡ out_of_memory) }
{
    reread(alloc, settings)
}
