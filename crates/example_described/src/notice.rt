ghost use Rattle.std.specs.Prelude.{[], ◌∷◌, ◌≡◌, ℕ, Option, MatchResult, codes, refl, string_bytes};
ghost use Rattle.std.specs.declared.alloc.Global.{Global};
ghost use Rattle.std.specs.declared.string.String.{String};
ghost use Rattle.dynamo_value.specs.Fault.{out_of_memory};
ghost use Rattle.dynamo_value.specs.Kind.{fault_of};
ghost use Rattle.dynamo_shape.specs.ByValue.{SameOption};
ghost use Rattle.dynamo_record.specs.Enums.{enum_of, enum_tells, enum_reads, about_enum};
ghost use Rattle.dynamo_record.specs.declared.variant_list.Choice.TheVariants.{Left, Right};
ghost use Rattle.example_described.specs.declared.notice.Notice.TheVariants as is;

use dynamo_record::{
    Choice, Enumeration, Field, Named, NamedFields, Nothing, Omitted, OmittedRef, VariantList,
    named_conform, read_enum, unit_conforms, write_struct, write_unit,
};
use serde_dynamo::de::{Deserialize, Deserializer, Error};
use serde_dynamo::ser::{Serialize, Serializer};
use serde_dynamo::{AttributeValue, Shaped, reread_clear};
use serde_json::Value;
use std::alloc::Global;

/// The state of a ticket of a help desk: an enum with a field that is left out if it is none.
#[derive(Debug, Drop)]
pub enum Notice {
    Closed,
    Answered { by: String, after: Option<u32> },
}

/// The fields of [`Notice::Answered`].
pub struct AnsweredFields;

impl NamedFields for AnsweredFields {
    type Fields = (Field<String>, Field<Omitted<Option<u32>>>);

    ghost names = { codes "by" ∷ codes "after" ∷ [] };

    ghost named = { (refl, refl) };

    fn names() -> &'static [&'static str] {
        &["by", "after"]
    }
}

type NoticeVariants = Choice<Nothing, Named<AnsweredFields>>;

impl Enumeration for Notice {
    type Variants = NoticeVariants;

    ghost about = { enum_of (codes "Notice") (codes "Closed" ∷ codes "Answered" ∷ []) (elim [
      | is.Closed ↦ Left _
      | is.Answered by after ↦ Right (record { 0 = (record { 0 = by }, record { 0 = after }) })
    ]) ⟦<NoticeVariants as VariantList>⟧.about };

    ghost named = { (refl, refl) };

    fn name() -> &'static str {
        "Notice"
    }

    fn expecting() -> &'static str {
        "enum Notice"
    }

    fn names() -> &'static [&'static str] {
        &["Closed", "Answered"]
    }

    fn make(variant: NoticeVariants) -> Notice {
        match variant {
            Choice::Left(Nothing) => Notice::Closed,
            Choice::Right(Named(fields)) => {
                let (Field(by), Field(after)) = fields;
                Notice::Answered { by, after }
            }
        }
    }
}

impl Serialize for Notice {
    ghost tells = { enum_tells ⟦<Notice as Enumeration>⟧.about };

    fn serialize<S: Serializer>(&self, serializer: S) -> Result<S::Ok, S::Error> {
        match self {
            Notice::Closed => write_unit::<Notice, S>(serializer, 0),
            Notice::Answered { by, after } => {
                write_struct::<Notice, AnsweredFields, _, S>(
                    serializer,
                    1,
                    &(by, OmittedRef(after)),
                )
            }
        }
    }
}

impl Deserialize for Notice {
    ghost reads = { enum_reads ⟦<Notice as Enumeration>⟧.about };

    fn deserialize<D: Deserializer>(alloc: Global, deserializer: D) -> Result<Notice, D::Error> {
        read_enum(alloc, deserializer)
    }
}

impl Shaped for Notice {
    ghost about = { about_enum ⟦<Notice as Enumeration>⟧.about (_, (refl, refl)) };

    ghost as_told = { refl };

    ghost reads_by_shape = { λ _ _ h. h };

    fn absent<E: Error>(_alloc: Global) -> Result<Option<Notice>, E> {
        Ok(None)
    }

    fn conforms(&self) {
        match self {
            Notice::Closed => unit_conforms::<Notice>(0),
            Notice::Answered { by, after } => {
                named_conform::<Notice, AnsweredFields, _>(1, &(by, OmittedRef(after)))
            }
        }
    }
}

/// Stores a notice and reads it back. It returns the attribute value, its DynamoDB JSON, and the
/// notice that was read, which is the same variant with the same fields.
///
/// # Errors
///
/// Returns [`OutOfMemory`](serde_dynamo::ErrorImpl::OutOfMemory) alone.
pub fn stored_notice(
    alloc: Global,
    notice: &Notice,
) -> serde_dynamo::Result<(AttributeValue, Value, Notice)>
    ensures closed { notice.now ≡ is.Closed
        → MatchResult result (λ parts. parts.2 ≡ is.Closed) (λ e. fault_of e ≡ out_of_memory) }
    ensures answered { (by : String Global) (after : Option ℕ) → notice.now ≡ is.Answered by after
        → MatchResult result
        (λ parts. elim parts.2 [
          | is.Answered other other_after
              ↦ (string_bytes by ≡ string_bytes other) × SameOption (λ a b. a ≡ b) after other_after
          | _ ↦ ⊥
        ]) (λ e. fault_of e ≡ out_of_memory) }
{
    reread_clear(alloc, notice)
}
