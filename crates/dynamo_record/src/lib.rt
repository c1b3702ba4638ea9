//! Types with a shape: [`Shaped`], and its implementations for the types of the library and of std.
//!
//! And structs and enums by a description: what to state for a type of your own, so that it keeps
//! the promises of [`Shaped`] without a proof.
//!
//! | Type | Trait | Functions for its impls |
//! |---|---|---|
//! | struct with named fields | [`Record`] | [`write_record`], [`read_record`] |
//! | its other names, and unknown fields | [`RecordRules`] | [`read_record_by_rules`] |
//! | tuple struct | [`TupleStruct`] | [`write_tuple_struct`], [`read_tuple_struct`] |
//! | newtype struct | | [`write_newtype`], [`read_newtype`] |
//! | transparent struct | | [`write_transparent`], [`read_transparent`] |
//! | unit struct | | [`read_unit_struct`] |
//! | enum | [`Enumeration`] | [`write_unit`], [`write_one`] and others, [`read_enum`] |
//! | enum of unit variants | [`UnitEnum`] | [`write_unit_enum`], [`read_unit_enum`] |
//! | internally tagged enum | [`TaggedEnum`] | [`write_tagged_unit`] and others, [`read_tagged`] |
//!
//! A function with `conform` in its name is for `Shaped::conforms`. `dynamo_derive` prints these
//! implementations for a declaration. [`Record`] has a complete example.
#![tactic(auto)]

mod content;
mod default_value;
mod enumeration;
mod field;
mod field_list;
mod flat_lists;
mod flat_refs;
mod held;
mod impls;
mod named;
mod names;
mod newtype;
mod omitted;
mod omitted_sets;
mod record;
mod record_rules;
mod ref_list;
mod set_fields;
mod set_value;
mod shaped;
mod tagged_enum;
mod tagged_list;
mod tuple_struct;
mod unit_enum;
mod unit_struct;
mod variant_list;
mod variant_names;
mod write_enum;
mod write_tagged;

pub use content::{Nothing, One, Several};
pub use default_value::{DefaultValue, WithDefault};
pub use enumeration::{Enumeration, read_enum};
pub use field::{Field, FieldType};
pub use field_list::FieldList;
pub use named::{Named, NamedFields};
pub use newtype::{read_newtype, read_transparent, write_newtype, write_transparent};
pub use omitted::{Omittable, Omitted, OmittedRef};
pub use record::{Record, read_record, record_conforms, write_record};
pub use record_rules::{RecordRules, read_record_by_rules};
pub use ref_list::RefList;
pub use set_fields::{
    AsBinarySet, AsNumberSet, AsSet, AsStringSet, BinaryKind, InBinarySet, InNumberSet,
    InStringSet, KindOfSet, NumberKind, StringKind,
};
pub use set_value::SetValue;
pub use shaped::{Shaped, ShapedKey};
pub use tagged_enum::{TaggedEnum, read_tagged};
pub use tagged_list::{Inner, TaggedList};
pub use tuple_struct::{TupleStruct, read_tuple_struct, tuple_struct_conforms, write_tuple_struct};
pub use unit_enum::{UnitEnum, conform_unit_enum, read_unit_enum, variant_at, write_unit_enum};
pub use unit_struct::read_unit_struct;
pub use variant_list::{Choice, VariantList};
pub use write_enum::{
    named_conform, one_conforms, several_conform, unit_conforms, write_one, write_several,
    write_struct, write_unit,
};
pub use write_tagged::{
    tagged_inner_conforms, tagged_struct_conforms, tagged_unit_conforms, write_tagged_inner,
    write_tagged_struct, write_tagged_unit,
};
