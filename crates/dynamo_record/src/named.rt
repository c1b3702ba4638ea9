ghost use Rattle.std.specs.Prelude.{◌≡◌, [], codes, map, true, length};
ghost use Rattle.dynamo_de.specs.Access.{OfContent};
ghost use Rattle.dynamo_de.specs.Answer.{After};
ghost use Rattle.dynamo_de.specs.Reading.{read_entries};
ghost use Rattle.dynamo_de.specs.Visitors.{by_name};
ghost use Rattle.dynamo_de.specs.Meets.{Meets};
ghost use Rattle.dynamo_record.specs.Contents.{about_named};
ghost use Rattle.dynamo_record.specs.Names.{Names, differ};
ghost use Rattle.dynamo_record.specs.Records.{record_of, listed, FromParts, AsLong};
ghost use Rattle.dynamo_record.specs.Variants.{about_content};

use crate::record::read_by_name;
use crate::{FieldList, Record, VariantList};
use dynamo_de::VariantAccess;
use std::alloc::Global;

/// The fields of a struct variant, by their description.
pub trait NamedFields {
    /// The types of the fields, as `(Field<String>, Field<u8>)`.
    type Fields: FieldList + Drop;

    // The names of the fields.
    ghost names: { Names };

    /// Returns the names of the fields, as they are stored.
    fn names() -> &'static [&'static str]
        ensures { map (λ n. n.now) result.now ≡ names };

    // No two fields have the same name, and each has one.
    ghost named: { (differ names ≡ true) × (length names ≡ length (Self.Fields.about.shapes [])) };
}

/// The content of a struct variant: its fields.
#[derive(Drop)]
pub struct Named<N: NamedFields>(pub N::Fields);

impl<N: NamedFields> Record for Named<N> {
    type Fields = N::Fields;

    ghost about = { record_of (codes "variant") N.names (λ v. v.0) N.Fields.about };

    ghost named = { N.named };

    fn name() -> &'static str {
        "variant"
    }

    fn expecting() -> &'static str {
        "struct variant"
    }

    fn names() -> &'static [&'static str] {
        N::names()
    }

    fn make(fields: N::Fields) -> Named<N> {
        Named(fields)
    }
}

/// Reads the content of a struct variant as the struct of these fields.
fn read_named<R: Record, A: VariantAccess>(alloc: Global, content: A) -> Result<R, A::Error>
where
    R::Fields: FieldList,
    requires { AsLong R.about R.Fields.about }
    ensures { Meets A.Error.fault
        (OfContent
        (λ s. After (read_entries s) (λ es. FromParts (listed R.about R.Fields.about) (by_name es)))
        (A.content content)) result }
{
    read_by_name(alloc, content.reader()?)
}

impl<N: NamedFields> VariantList for Named<N> {
    ghost about = { about_content (about_named N.names (λ v. v.0) N.Fields.about) };

    fn count() -> usize {
        1
    }

    fn read<A: VariantAccess>(
        _place: usize,
        content: A,
        alloc: Global,
    ) -> Result<Named<N>, A::Error> {
        read_named::<Named<N>, A>(alloc, content)
    }
}
