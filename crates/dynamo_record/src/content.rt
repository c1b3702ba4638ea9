ghost use Rattle.std.specs.Prelude.{◌≡◌, ◌⊎◌};
ghost use Rattle.dynamo_value.specs.Fault.{message, out_of_memory};
ghost use Rattle.dynamo_de.specs.Access.{OfContent};
ghost use Rattle.dynamo_de.specs.Answer.{After};
ghost use Rattle.dynamo_de.specs.Meets.{Meets};
ghost use Rattle.dynamo_de.specs.Reading as reading;
ghost use Rattle.dynamo_de.specs.Reading.{taken_from};
ghost use Rattle.dynamo_de.specs.Visitors.{claims_seq, take_elements};
ghost use Rattle.dynamo_record.specs.Contents.{about_nothing, about_one, about_several};
ghost use Rattle.dynamo_record.specs.InOrder.{ReadsInOrder};
ghost use Rattle.dynamo_record.specs.Names.{too_few_text};
ghost use Rattle.dynamo_record.specs.Variants.{about_content};

use crate::{FieldList, FieldType, VariantList};
use dynamo_de::{Error, Reader, Request, VariantAccess, elements_of};
use std::alloc::Global;

/// The content of a unit variant.
#[derive(Clone, Copy)]
pub struct Nothing;

impl VariantList for Nothing {
    ghost about = { about_content about_nothing };

    fn count() -> usize {
        1
    }

    fn read<A: VariantAccess>(
        _place: usize,
        content: A,
        _alloc: Global,
    ) -> Result<Nothing, A::Error> {
        content.unit_variant()?;
        Ok(Nothing)
    }
}

/// The content of a newtype variant: its field.
pub struct One<F: FieldType>(pub F::Value);

impl<F: FieldType> VariantList for One<F> {
    ghost about = { about_content (about_one (λ x. x.0) F.about) };

    fn count() -> usize {
        1
    }

    fn read<A: VariantAccess>(
        _place: usize,
        content: A,
        alloc: Global,
    ) -> Result<One<F>, A::Error> {
        match content.newtype_variant::<F::Value>(alloc) {
            Ok(value) => Ok(One(value)),
            Err(error) => Err(error),
        }
    }
}

/// The content of a tuple variant: its fields.
pub struct Several<L>(pub L);

impl<L: FieldList + Drop> VariantList for Several<L> {
    ghost about = { about_content (about_several (λ x. x.0) L.about) };

    fn count() -> usize {
        1
    }

    fn read<A: VariantAccess>(
        _place: usize,
        content: A,
        alloc: Global,
    ) -> Result<Several<L>, A::Error> {
        match read_several::<L, A>(alloc, content) {
            Ok(fields) => Ok(Several(fields)),
            Err(error) => Err(error),
        }
    }
}

/// The error of a sequence with too few elements.
pub(crate) fn too_few<E: Error>(alloc: Global, expecting: &str) -> E
    ensures { (E.fault result ≡ message (too_few_text expecting.now))
        ⊎ (E.fault result ≡ out_of_memory) }
{
    match format!(in alloc; "invalid length: too few elements, expected {expecting}") {
        Ok(text) => E::custom(alloc, &text),
        Err(_) => E::out_of_memory(),
    }
}

/// Reads the fields one after another.
fn read_elements<L: FieldList + Drop, R: Reader>(
    mut elements: R::Elements,
    alloc: Global,
    expecting: &str,
) -> Result<L, R::Error>
    ensures { Meets R.Error.fault (ReadsInOrder L.about (R.elements elements)) result }
{
    match L::read_in_order::<R>(&mut elements, alloc) {
        Ok(Some(fields)) => Ok(fields),
        Ok(None) => Err(too_few(alloc, expecting)),
        Err(error) => Err(error),
    }
}

/// Asks for a sequence by this request, and reads fields in order.
pub(crate) fn read_fields<L: FieldList + Drop, R: Reader>(
    alloc: Global,
    request: Request,
    reader: R,
    expecting: &str,
) -> Result<L, R::Error>
    ensures { Meets R.Error.fault
        (After (taken_from claims_seq take_elements request (R.source reader))
        (ReadsInOrder L.about)) result }
{
    let elements = elements_of(alloc, request, reader, expecting)?;
    read_elements::<L, R>(elements, alloc, expecting)
}

/// Reads the fields of a tuple variant.
fn read_several<L: FieldList + Drop, A: VariantAccess>(
    alloc: Global,
    content: A,
) -> Result<L, A::Error>
    ensures { Meets A.Error.fault
        (OfContent (λ s. After (reading.read_elements s) (ReadsInOrder L.about))
        (A.content content)) result }
{
    read_fields(alloc, Request::Seq, content.reader()?, "tuple variant")
}
