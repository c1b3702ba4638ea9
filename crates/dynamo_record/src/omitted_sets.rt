//! References to sets that are left out of an item if they are empty. DynamoDB has no empty set.
ghost use Rattle.std.specs.Prelude.{◌∷◌};
ghost use Rattle.dynamo_ser.specs.Datum as datum;
ghost use Rattle.dynamo_ser.specs.Symbols.{symbol, strings, numbers, blobs};
ghost use Rattle.dynamo_shape.specs.Absence.{left_out};
ghost use Rattle.dynamo_record.specs.FieldTypes.{empty_set};

use crate::names::first_of;
use crate::{OmittedRef, RefList, SetValue};
use dynamo_ser::{BinarySet, ListBuilder, NumberSet, Serializer, StringSet, StructBuilder};

impl<'a, M: SetValue> RefList for OmittedRef<StringSet<&'a M>> {
    ghost shapes = { λ ss. (M.about_set strings).shape ∷ ss };

    ghost absences = { λ gs. left_out (empty_set strings) ∷ gs };

    ghost told = { λ value ds. datum.newtype_struct (symbol strings) (M.about.tells value.0.0.now)
        ∷ ds };

    fn write_fields<S: Serializer, B: StructBuilder<S, Ok = S::Ok, Error = S::Error>>(
        &self,
        names: &'static [&'static str],
        builder: &mut B,
    ) -> Result<&'static [&'static str], S::Error> {
        let (name, others) = first_of(names);
        if !self.0.0.has_no_elements() {
            builder.add_field::<StringSet<&'a M>>(name, &self.0)?;
        }
        Ok(others)
    }

    fn write_elements<S: Serializer, B: ListBuilder<S, Ok = S::Ok, Error = S::Error>>(
        &self,
        builder: &mut B,
    ) -> Result<(), S::Error> {
        builder.add_element::<StringSet<&'a M>>(&self.0)
    }

    fn conform(&self) {
        self.0.0.conforms();
    }
}

impl<'a, M: SetValue> RefList for OmittedRef<NumberSet<&'a M>> {
    ghost shapes = { λ ss. (M.about_set numbers).shape ∷ ss };

    ghost absences = { λ gs. left_out (empty_set numbers) ∷ gs };

    ghost told = { λ value ds. datum.newtype_struct (symbol numbers) (M.about.tells value.0.0.now)
        ∷ ds };

    fn write_fields<S: Serializer, B: StructBuilder<S, Ok = S::Ok, Error = S::Error>>(
        &self,
        names: &'static [&'static str],
        builder: &mut B,
    ) -> Result<&'static [&'static str], S::Error> {
        let (name, others) = first_of(names);
        if !self.0.0.has_no_elements() {
            builder.add_field::<NumberSet<&'a M>>(name, &self.0)?;
        }
        Ok(others)
    }

    fn write_elements<S: Serializer, B: ListBuilder<S, Ok = S::Ok, Error = S::Error>>(
        &self,
        builder: &mut B,
    ) -> Result<(), S::Error> {
        builder.add_element::<NumberSet<&'a M>>(&self.0)
    }

    fn conform(&self) {
        self.0.0.conforms();
    }
}

impl<'a, M: SetValue> RefList for OmittedRef<BinarySet<&'a M>> {
    ghost shapes = { λ ss. (M.about_set blobs).shape ∷ ss };

    ghost absences = { λ gs. left_out (empty_set blobs) ∷ gs };

    ghost told = { λ value ds. datum.newtype_struct (symbol blobs) (M.about.tells value.0.0.now)
        ∷ ds };

    fn write_fields<S: Serializer, B: StructBuilder<S, Ok = S::Ok, Error = S::Error>>(
        &self,
        names: &'static [&'static str],
        builder: &mut B,
    ) -> Result<&'static [&'static str], S::Error> {
        let (name, others) = first_of(names);
        if !self.0.0.has_no_elements() {
            builder.add_field::<BinarySet<&'a M>>(name, &self.0)?;
        }
        Ok(others)
    }

    fn write_elements<S: Serializer, B: ListBuilder<S, Ok = S::Ok, Error = S::Error>>(
        &self,
        builder: &mut B,
    ) -> Result<(), S::Error> {
        builder.add_element::<BinarySet<&'a M>>(&self.0)
    }

    fn conform(&self) {
        self.0.0.conforms();
    }
}
