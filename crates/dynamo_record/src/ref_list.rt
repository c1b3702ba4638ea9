ghost use Rattle.std.specs.Prelude.{◌∷◌, map};
ghost use Rattle.dynamo_ser.specs.Datum as datum;
ghost use Rattle.dynamo_ser.specs.Symbols.{symbol, strings, numbers, blobs};
ghost use Rattle.dynamo_shape.specs.Absence.{required};
ghost use Rattle.dynamo_record.specs.Fields.{Defaults};
ghost use Rattle.dynamo_record.specs.Listed.{Shapes, Data};
ghost use Rattle.dynamo_record.specs.Refs.{PutsFields, PutsElements, ConformFront};

use crate::names::first_of;
use crate::{SetValue, Shaped};
use dynamo_ser::{BinarySet, ListBuilder, NumberSet, Serializer, StringSet, StructBuilder};

/// The fields of a value by reference, in the order of its [`FieldList`](crate::FieldList): one
/// reference, or a tuple of two, four or eight lists.
pub trait RefList: Sized {
    // The shapes of the fields, before others.
    ghost shapes: { Shapes → Shapes };

    // Which fields are left out, and for which default, before others. A field that is always
    // written is `required` here, also if it has a default for reading.
    ghost absences: { Defaults → Defaults };

    // The data of the fields, before others.
    ghost told: { Self → Data → Data };

    /// Writes the fields with the first of these names, and returns the other names.
    ///
    /// # Errors
    ///
    /// Returns the first error of a field, or the serializer's error.
    fn write_fields<S: Serializer, B: StructBuilder<S, Ok = S::Ok, Error = S::Error>>(
        &self,
        names: &'static [&'static str],
        builder: &mut B,
    ) -> Result<&'static [&'static str], S::Error>
        ensures { PutsFields B.gives (λ ns. map (λ n. n.now) ns.now) builder.old builder.new
            (map (λ n. n.now) names.now) absences (told self.now) result };

    /// Writes the fields in order.
    ///
    /// # Errors
    ///
    /// Returns the first error of a field, or the serializer's error.
    fn write_elements<S: Serializer, B: ListBuilder<S, Ok = S::Ok, Error = S::Error>>(
        &self,
        builder: &mut B,
    ) -> Result<(), S::Error>
        ensures { PutsElements B.gives builder.old builder.new (told self.now) result };

    /// Promises that each field conforms to its shape.
    fn conform(&self)
        ensures { ConformFront shapes (told self.now) };
}

impl<'a, T: Shaped> RefList for &'a T {
    ghost shapes = { λ ss. T.about.shape ∷ ss };

    ghost absences = { λ gs. required ∷ gs };

    ghost told = { λ value ds. T.about.tells value.now ∷ ds };

    fn write_fields<S: Serializer, B: StructBuilder<S, Ok = S::Ok, Error = S::Error>>(
        &self,
        names: &'static [&'static str],
        builder: &mut B,
    ) -> Result<&'static [&'static str], S::Error> {
        let (name, others) = first_of(names);
        builder.add_field::<T>(name, *self)?;
        Ok(others)
    }

    fn write_elements<S: Serializer, B: ListBuilder<S, Ok = S::Ok, Error = S::Error>>(
        &self,
        builder: &mut B,
    ) -> Result<(), S::Error> {
        builder.add_element::<T>(*self)
    }

    fn conform(&self) {
        (**self).conforms();
    }
}

impl<L: RefList, R: RefList> RefList for (L, R) {
    ghost shapes = { λ ss. L.shapes (R.shapes ss) };

    ghost absences = { λ gs. L.absences (R.absences gs) };

    ghost told = { λ p ds. L.told p.0 (R.told p.1 ds) };

    fn write_fields<S: Serializer, B: StructBuilder<S, Ok = S::Ok, Error = S::Error>>(
        &self,
        names: &'static [&'static str],
        builder: &mut B,
    ) -> Result<&'static [&'static str], S::Error> {
        let others = self.0.write_fields::<S, B>(names, builder)?;
        self.1.write_fields::<S, B>(others, builder)
    }

    fn write_elements<S: Serializer, B: ListBuilder<S, Ok = S::Ok, Error = S::Error>>(
        &self,
        builder: &mut B,
    ) -> Result<(), S::Error> {
        self.0.write_elements::<S, B>(builder)?;
        self.1.write_elements::<S, B>(builder)
    }

    fn conform(&self) {
        self.0.conform();
        self.1.conform();
    }
}

impl<'a, M: SetValue> RefList for StringSet<&'a M> {
    ghost shapes = { λ ss. (M.about_set strings).shape ∷ ss };

    ghost absences = { λ gs. required ∷ gs };

    ghost told = { λ value ds. datum.newtype_struct (symbol strings) (M.about.tells value.0.now)
        ∷ ds };

    fn write_fields<S: Serializer, B: StructBuilder<S, Ok = S::Ok, Error = S::Error>>(
        &self,
        names: &'static [&'static str],
        builder: &mut B,
    ) -> Result<&'static [&'static str], S::Error> {
        let (name, others) = first_of(names);
        builder.add_field::<StringSet<&'a M>>(name, self)?;
        Ok(others)
    }

    fn write_elements<S: Serializer, B: ListBuilder<S, Ok = S::Ok, Error = S::Error>>(
        &self,
        builder: &mut B,
    ) -> Result<(), S::Error> {
        builder.add_element::<StringSet<&'a M>>(self)
    }

    fn conform(&self) {
        self.0.conforms();
    }
}

impl<'a, M: SetValue> RefList for NumberSet<&'a M> {
    ghost shapes = { λ ss. (M.about_set numbers).shape ∷ ss };

    ghost absences = { λ gs. required ∷ gs };

    ghost told = { λ value ds. datum.newtype_struct (symbol numbers) (M.about.tells value.0.now)
        ∷ ds };

    fn write_fields<S: Serializer, B: StructBuilder<S, Ok = S::Ok, Error = S::Error>>(
        &self,
        names: &'static [&'static str],
        builder: &mut B,
    ) -> Result<&'static [&'static str], S::Error> {
        let (name, others) = first_of(names);
        builder.add_field::<NumberSet<&'a M>>(name, self)?;
        Ok(others)
    }

    fn write_elements<S: Serializer, B: ListBuilder<S, Ok = S::Ok, Error = S::Error>>(
        &self,
        builder: &mut B,
    ) -> Result<(), S::Error> {
        builder.add_element::<NumberSet<&'a M>>(self)
    }

    fn conform(&self) {
        self.0.conforms();
    }
}

impl<'a, M: SetValue> RefList for BinarySet<&'a M> {
    ghost shapes = { λ ss. (M.about_set blobs).shape ∷ ss };

    ghost absences = { λ gs. required ∷ gs };

    ghost told = { λ value ds. datum.newtype_struct (symbol blobs) (M.about.tells value.0.now)
        ∷ ds };

    fn write_fields<S: Serializer, B: StructBuilder<S, Ok = S::Ok, Error = S::Error>>(
        &self,
        names: &'static [&'static str],
        builder: &mut B,
    ) -> Result<&'static [&'static str], S::Error> {
        let (name, others) = first_of(names);
        builder.add_field::<BinarySet<&'a M>>(name, self)?;
        Ok(others)
    }

    fn write_elements<S: Serializer, B: ListBuilder<S, Ok = S::Ok, Error = S::Error>>(
        &self,
        builder: &mut B,
    ) -> Result<(), S::Error> {
        builder.add_element::<BinarySet<&'a M>>(self)
    }

    fn conform(&self) {
        self.0.conforms();
    }
}
