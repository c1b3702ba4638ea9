ghost use Rattle.std.specs.Prelude.{[], ◌∷◌};
ghost use Rattle.std.proofs.Common.{ap};
ghost use Rattle.dynamo_ser.specs.Datum as datum;
ghost use Rattle.dynamo_shape.proofs.Lists.{list_permitted};
ghost use Rattle.dynamo_record.specs.About.{list_tells, about_list};
ghost use Rattle.dynamo_record.specs.Tuples.{about_tuple, two_parts, three_parts, four_parts};
ghost use Rattle.dynamo_record.specs.TuplesRead.{part, read_two, read_three, read_four};
ghost use Rattle.dynamo_record.specs.TuplesRead.{tuple_by_shape};

use crate::Shaped;
use dynamo_de::Error;
use std::alloc::Global;

impl<T: Shaped> Shaped for Vec<T> {
    ghost about = { about_list T.about };

    ghost as_told = { ap list_tells T.as_told };

    ghost reads_by_shape = { list_permitted T.about.shape T.about.tells T.reads T.reads_by_shape };

    fn absent<E: Error>(_alloc: Global) -> Result<Option<Vec<T>>, E> {
        Ok(None)
    }

    fn conforms(&self) {
        for value in self {
            value.conforms();
        }
    }
}

impl<A: Shaped, B: Shaped> Shaped for (A, B) {
    ghost about = { about_tuple (two_parts A.about B.about) };

    ghost as_told = { λ i t. datum.tuple
        (datum.elements_of (A.as_told i t.0 ∷ B.as_told i t.1 ∷ [])) };

    ghost reads_by_shape = { tuple_by_shape (read_two (part A.about A.reads A.reads_by_shape)
        (part B.about B.reads B.reads_by_shape)) };

    fn absent<E: Error>(_alloc: Global) -> Result<Option<(A, B)>, E> {
        Ok(None)
    }

    fn conforms(&self) {
        self.0.conforms();
        self.1.conforms();
    }
}

impl<A: Shaped, B: Shaped, C: Shaped> Shaped for (A, B, C) {
    ghost about = { about_tuple (three_parts A.about B.about C.about) };

    ghost as_told = { λ i t. datum.tuple
        (datum.elements_of (A.as_told i t.0 ∷ B.as_told i t.1 ∷ C.as_told i t.2 ∷ [])) };

    ghost reads_by_shape = { tuple_by_shape (read_three (part A.about A.reads A.reads_by_shape)
        (part B.about B.reads B.reads_by_shape)
        (part C.about C.reads C.reads_by_shape)) };

    fn absent<E: Error>(_alloc: Global) -> Result<Option<(A, B, C)>, E> {
        Ok(None)
    }

    fn conforms(&self) {
        self.0.conforms();
        self.1.conforms();
        self.2.conforms();
    }
}

impl<A: Shaped, B: Shaped, C: Shaped, D: Shaped> Shaped for (A, B, C, D) {
    ghost about = { about_tuple (four_parts A.about B.about C.about D.about) };

    ghost as_told = { λ i t. datum.tuple
        (datum.elements_of
        (A.as_told i t.0 ∷ B.as_told i t.1 ∷ C.as_told i t.2 ∷ D.as_told i t.3 ∷ [])) };

    ghost reads_by_shape = { tuple_by_shape (read_four (part A.about A.reads A.reads_by_shape)
        (part B.about B.reads B.reads_by_shape)
        (part C.about C.reads C.reads_by_shape)
        (part D.about D.reads D.reads_by_shape)) };

    fn absent<E: Error>(_alloc: Global) -> Result<Option<(A, B, C, D)>, E> {
        Ok(None)
    }

    fn conforms(&self) {
        self.0.conforms();
        self.1.conforms();
        self.2.conforms();
        self.3.conforms();
    }
}
