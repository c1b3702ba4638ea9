//! References to four and to eight lists, in the order of the fields' lists.
use crate::RefList;
use dynamo_ser::{ListBuilder, Serializer, StructBuilder};

impl<A: RefList, B: RefList, C: RefList, D: RefList> RefList for (A, B, C, D) {
    ghost shapes = { λ ss. A.shapes (B.shapes (C.shapes (D.shapes ss))) };

    ghost absences = { λ gs. A.absences (B.absences (C.absences (D.absences gs))) };

    ghost told = { λ p ds. A.told p.0 (B.told p.1 (C.told p.2 (D.told p.3 ds))) };

    fn write_fields<S: Serializer, Q: StructBuilder<S, Ok = S::Ok, Error = S::Error>>(
        &self,
        names: &'static [&'static str],
        builder: &mut Q,
    ) -> Result<&'static [&'static str], S::Error> {
        let names = self.0.write_fields::<S, Q>(names, builder)?;
        let names = self.1.write_fields::<S, Q>(names, builder)?;
        let names = self.2.write_fields::<S, Q>(names, builder)?;
        self.3.write_fields::<S, Q>(names, builder)
    }

    fn write_elements<S: Serializer, Q: ListBuilder<S, Ok = S::Ok, Error = S::Error>>(
        &self,
        builder: &mut Q,
    ) -> Result<(), S::Error> {
        self.0.write_elements::<S, Q>(builder)?;
        self.1.write_elements::<S, Q>(builder)?;
        self.2.write_elements::<S, Q>(builder)?;
        self.3.write_elements::<S, Q>(builder)
    }

    fn conform(&self) {
        self.0.conform();
        self.1.conform();
        self.2.conform();
        self.3.conform();
    }
}

impl<
    A: RefList,
    B: RefList,
    C: RefList,
    D: RefList,
    E: RefList,
    F: RefList,
    G: RefList,
    H: RefList,
> RefList for (A, B, C, D, E, F, G, H) {
    ghost shapes = { λ ss. A.shapes
        (B.shapes (C.shapes (D.shapes (E.shapes (F.shapes (G.shapes (H.shapes ss))))))) };

    ghost absences = { λ gs. A.absences
        (B.absences
        (C.absences (D.absences (E.absences (F.absences (G.absences (H.absences gs))))))) };

    ghost told = { λ p ds. A.told p.0
        (B.told p.1
        (C.told p.2 (D.told p.3 (E.told p.4 (F.told p.5 (G.told p.6 (H.told p.7 ds))))))) };

    fn write_fields<S: Serializer, Q: StructBuilder<S, Ok = S::Ok, Error = S::Error>>(
        &self,
        names: &'static [&'static str],
        builder: &mut Q,
    ) -> Result<&'static [&'static str], S::Error> {
        let names = self.0.write_fields::<S, Q>(names, builder)?;
        let names = self.1.write_fields::<S, Q>(names, builder)?;
        let names = self.2.write_fields::<S, Q>(names, builder)?;
        let names = self.3.write_fields::<S, Q>(names, builder)?;
        let names = self.4.write_fields::<S, Q>(names, builder)?;
        let names = self.5.write_fields::<S, Q>(names, builder)?;
        let names = self.6.write_fields::<S, Q>(names, builder)?;
        self.7.write_fields::<S, Q>(names, builder)
    }

    fn write_elements<S: Serializer, Q: ListBuilder<S, Ok = S::Ok, Error = S::Error>>(
        &self,
        builder: &mut Q,
    ) -> Result<(), S::Error> {
        self.0.write_elements::<S, Q>(builder)?;
        self.1.write_elements::<S, Q>(builder)?;
        self.2.write_elements::<S, Q>(builder)?;
        self.3.write_elements::<S, Q>(builder)?;
        self.4.write_elements::<S, Q>(builder)?;
        self.5.write_elements::<S, Q>(builder)?;
        self.6.write_elements::<S, Q>(builder)?;
        self.7.write_elements::<S, Q>(builder)
    }

    fn conform(&self) {
        self.0.conform();
        self.1.conform();
        self.2.conform();
        self.3.conform();
        self.4.conform();
        self.5.conform();
        self.6.conform();
        self.7.conform();
    }
}
