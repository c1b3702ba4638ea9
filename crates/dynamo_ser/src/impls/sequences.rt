ghost use Rattle.std.specs.Prelude.{[], ◌∷◌, map};
ghost use Rattle.dynamo_ser.specs.Datum as datum;

use crate::{Serialize, SerializeSeq, SerializeTuple, Serializer};

impl<T: Serialize> Serialize for Vec<T> {
    ghost tells = { λ v. datum.seq (datum.elements_of (map T.tells v.items)) };

    fn serialize<S: Serializer>(&self, serializer: S) -> Result<S::Ok, S::Error> {
        let mut elements = serializer.serialize_seq(Some(self.len()))?;
        for element in self {
            elements.serialize_element(element)?;
        }
        elements.end()
    }
}

impl<A: Serialize, B: Serialize> Serialize for (A, B) {
    ghost tells = { λ t. datum.tuple (datum.elements_of (A.tells t.0 ∷ B.tells t.1 ∷ [])) };

    fn serialize<S: Serializer>(&self, serializer: S) -> Result<S::Ok, S::Error> {
        let mut pair = serializer.serialize_tuple(2)?;
        pair.serialize_element(&self.0)?;
        pair.serialize_element(&self.1)?;
        pair.end()
    }
}

impl<A: Serialize, B: Serialize, C: Serialize> Serialize for (A, B, C) {
    ghost tells = { λ t. datum.tuple
        (datum.elements_of (A.tells t.0 ∷ B.tells t.1 ∷ C.tells t.2 ∷ [])) };

    fn serialize<S: Serializer>(&self, serializer: S) -> Result<S::Ok, S::Error> {
        let mut triple = serializer.serialize_tuple(3)?;
        triple.serialize_element(&self.0)?;
        triple.serialize_element(&self.1)?;
        triple.serialize_element(&self.2)?;
        triple.end()
    }
}

impl<A: Serialize, B: Serialize, C: Serialize, D: Serialize> Serialize for (A, B, C, D) {
    ghost tells = { λ t. datum.tuple
        (datum.elements_of (A.tells t.0 ∷ B.tells t.1 ∷ C.tells t.2 ∷ D.tells t.3 ∷ [])) };

    fn serialize<S: Serializer>(&self, serializer: S) -> Result<S::Ok, S::Error> {
        let mut quadruple = serializer.serialize_tuple(4)?;
        quadruple.serialize_element(&self.0)?;
        quadruple.serialize_element(&self.1)?;
        quadruple.serialize_element(&self.2)?;
        quadruple.serialize_element(&self.3)?;
        quadruple.end()
    }
}
