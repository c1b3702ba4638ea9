ghost use Rattle.std.specs.Prelude.{codes};
ghost use Rattle.std.proofs.Common.{refl};
ghost use Rattle.dynamo_record.specs.Keys.{own_key};
ghost use Rattle.dynamo_record.specs.Newtypes.{about_newtype, key_newtype, newtype_by_shape, newtype_reads};

use dynamo_record::{read_newtype, write_newtype};
use serde_dynamo::de::{Deserialize, Deserializer, Error};
use serde_dynamo::ser::{Serialize, Serializer};
use serde_dynamo::{Shaped, ShapedKey};
use std::alloc::Global;

/// The code of an article: a newtype, by which maps are keyed.
#[derive(Debug, Drop, PartialEq, Eq, PartialOrd, Ord, Hash)]
pub struct Code(pub String);

impl Serialize for Code {
    ghost tells = { (about_newtype (codes "Code") (λ c. c.0) ⟦<String as Shaped>⟧.about).tells };

    fn serialize<S: Serializer>(&self, serializer: S) -> Result<S::Ok, S::Error> {
        write_newtype("Code", &self.0, serializer)
    }
}

impl Deserialize for Code {
    ghost reads = { newtype_reads (codes "Code") (λ c. c.0) ⟦<String as Shaped>⟧.about };

    fn deserialize<D: Deserializer>(alloc: Global, deserializer: D) -> Result<Code, D::Error> {
        Ok(Code(read_newtype(alloc, deserializer, "Code")?))
    }
}

impl Shaped for Code {
    ghost about = { about_newtype (codes "Code") (λ c. c.0) ⟦<String as Shaped>⟧.about };

    ghost as_told = { refl };

    ghost reads_by_shape = { newtype_by_shape (codes "Code") (λ c. c.0) ⟦<String as Shaped>⟧.about };

    fn absent<E: Error>(_alloc: Global) -> Result<Option<Code>, E> {
        Ok(None)
    }

    fn conforms(&self) {
        self.0.conforms();
    }
}

impl ShapedKey for Code {
    ghost about_key = { key_newtype (codes "Code") (λ c. c.0) ⟦<String as ShapedKey>⟧.about_key };

    ghost is_key = { own_key _ };
}
