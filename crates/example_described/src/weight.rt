ghost use Rattle.std.specs.Prelude.{codes};
ghost use Rattle.std.proofs.Common.{refl};
ghost use Rattle.dynamo_record.specs.Newtypes.{about_newtype, newtype_by_shape, newtype_reads};

use dynamo_record::{read_newtype, write_newtype};
use serde_dynamo::Shaped;
use serde_dynamo::de::{Deserialize, Deserializer, Error};
use serde_dynamo::ser::{Serialize, Serializer};
use std::alloc::Global;

/// A weight in grams: a newtype.
#[derive(Clone, Copy, Debug)]
pub struct Weight(pub u64);

impl Serialize for Weight {
    ghost tells = { (about_newtype (codes "Weight") (λ w. w.0) ⟦<u64 as Shaped>⟧.about).tells };

    fn serialize<S: Serializer>(&self, serializer: S) -> Result<S::Ok, S::Error> {
        write_newtype("Weight", &self.0, serializer)
    }
}

impl Deserialize for Weight {
    ghost reads = { newtype_reads (codes "Weight") (λ w. w.0) ⟦<u64 as Shaped>⟧.about };

    fn deserialize<D: Deserializer>(alloc: Global, deserializer: D) -> Result<Weight, D::Error> {
        Ok(Weight(read_newtype(alloc, deserializer, "Weight")?))
    }
}

impl Shaped for Weight {
    ghost about = { about_newtype (codes "Weight") (λ w. w.0) ⟦<u64 as Shaped>⟧.about };

    ghost as_told = { refl };

    ghost reads_by_shape = { newtype_by_shape (codes "Weight") (λ w. w.0) ⟦<u64 as Shaped>⟧.about };

    fn absent<E: Error>(_alloc: Global) -> Result<Option<Weight>, E> {
        Ok(None)
    }

    fn conforms(&self) {
        self.0.conforms();
    }
}
