ghost use Rattle.std.specs.Prelude.{codes};
ghost use Rattle.std.proofs.Common.{refl};
ghost use Rattle.dynamo_record.specs.Newtypes.{about_unit_struct, unit_struct_by_shape, unit_struct_reads};

use dynamo_record::read_unit_struct;
use serde_dynamo::Shaped;
use serde_dynamo::de::{Deserialize, Deserializer, Error};
use serde_dynamo::ser::{Serialize, Serializer};
use std::alloc::Global;

/// The mark of a sealed thing: a unit struct.
#[derive(Clone, Copy, Debug)]
pub struct Sealed;

impl Serialize for Sealed {
    ghost tells = { (about_unit_struct (codes "Sealed") (λ _ _. refl)).tells };

    fn serialize<S: Serializer>(&self, serializer: S) -> Result<S::Ok, S::Error> {
        serializer.serialize_unit_struct("Sealed")
    }
}

impl Deserialize for Sealed {
    ghost reads = { unit_struct_reads (codes "Sealed") };

    fn deserialize<D: Deserializer>(alloc: Global, deserializer: D) -> Result<Sealed, D::Error> {
        read_unit_struct(alloc, deserializer, "Sealed")?;
        Ok(Sealed)
    }
}

impl Shaped for Sealed {
    ghost about = { about_unit_struct (codes "Sealed") (λ _ _. refl) };

    ghost as_told = { refl };

    ghost reads_by_shape = { unit_struct_by_shape (codes "Sealed") };

    fn absent<E: Error>(_alloc: Global) -> Result<Option<Sealed>, E> {
        Ok(None)
    }

    fn conforms(&self) {}
}
