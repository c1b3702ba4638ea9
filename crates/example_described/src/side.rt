ghost use Rattle.std.specs.Prelude.{[], ◌∷◌, codes};
ghost use Rattle.std.proofs.Common.{refl};
ghost use Rattle.dynamo_record.specs.Keys.{own_key};
ghost use Rattle.dynamo_record.specs.UnitEnums.{units_of, about_units, key_units, unit_enum_tells, unit_enum_reads};
ghost use Rattle.example_described.specs.contracts.side.Side.{enum as variants};

use dynamo_record::{UnitEnum, conform_unit_enum, read_unit_enum, variant_at, write_unit_enum};
use serde_dynamo::de::{Deserialize, Deserializer, Error};
use serde_dynamo::ser::{Serialize, Serializer};
use serde_dynamo::{Shaped, ShapedKey};
use std::alloc::Global;

/// A side of a table, by which maps are keyed.
#[derive(Clone, Copy, Debug, PartialEq, Eq, PartialOrd, Ord, Hash)]
pub enum Side {
    Left,
    Right,
}

impl UnitEnum for Side {
    ghost about = { units_of variants (codes "Side") (codes "Left" ∷ codes "Right" ∷ []) refl };

    fn name() -> &'static str {
        "Side"
    }

    fn expecting() -> &'static str {
        "enum Side"
    }

    fn names() -> &'static [&'static str] {
        &["Left", "Right"]
    }

    fn number(&self) -> u32 {
        *self as u32
    }

    fn variant(number: usize) -> Option<Side> {
        variant_at(&[Side::Left, Side::Right], number)
    }
}

impl Serialize for Side {
    ghost tells = { unit_enum_tells ⟦<Side as UnitEnum>⟧.about };

    fn serialize<S: Serializer>(&self, serializer: S) -> Result<S::Ok, S::Error> {
        write_unit_enum(self, serializer)
    }
}

impl Deserialize for Side {
    ghost reads = { unit_enum_reads ⟦<Side as UnitEnum>⟧.about };

    fn deserialize<D: Deserializer>(alloc: Global, deserializer: D) -> Result<Side, D::Error> {
        read_unit_enum(alloc, deserializer)
    }
}

impl Shaped for Side {
    ghost about = { about_units ⟦<Side as UnitEnum>⟧.about };

    ghost as_told = { refl };

    ghost reads_by_shape = { λ _ _ h. h };

    fn absent<E: Error>(_alloc: Global) -> Result<Option<Side>, E> {
        Ok(None)
    }

    fn conforms(&self) {
        conform_unit_enum(self);
    }
}

impl ShapedKey for Side {
    ghost about_key = { key_units ⟦<Side as UnitEnum>⟧.about };

    ghost is_key = { own_key _ };
}
