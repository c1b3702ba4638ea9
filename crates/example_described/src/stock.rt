ghost use Rattle.std.specs.Prelude.{[], ◌∷◌, ◌≡◌, MatchResult, codes, nat_eq, refl, string_bytes};
ghost use Rattle.std.specs.BTreeMap as sorted_map;
ghost use Rattle.std.specs.BTreeSet as sorted;
ghost use Rattle.std.specs.Cmp.Lexicographic.{pointwise};
ghost use Rattle.std.specs.HashSet as hashed;
ghost use Rattle.std.specs.String.{string_cmp};
ghost use Rattle.dynamo_value.specs.Bytes.{octets_of};
ghost use Rattle.dynamo_value.specs.Fault.{out_of_memory};
ghost use Rattle.dynamo_value.specs.Kind.{fault_of};
ghost use Rattle.dynamo_shape.specs.ByValue.{SameEach, SameMap, SameOption, SameSet};
ghost use Rattle.dynamo_record.specs.About.{about_part};
ghost use Rattle.dynamo_record.specs.Keys.{own_key};
ghost use Rattle.dynamo_record.specs.Records.{record_of, record_tells, record_reads, about_record};
ghost use Rattle.dynamo_record.specs.Newtypes.{key_part, part_by_shape, part_reads};

use dynamo_record::{
    AsBinarySet, AsStringSet, Field, FieldList, InNumberSet, Record, read_record, read_transparent,
    record_conforms, write_record, write_transparent,
};
use serde_dynamo::de::{Deserialize, Deserializer, Error};
use serde_dynamo::ser::{Serialize, Serializer};
use serde_dynamo::{
    AttributeValue, BinarySet, ByteBuf, NumberSet, Shaped, ShapedKey, StringSet, reread_clear,
};
use serde_json::Value;
use std::alloc::Global;
use std::collections::{BTreeMap, BTreeSet, HashSet};

/// The code of an article: a transparent newtype, which is stored as its field is.
#[derive(Debug, PartialEq, Eq, PartialOrd, Ord, Hash, Drop)]
pub struct Sku(pub String);

/// The number of a bay.
#[derive(Clone, Copy, Debug, PartialEq, Eq, PartialOrd, Ord, Hash)]
pub struct Bay(pub u32);

/// The bytes of a seal.
#[derive(Debug, PartialEq, Eq, PartialOrd, Ord, Hash, Drop)]
pub struct Seal(pub ByteBuf);

/// A remark, which may be missing.
#[derive(Debug, Drop)]
pub struct Remark(pub Option<String>);

/// The stock of a warehouse. It has each kind of set with transparent newtypes as members.
#[derive(Debug, Drop)]
pub struct Stock {
    pub remark: Remark,
    pub skus: BTreeSet<Sku>,
    pub bays: Vec<Bay>,
    pub seals: HashSet<Seal>,
    pub counts: BTreeMap<Sku, u32>,
}

impl Serialize for Sku {
    ghost tells = { (about_part (λ s. s.0) ⟦<String as Shaped>⟧.about).tells };

    fn serialize<S: Serializer>(&self, serializer: S) -> Result<S::Ok, S::Error> {
        write_transparent(&self.0, serializer)
    }
}

impl Deserialize for Sku {
    ghost reads = { part_reads (λ s. s.0) ⟦<String as Shaped>⟧.about };

    fn deserialize<D: Deserializer>(alloc: Global, deserializer: D) -> Result<Sku, D::Error> {
        match read_transparent(alloc, deserializer) {
            Ok(field) => Ok(Sku(field)),
            Err(error) => Err(error),
        }
    }
}

impl Shaped for Sku {
    ghost about = { about_part (λ s. s.0) ⟦<String as Shaped>⟧.about };

    ghost as_told = { refl };

    ghost reads_by_shape = { part_by_shape (λ s. s.0) ⟦<String as Shaped>⟧.about };

    fn absent<E: Error>(alloc: Global) -> Result<Option<Sku>, E> {
        match <String as Shaped>::absent(alloc)? {
            Some(field) => Ok(Some(Sku(field))),
            None => Ok(None),
        }
    }

    fn conforms(&self) {
        self.0.conforms();
    }
}

impl ShapedKey for Sku {
    ghost about_key = { key_part (λ s. s.0) ⟦<String as ShapedKey>⟧.about_key };

    ghost is_key = { own_key _ };
}

impl Serialize for Bay {
    ghost tells = { (about_part (λ b. b.0) ⟦<u32 as Shaped>⟧.about).tells };

    fn serialize<S: Serializer>(&self, serializer: S) -> Result<S::Ok, S::Error> {
        write_transparent(&self.0, serializer)
    }
}

impl Deserialize for Bay {
    ghost reads = { part_reads (λ b. b.0) ⟦<u32 as Shaped>⟧.about };

    fn deserialize<D: Deserializer>(alloc: Global, deserializer: D) -> Result<Bay, D::Error> {
        match read_transparent(alloc, deserializer) {
            Ok(field) => Ok(Bay(field)),
            Err(error) => Err(error),
        }
    }
}

impl Shaped for Bay {
    ghost about = { about_part (λ b. b.0) ⟦<u32 as Shaped>⟧.about };

    ghost as_told = { refl };

    ghost reads_by_shape = { part_by_shape (λ b. b.0) ⟦<u32 as Shaped>⟧.about };

    fn absent<E: Error>(alloc: Global) -> Result<Option<Bay>, E> {
        match <u32 as Shaped>::absent(alloc)? {
            Some(field) => Ok(Some(Bay(field))),
            None => Ok(None),
        }
    }

    fn conforms(&self) {
        self.0.conforms();
    }
}

impl ShapedKey for Bay {
    ghost about_key = { key_part (λ b. b.0) ⟦<u32 as ShapedKey>⟧.about_key };

    ghost is_key = { own_key _ };
}

impl Serialize for Seal {
    ghost tells = { (about_part (λ s. s.0) ⟦<ByteBuf as Shaped>⟧.about).tells };

    fn serialize<S: Serializer>(&self, serializer: S) -> Result<S::Ok, S::Error> {
        write_transparent(&self.0, serializer)
    }
}

impl Deserialize for Seal {
    ghost reads = { part_reads (λ s. s.0) ⟦<ByteBuf as Shaped>⟧.about };

    fn deserialize<D: Deserializer>(alloc: Global, deserializer: D) -> Result<Seal, D::Error> {
        match read_transparent(alloc, deserializer) {
            Ok(field) => Ok(Seal(field)),
            Err(error) => Err(error),
        }
    }
}

impl Shaped for Seal {
    ghost about = { about_part (λ s. s.0) ⟦<ByteBuf as Shaped>⟧.about };

    ghost as_told = { refl };

    ghost reads_by_shape = { part_by_shape (λ s. s.0) ⟦<ByteBuf as Shaped>⟧.about };

    fn absent<E: Error>(alloc: Global) -> Result<Option<Seal>, E> {
        match <ByteBuf as Shaped>::absent(alloc)? {
            Some(field) => Ok(Some(Seal(field))),
            None => Ok(None),
        }
    }

    fn conforms(&self) {
        self.0.conforms();
    }
}

impl ShapedKey for Seal {
    ghost about_key = { key_part (λ s. s.0) ⟦<ByteBuf as ShapedKey>⟧.about_key };

    ghost is_key = { own_key _ };
}

impl Serialize for Remark {
    ghost tells = { (about_part (λ r. r.0) ⟦<Option<String> as Shaped>⟧.about).tells };

    fn serialize<S: Serializer>(&self, serializer: S) -> Result<S::Ok, S::Error> {
        write_transparent(&self.0, serializer)
    }
}

impl Deserialize for Remark {
    ghost reads = { part_reads (λ r. r.0) ⟦<Option<String> as Shaped>⟧.about };

    fn deserialize<D: Deserializer>(alloc: Global, deserializer: D) -> Result<Remark, D::Error> {
        match read_transparent(alloc, deserializer) {
            Ok(field) => Ok(Remark(field)),
            Err(error) => Err(error),
        }
    }
}

impl Shaped for Remark {
    ghost about = { about_part (λ r. r.0) ⟦<Option<String> as Shaped>⟧.about };

    ghost as_told = { refl };

    ghost reads_by_shape = { part_by_shape (λ r. r.0) ⟦<Option<String> as Shaped>⟧.about };

    fn absent<E: Error>(alloc: Global) -> Result<Option<Remark>, E> {
        match <Option<String> as Shaped>::absent(alloc)? {
            Some(field) => Ok(Some(Remark(field))),
            None => Ok(None),
        }
    }

    fn conforms(&self) {
        self.0.conforms();
    }
}

type StockFields = (
    (Field<Remark>, Field<AsStringSet<BTreeSet<Sku>>>),
    Field<InNumberSet<Bay>>,
    Field<AsBinarySet<HashSet<Seal>>>,
    Field<BTreeMap<Sku, u32>>,
);

impl Record for Stock {
    type Fields = StockFields;

    ghost about = { record_of (codes "Stock") (codes "remark" ∷ codes "skus" ∷ codes "bays" ∷ codes "seals" ∷ codes "counts" ∷ []) (λ s. ((record { 0 = s.remark }, record { 0 = s.skus }), record { 0 = s.bays }, record { 0 = s.seals }, record { 0 = s.counts })) ⟦<StockFields as FieldList>⟧.about };

    ghost named = { (refl, refl) };

    fn name() -> &'static str {
        "Stock"
    }

    fn expecting() -> &'static str {
        "struct Stock"
    }

    fn names() -> &'static [&'static str] {
        &["remark", "skus", "bays", "seals", "counts"]
    }

    fn make(fields: StockFields) -> Stock {
        let ((Field(remark), Field(skus)), Field(bays), Field(seals), Field(counts)) = fields;
        Stock {
            remark,
            skus,
            bays,
            seals,
            counts,
        }
    }
}

impl Serialize for Stock {
    ghost tells = { record_tells ⟦<Stock as Record>⟧.about };

    fn serialize<S: Serializer>(&self, serializer: S) -> Result<S::Ok, S::Error> {
        write_record::<Stock, _, S>(
            serializer,
            &(
                (&self.remark, StringSet(&self.skus)),
                NumberSet(&self.bays),
                BinarySet(&self.seals),
                &self.counts,
            ),
        )
    }
}

impl Deserialize for Stock {
    ghost reads = { record_reads ⟦<Stock as Record>⟧.about };

    fn deserialize<D: Deserializer>(alloc: Global, deserializer: D) -> Result<Stock, D::Error> {
        read_record(alloc, deserializer)
    }
}

impl Shaped for Stock {
    ghost about = { about_record ⟦<Stock as Record>⟧.about (refl, refl) };

    ghost as_told = { refl };

    ghost reads_by_shape = { λ _ _ h. h };

    fn absent<E: Error>(_alloc: Global) -> Result<Option<Stock>, E> {
        Ok(None)
    }

    fn conforms(&self) {
        record_conforms::<Stock, _>(&(
            (&self.remark, StringSet(&self.skus)),
            NumberSet(&self.bays),
            BinarySet(&self.seals),
            &self.counts,
        ))
    }
}

/// What was stored of the stock reads back: the remark, the members of each set, the bays in order
/// and the count of each article.
///
/// # Errors
///
/// [`OutOfMemory`](serde_dynamo::ErrorImpl::OutOfMemory) alone.
pub fn stored_stock(
    alloc: Global,
    stock: &Stock,
) -> serde_dynamo::Result<(AttributeValue, Value, Stock)>
    ensures remark { MatchResult result
        (λ parts. SameOption (λ a b. string_bytes a ≡ string_bytes b) stock.now.remark.0
        parts.2.remark.0) (λ e. fault_of e ≡ out_of_memory) }
    ensures skus { MatchResult result
        (λ parts. SameSet (sorted.contains (λ a b. string_cmp a.0 b.0)) stock.now.skus parts.2.skus)
        (λ e. fault_of e ≡ out_of_memory) }
    ensures bays { MatchResult result
        (λ parts. SameEach (λ a b. a.0 ≡ b.0) stock.now.bays.items parts.2.bays.items)
        (λ e. fault_of e ≡ out_of_memory) }
    ensures seals { MatchResult result
        (λ parts. SameSet
        (hashed.contains (λ a b. pointwise nat_eq (octets_of a.0) (octets_of b.0)))
        stock.now.seals parts.2.seals) (λ e. fault_of e ≡ out_of_memory) }
    ensures counts { MatchResult result
        (λ parts. SameMap (sorted_map.get (λ a b. string_cmp a.0 b.0)) (λ a b. a ≡ b)
        stock.now.counts parts.2.counts) (λ e. fault_of e ≡ out_of_memory) }
{
    reread_clear(alloc, stock)
}
