ghost use Rattle.std.specs.Prelude.{[], ◌∷◌, codes, refl};
ghost use Rattle.dynamo_record.specs.Records.{record_of, record_tells, record_reads, about_record};

use dynamo_record::{Field, FieldList, Record, read_record, record_conforms, write_record};
use serde_dynamo::Shaped;
use serde_dynamo::de::{Deserialize, Deserializer, Error};
use serde_dynamo::ser::{Serialize, Serializer};
use std::alloc::Global;

/// The 40 attributes of an account.
#[derive(Debug, Drop)]
pub struct Wide40 {
    pub id: String,
    pub version: u8,
    pub port: u16,
    pub visits: u32,
    pub created_at: u64,
    pub hours_from_utc: i8,
    pub altitude: i16,
    pub balance: i32,
    pub last_seen: i64,
    pub is_active: bool,
    pub nickname: Option<String>,
    pub digest: Vec<u8>,
    pub city: String,
    pub floor: u8,
    pub street_number: u16,
    pub zip: u32,
    pub phone: u64,
    pub winter_low: i8,
    pub summer_high: i16,
    pub score: i32,
    pub expires_at: i64,
    pub is_verified: bool,
    pub comment: Option<String>,
    pub picture: Vec<u8>,
    pub country: String,
    pub age: u8,
    pub height: u16,
    pub weight: u32,
    pub updated_at: u64,
    pub chess_rating: i8,
    pub longitude: i16,
    pub latitude: i32,
    pub deleted_at: i64,
    pub is_public: bool,
    pub referrer: Option<String>,
    pub signature: Vec<u8>,
    pub language: String,
    pub level: u8,
    pub rank: u16,
    pub points: u32,
}

type Wide40Fields = (
    (
        (Field<String>, Field<u8>),
        Field<u16>,
        Field<u32>,
        Field<u64>,
    ),
    ((Field<i8>, Field<i16>), Field<i32>, Field<i64>, Field<bool>),
    (
        (Field<Option<String>>, Field<Vec<u8>>),
        Field<String>,
        Field<u8>,
        Field<u16>,
    ),
    ((Field<u32>, Field<u64>), Field<i8>, Field<i16>, Field<i32>),
    (
        (Field<i64>, Field<bool>),
        Field<Option<String>>,
        Field<Vec<u8>>,
        Field<String>,
    ),
    ((Field<u8>, Field<u16>), Field<u32>, Field<u64>, Field<i8>),
    (
        (Field<i16>, Field<i32>),
        Field<i64>,
        Field<bool>,
        Field<Option<String>>,
    ),
    (
        (Field<Vec<u8>>, Field<String>),
        Field<u8>,
        Field<u16>,
        Field<u32>,
    ),
);

impl Record for Wide40 {
    type Fields = Wide40Fields;

    ghost about = { record_of (codes "Wide40") (codes "id" ∷ codes "version" ∷ codes "port" ∷ codes "visits" ∷ codes "created_at" ∷ codes "hours_from_utc" ∷ codes "altitude" ∷ codes "balance" ∷ codes "last_seen" ∷ codes "is_active" ∷ codes "nickname" ∷ codes "digest" ∷ codes "city" ∷ codes "floor" ∷ codes "street_number" ∷ codes "zip" ∷ codes "phone" ∷ codes "winter_low" ∷ codes "summer_high" ∷ codes "score" ∷ codes "expires_at" ∷ codes "is_verified" ∷ codes "comment" ∷ codes "picture" ∷ codes "country" ∷ codes "age" ∷ codes "height" ∷ codes "weight" ∷ codes "updated_at" ∷ codes "chess_rating" ∷ codes "longitude" ∷ codes "latitude" ∷ codes "deleted_at" ∷ codes "is_public" ∷ codes "referrer" ∷ codes "signature" ∷ codes "language" ∷ codes "level" ∷ codes "rank" ∷ codes "points" ∷ []) (λ s. (((record { 0 = s.id }, record { 0 = s.version }), record { 0 = s.port }, record { 0 = s.visits }, record { 0 = s.created_at }), ((record { 0 = s.hours_from_utc }, record { 0 = s.altitude }), record { 0 = s.balance }, record { 0 = s.last_seen }, record { 0 = s.is_active }), ((record { 0 = s.nickname }, record { 0 = s.digest }), record { 0 = s.city }, record { 0 = s.floor }, record { 0 = s.street_number }), ((record { 0 = s.zip }, record { 0 = s.phone }), record { 0 = s.winter_low }, record { 0 = s.summer_high }, record { 0 = s.score }), ((record { 0 = s.expires_at }, record { 0 = s.is_verified }), record { 0 = s.comment }, record { 0 = s.picture }, record { 0 = s.country }), ((record { 0 = s.age }, record { 0 = s.height }), record { 0 = s.weight }, record { 0 = s.updated_at }, record { 0 = s.chess_rating }), ((record { 0 = s.longitude }, record { 0 = s.latitude }), record { 0 = s.deleted_at }, record { 0 = s.is_public }, record { 0 = s.referrer }), ((record { 0 = s.signature }, record { 0 = s.language }), record { 0 = s.level }, record { 0 = s.rank }, record { 0 = s.points }))) ⟦<Wide40Fields as FieldList>⟧.about };

    ghost named = { (refl, refl) };

    fn name() -> &'static str {
        "Wide40"
    }

    fn expecting() -> &'static str {
        "struct Wide40"
    }

    fn names() -> &'static [&'static str] {
        &[
            "id",
            "version",
            "port",
            "visits",
            "created_at",
            "hours_from_utc",
            "altitude",
            "balance",
            "last_seen",
            "is_active",
            "nickname",
            "digest",
            "city",
            "floor",
            "street_number",
            "zip",
            "phone",
            "winter_low",
            "summer_high",
            "score",
            "expires_at",
            "is_verified",
            "comment",
            "picture",
            "country",
            "age",
            "height",
            "weight",
            "updated_at",
            "chess_rating",
            "longitude",
            "latitude",
            "deleted_at",
            "is_public",
            "referrer",
            "signature",
            "language",
            "level",
            "rank",
            "points",
        ]
    }

    fn make(fields: Wide40Fields) -> Wide40 {
        let (
            ((Field(id), Field(version)), Field(port), Field(visits), Field(created_at)),
            (
                (Field(hours_from_utc), Field(altitude)),
                Field(balance),
                Field(last_seen),
                Field(is_active),
            ),
            ((Field(nickname), Field(digest)), Field(city), Field(floor), Field(street_number)),
            ((Field(zip), Field(phone)), Field(winter_low), Field(summer_high), Field(score)),
            (
                (Field(expires_at), Field(is_verified)),
                Field(comment),
                Field(picture),
                Field(country),
            ),
            ((Field(age), Field(height)), Field(weight), Field(updated_at), Field(chess_rating)),
            (
                (Field(longitude), Field(latitude)),
                Field(deleted_at),
                Field(is_public),
                Field(referrer),
            ),
            ((Field(signature), Field(language)), Field(level), Field(rank), Field(points)),
        ) = fields;
        Wide40 {
            id,
            version,
            port,
            visits,
            created_at,
            hours_from_utc,
            altitude,
            balance,
            last_seen,
            is_active,
            nickname,
            digest,
            city,
            floor,
            street_number,
            zip,
            phone,
            winter_low,
            summer_high,
            score,
            expires_at,
            is_verified,
            comment,
            picture,
            country,
            age,
            height,
            weight,
            updated_at,
            chess_rating,
            longitude,
            latitude,
            deleted_at,
            is_public,
            referrer,
            signature,
            language,
            level,
            rank,
            points,
        }
    }
}

impl Serialize for Wide40 {
    ghost tells = { record_tells ⟦<Wide40 as Record>⟧.about };

    fn serialize<S: Serializer>(&self, serializer: S) -> Result<S::Ok, S::Error> {
        write_record::<Wide40, _, S>(
            serializer,
            &(
                (
                    (&self.id, &self.version),
                    &self.port,
                    &self.visits,
                    &self.created_at,
                ),
                (
                    (&self.hours_from_utc, &self.altitude),
                    &self.balance,
                    &self.last_seen,
                    &self.is_active,
                ),
                (
                    (&self.nickname, &self.digest),
                    &self.city,
                    &self.floor,
                    &self.street_number,
                ),
                (
                    (&self.zip, &self.phone),
                    &self.winter_low,
                    &self.summer_high,
                    &self.score,
                ),
                (
                    (&self.expires_at, &self.is_verified),
                    &self.comment,
                    &self.picture,
                    &self.country,
                ),
                (
                    (&self.age, &self.height),
                    &self.weight,
                    &self.updated_at,
                    &self.chess_rating,
                ),
                (
                    (&self.longitude, &self.latitude),
                    &self.deleted_at,
                    &self.is_public,
                    &self.referrer,
                ),
                (
                    (&self.signature, &self.language),
                    &self.level,
                    &self.rank,
                    &self.points,
                ),
            ),
        )
    }
}

impl Deserialize for Wide40 {
    ghost reads = { record_reads ⟦<Wide40 as Record>⟧.about };

    fn deserialize<D: Deserializer>(alloc: Global, deserializer: D) -> Result<Wide40, D::Error> {
        read_record(alloc, deserializer)
    }
}

impl Shaped for Wide40 {
    ghost about = { about_record ⟦<Wide40 as Record>⟧.about (refl, refl) };

    ghost as_told = { refl };

    ghost reads_by_shape = { λ _ _ h. h };

    fn absent<E: Error>(_alloc: Global) -> Result<Option<Wide40>, E> {
        Ok(None)
    }

    fn conforms(&self) {
        record_conforms::<Wide40, _>(&(
            (
                (&self.id, &self.version),
                &self.port,
                &self.visits,
                &self.created_at,
            ),
            (
                (&self.hours_from_utc, &self.altitude),
                &self.balance,
                &self.last_seen,
                &self.is_active,
            ),
            (
                (&self.nickname, &self.digest),
                &self.city,
                &self.floor,
                &self.street_number,
            ),
            (
                (&self.zip, &self.phone),
                &self.winter_low,
                &self.summer_high,
                &self.score,
            ),
            (
                (&self.expires_at, &self.is_verified),
                &self.comment,
                &self.picture,
                &self.country,
            ),
            (
                (&self.age, &self.height),
                &self.weight,
                &self.updated_at,
                &self.chess_rating,
            ),
            (
                (&self.longitude, &self.latitude),
                &self.deleted_at,
                &self.is_public,
                &self.referrer,
            ),
            (
                (&self.signature, &self.language),
                &self.level,
                &self.rank,
                &self.points,
            ),
        ))
    }
}
