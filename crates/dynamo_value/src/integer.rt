ghost use Rattle.std.specs.Prelude.{◌≡◌, MatchResult, string_bytes};
ghost use Rattle.std.specs.Fmt.{signed_decimal};
ghost use Rattle.dynamo_value.specs.IntegerTypes.{number_of, type_of};

use std::alloc::{AllocError, Global};

/// The ten integer types, by their sign and their bits.
#[derive(Clone, Copy, Debug, PartialEq, Eq)]
pub enum IntegerKind {
    /// `i8`.
    I8,
    /// `i16`.
    I16,
    /// `i32`.
    I32,
    /// `i64`.
    I64,
    /// `i128`.
    I128,
    /// `u8`.
    U8,
    /// `u16`.
    U16,
    /// `u32`.
    U32,
    /// `u64`.
    U64,
    /// `u128`.
    U128,
}

/// An integer of one of the ten types.
#[derive(Clone, Copy, Debug, Drop, PartialEq, Eq)]
pub enum Integer {
    /// An `i8`.
    I8(i8),
    /// An `i16`.
    I16(i16),
    /// An `i32`.
    I32(i32),
    /// An `i64`.
    I64(i64),
    /// An `i128`.
    I128(i128),
    /// A `u8`.
    U8(u8),
    /// A `u16`.
    U16(u16),
    /// A `u32`.
    U32(u32),
    /// A `u64`.
    U64(u64),
    /// A `u128`.
    U128(u128),
}

impl Integer {
    /// Returns the type of the integer.
    pub fn kind(self) -> IntegerKind
        ensures { result ≡ type_of self }
    {
        match self {
            Integer::I8(_) => IntegerKind::I8,
            Integer::I16(_) => IntegerKind::I16,
            Integer::I32(_) => IntegerKind::I32,
            Integer::I64(_) => IntegerKind::I64,
            Integer::I128(_) => IntegerKind::I128,
            Integer::U8(_) => IntegerKind::U8,
            Integer::U16(_) => IntegerKind::U16,
            Integer::U32(_) => IntegerKind::U32,
            Integer::U64(_) => IntegerKind::U64,
            Integer::U128(_) => IntegerKind::U128,
        }
    }

    /// Returns the integer's decimal digits, with a `-` before them if it is negative.
    ///
    /// # Errors
    ///
    /// Returns an [`AllocError`] if memory runs out.
    pub fn decimal(self, alloc: Global) -> Result<String, AllocError>
        ensures { MatchResult result (λ text. string_bytes text ≡ signed_decimal (number_of self))
            (λ e. Unit {0}) }
    {
        match self {
            Integer::I8(v) => v.to_string(alloc),
            Integer::I16(v) => v.to_string(alloc),
            Integer::I32(v) => v.to_string(alloc),
            Integer::I64(v) => v.to_string(alloc),
            Integer::I128(v) => v.to_string(alloc),
            Integer::U8(v) => v.to_string(alloc),
            Integer::U16(v) => v.to_string(alloc),
            Integer::U32(v) => v.to_string(alloc),
            Integer::U64(v) => v.to_string(alloc),
            Integer::U128(v) => v.to_string(alloc),
        }
    }
}
