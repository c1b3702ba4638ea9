//! Strings of numbers: std's `parse` reads just the integers and the floats that the grammar names.

ghost use Rattle.std.specs.Prelude.{◌≡◌, option_map, pos};
ghost use Rattle.std.specs.Result.{result_ok};
ghost use Rattle.dynamo_value.specs.Integer.{i8, i16, i32, i64, i128, u8, u16, u32, u64, u128};
ghost use Rattle.dynamo_value.specs.IntegerTypes.{kind_of};
ghost use Rattle.dynamo_de.specs.Number.{parse, is_float_text as is_float};
ghost use Rattle.dynamo_de.specs.Showing as showing;
ghost use Rattle.dynamo_de.specs.Showing.{integer_showing};

use crate::{Integer, IntegerKind};
use std::num::ParseIntError;

/// Returns the integer of this type that a string holds. It allocates nothing.
///
/// The string is an optional `+`, or for a signed type an optional `+` or `-`, and then at least
/// one digit, with a value that the type holds.
///
/// # Errors
///
/// Returns the error of std's `parse` for any other string.
pub fn read_integer(kind: IntegerKind, text: &str) -> Result<Integer, ParseIntError>
    ensures { option_map integer_showing (result_ok result)
        ≡ option_map (showing.integer (kind_of kind)) (parse (kind_of kind) text.now) }
{
    match kind {
        IntegerKind::I8 => parse_i8(text).map(Integer::I8),
        IntegerKind::I16 => parse_i16(text).map(Integer::I16),
        IntegerKind::I32 => parse_i32(text).map(Integer::I32),
        IntegerKind::I64 => parse_i64(text).map(Integer::I64),
        IntegerKind::I128 => parse_i128(text).map(Integer::I128),
        IntegerKind::U8 => parse_u8(text).map(Integer::U8),
        IntegerKind::U16 => parse_u16(text).map(Integer::U16),
        IntegerKind::U32 => parse_u32(text).map(Integer::U32),
        IntegerKind::U64 => parse_u64(text).map(Integer::U64),
        IntegerKind::U128 => parse_u128(text).map(Integer::U128),
    }
}

#[tactic(auto, using(crate::proofs::Numbers::reads_i8))]
fn parse_i8(text: &str) -> Result<i8, ParseIntError>
    ensures { result_ok result ≡ parse i8 text.now }
{
    text.parse::<i8>()
}

#[tactic(auto, using(crate::proofs::Numbers::reads_i16))]
fn parse_i16(text: &str) -> Result<i16, ParseIntError>
    ensures { result_ok result ≡ parse i16 text.now }
{
    text.parse::<i16>()
}

#[tactic(auto, using(crate::proofs::Numbers::reads_i32))]
fn parse_i32(text: &str) -> Result<i32, ParseIntError>
    ensures { result_ok result ≡ parse i32 text.now }
{
    text.parse::<i32>()
}

/// Returns the `i64` that a string holds, as [`read_integer`] does.
///
/// # Errors
///
/// Returns the error of std's `parse` for any other string.
#[inline]
#[tactic(auto, using(crate::proofs::Numbers::reads_i64))]
pub fn parse_i64(text: &str) -> Result<i64, ParseIntError>
    ensures { result_ok result ≡ parse i64 text.now }
{
    text.parse::<i64>()
}

#[tactic(auto, using(crate::proofs::Numbers::reads_i128))]
fn parse_i128(text: &str) -> Result<i128, ParseIntError>
    ensures { result_ok result ≡ parse i128 text.now }
{
    text.parse::<i128>()
}

#[tactic(auto, using(crate::proofs::Numbers::reads_u8))]
fn parse_u8(text: &str) -> Result<u8, ParseIntError>
    ensures { option_map pos (result_ok result) ≡ parse u8 text.now }
{
    text.parse::<u8>()
}

#[tactic(auto, using(crate::proofs::Numbers::reads_u16))]
fn parse_u16(text: &str) -> Result<u16, ParseIntError>
    ensures { option_map pos (result_ok result) ≡ parse u16 text.now }
{
    text.parse::<u16>()
}

#[tactic(auto, using(crate::proofs::Numbers::reads_u32))]
fn parse_u32(text: &str) -> Result<u32, ParseIntError>
    ensures { option_map pos (result_ok result) ≡ parse u32 text.now }
{
    text.parse::<u32>()
}

/// Returns the `u64` that a string holds, as [`read_integer`] does.
///
/// # Errors
///
/// Returns the error of std's `parse` for any other string.
#[inline]
#[tactic(auto, using(crate::proofs::Numbers::reads_u64))]
pub fn parse_u64(text: &str) -> Result<u64, ParseIntError>
    ensures { option_map pos (result_ok result) ≡ parse u64 text.now }
{
    text.parse::<u64>()
}

#[tactic(auto, using(crate::proofs::Numbers::reads_u128))]
fn parse_u128(text: &str) -> Result<u128, ParseIntError>
    ensures { option_map pos (result_ok result) ≡ parse u128 text.now }
{
    text.parse::<u128>()
}

/// Returns whether the string is a float's. It allocates nothing.
///
/// A float may begin with `+` or `-`. Then follows `inf`, `infinity` or `nan` in any case, or a
/// number: decimal digits, at least one, with at most one point before, between or after them. A
/// number may end with an exponent: `e` or `E`, an optional `+` or `-`, and at least one digit.
/// Nothing else is allowed: no blanks, no underscores and no prefix as `0x`. The size of the number
/// doesn't matter: one that is too large for any float is a float as well.
///
/// # Examples
///
/// ```rust
/// use serde_dynamo::is_float_text;
///
/// assert!(rt; is_float_text("-1.5e3") && is_float_text(".5") && is_float_text("NaN"));
/// assert!(rt; is_float_text("1e999"));
/// assert!(rt; !is_float_text("1_000") && !is_float_text("0x10") && !is_float_text(""));
/// ```
#[tactic(auto, using(crate::proofs::Floats::reads_float))]
pub fn is_float_text(text: &str) -> bool
    ensures { result ≡ is_float text.now }
{
    text.parse::<f64>().is_ok()
}
