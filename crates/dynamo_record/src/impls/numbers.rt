ghost use Rattle.std.proofs.Common.{refl};
ghost use Rattle.dynamo_value.specs.Integer as integers;
ghost use Rattle.dynamo_shape.proofs.Scalars.{bool_permitted, signed_permitted, unsigned_permitted};
ghost use Rattle.dynamo_record.specs.About.{about_bool, about_signed, about_unsigned};
ghost use Rattle.dynamo_record.specs.Keys.{own_key, key_bool, key_signed, key_unsigned};

use crate::{Shaped, ShapedKey};
use dynamo_de::Error;
use std::alloc::Global;

impl Shaped for bool {
    ghost about = { about_bool };

    ghost as_told = { refl };

    ghost reads_by_shape = { bool_permitted };

    fn absent<E: Error>(_alloc: Global) -> Result<Option<bool>, E> {
        Ok(None)
    }

    fn conforms(&self) {}
}

impl ShapedKey for bool {
    ghost about_key = { key_bool };

    ghost is_key = { own_key key_bool };
}

impl Shaped for i8 {
    ghost about = { about_signed integers.i8 };

    ghost as_told = { refl };

    ghost reads_by_shape = { signed_permitted integers.i8 };

    fn absent<E: Error>(_alloc: Global) -> Result<Option<i8>, E> {
        Ok(None)
    }

    fn conforms(&self) {
        let _number = *self;
    }
}

impl ShapedKey for i8 {
    ghost about_key = { key_signed integers.i8 };

    ghost is_key = { own_key (key_signed integers.i8) };
}

impl Shaped for i16 {
    ghost about = { about_signed integers.i16 };

    ghost as_told = { refl };

    ghost reads_by_shape = { signed_permitted integers.i16 };

    fn absent<E: Error>(_alloc: Global) -> Result<Option<i16>, E> {
        Ok(None)
    }

    fn conforms(&self) {
        let _number = *self;
    }
}

impl ShapedKey for i16 {
    ghost about_key = { key_signed integers.i16 };

    ghost is_key = { own_key (key_signed integers.i16) };
}

impl Shaped for i32 {
    ghost about = { about_signed integers.i32 };

    ghost as_told = { refl };

    ghost reads_by_shape = { signed_permitted integers.i32 };

    fn absent<E: Error>(_alloc: Global) -> Result<Option<i32>, E> {
        Ok(None)
    }

    fn conforms(&self) {
        let _number = *self;
    }
}

impl ShapedKey for i32 {
    ghost about_key = { key_signed integers.i32 };

    ghost is_key = { own_key (key_signed integers.i32) };
}

impl Shaped for i64 {
    ghost about = { about_signed integers.i64 };

    ghost as_told = { refl };

    ghost reads_by_shape = { signed_permitted integers.i64 };

    fn absent<E: Error>(_alloc: Global) -> Result<Option<i64>, E> {
        Ok(None)
    }

    fn conforms(&self) {
        let _number = *self;
    }
}

impl ShapedKey for i64 {
    ghost about_key = { key_signed integers.i64 };

    ghost is_key = { own_key (key_signed integers.i64) };
}

impl Shaped for i128 {
    ghost about = { about_signed integers.i128 };

    ghost as_told = { refl };

    ghost reads_by_shape = { signed_permitted integers.i128 };

    fn absent<E: Error>(_alloc: Global) -> Result<Option<i128>, E> {
        Ok(None)
    }

    fn conforms(&self) {
        let _number = *self;
    }
}

impl ShapedKey for i128 {
    ghost about_key = { key_signed integers.i128 };

    ghost is_key = { own_key (key_signed integers.i128) };
}

impl Shaped for u8 {
    ghost about = { about_unsigned integers.u8 };

    ghost as_told = { refl };

    ghost reads_by_shape = { unsigned_permitted integers.u8 };

    fn absent<E: Error>(_alloc: Global) -> Result<Option<u8>, E> {
        Ok(None)
    }

    fn conforms(&self) {
        let _number = *self;
    }
}

impl ShapedKey for u8 {
    ghost about_key = { key_unsigned integers.u8 };

    ghost is_key = { own_key (key_unsigned integers.u8) };
}

impl Shaped for u16 {
    ghost about = { about_unsigned integers.u16 };

    ghost as_told = { refl };

    ghost reads_by_shape = { unsigned_permitted integers.u16 };

    fn absent<E: Error>(_alloc: Global) -> Result<Option<u16>, E> {
        Ok(None)
    }

    fn conforms(&self) {
        let _number = *self;
    }
}

impl ShapedKey for u16 {
    ghost about_key = { key_unsigned integers.u16 };

    ghost is_key = { own_key (key_unsigned integers.u16) };
}

impl Shaped for u32 {
    ghost about = { about_unsigned integers.u32 };

    ghost as_told = { refl };

    ghost reads_by_shape = { unsigned_permitted integers.u32 };

    fn absent<E: Error>(_alloc: Global) -> Result<Option<u32>, E> {
        Ok(None)
    }

    fn conforms(&self) {
        let _number = *self;
    }
}

impl ShapedKey for u32 {
    ghost about_key = { key_unsigned integers.u32 };

    ghost is_key = { own_key (key_unsigned integers.u32) };
}

impl Shaped for u64 {
    ghost about = { about_unsigned integers.u64 };

    ghost as_told = { refl };

    ghost reads_by_shape = { unsigned_permitted integers.u64 };

    fn absent<E: Error>(_alloc: Global) -> Result<Option<u64>, E> {
        Ok(None)
    }

    fn conforms(&self) {
        let _number = *self;
    }
}

impl ShapedKey for u64 {
    ghost about_key = { key_unsigned integers.u64 };

    ghost is_key = { own_key (key_unsigned integers.u64) };
}

impl Shaped for u128 {
    ghost about = { about_unsigned integers.u128 };

    ghost as_told = { refl };

    ghost reads_by_shape = { unsigned_permitted integers.u128 };

    fn absent<E: Error>(_alloc: Global) -> Result<Option<u128>, E> {
        Ok(None)
    }

    fn conforms(&self) {
        let _number = *self;
    }
}

impl ShapedKey for u128 {
    ghost about_key = { key_unsigned integers.u128 };

    ghost is_key = { own_key (key_unsigned integers.u128) };
}
