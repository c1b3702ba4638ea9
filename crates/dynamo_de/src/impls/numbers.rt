ghost use Rattle.std.specs.Prelude.{pos};
ghost use Rattle.dynamo_value.specs.Integer as integers;
ghost use Rattle.dynamo_de.specs.Answer.{Gives};
ghost use Rattle.dynamo_de.specs.Reading.{read_bool, read_integer};

use crate::{Deserialize, Deserializer, Integer, IntegerKind, Request, Showing};
use std::alloc::Global;

impl Deserialize for bool {
    ghost reads = { λ s. Gives (λ b. b) (read_bool s) };

    fn deserialize<D: Deserializer>(alloc: Global, deserializer: D) -> Result<bool, D::Error> {
        match deserializer.surface(Request::Bool)? {
            Showing::Bool(v) => Ok(v),
            other => Err(other.refused(alloc, "a boolean")),
        }
    }
}

impl Deserialize for i8 {
    ghost reads = { λ s. Gives (λ n. n) (read_integer integers.i8 s) };

    #[tactic(auto, using(crate::proofs::Integers::integer_read, crate::proofs::Integers::integer_refused))]
    fn deserialize<D: Deserializer>(alloc: Global, deserializer: D) -> Result<i8, D::Error> {
        match deserializer.show(Request::Integer(IntegerKind::I8))? {
            Showing::Integer(Integer::I8(v)) => Ok(v),
            other => Err(other.refused(alloc, "an integer")),
        }
    }
}

impl Deserialize for i16 {
    ghost reads = { λ s. Gives (λ n. n) (read_integer integers.i16 s) };

    #[tactic(auto, using(crate::proofs::Integers::integer_read, crate::proofs::Integers::integer_refused))]
    fn deserialize<D: Deserializer>(alloc: Global, deserializer: D) -> Result<i16, D::Error> {
        match deserializer.show(Request::Integer(IntegerKind::I16))? {
            Showing::Integer(Integer::I16(v)) => Ok(v),
            other => Err(other.refused(alloc, "an integer")),
        }
    }
}

impl Deserialize for i32 {
    ghost reads = { λ s. Gives (λ n. n) (read_integer integers.i32 s) };

    #[tactic(auto, using(crate::proofs::Integers::integer_read, crate::proofs::Integers::integer_refused))]
    fn deserialize<D: Deserializer>(alloc: Global, deserializer: D) -> Result<i32, D::Error> {
        match deserializer.show(Request::Integer(IntegerKind::I32))? {
            Showing::Integer(Integer::I32(v)) => Ok(v),
            other => Err(other.refused(alloc, "an integer")),
        }
    }
}

impl Deserialize for i64 {
    ghost reads = { λ s. Gives (λ n. n) (read_integer integers.i64 s) };

    #[tactic(auto, using(crate::proofs::Integers::integer_read, crate::proofs::Integers::integer_refused))]
    fn deserialize<D: Deserializer>(alloc: Global, deserializer: D) -> Result<i64, D::Error> {
        match deserializer.show(Request::Integer(IntegerKind::I64))? {
            Showing::Integer(Integer::I64(v)) => Ok(v),
            other => Err(other.refused(alloc, "an integer")),
        }
    }
}

impl Deserialize for i128 {
    ghost reads = { λ s. Gives (λ n. n) (read_integer integers.i128 s) };

    #[tactic(auto, using(crate::proofs::Integers::integer_read, crate::proofs::Integers::integer_refused))]
    fn deserialize<D: Deserializer>(alloc: Global, deserializer: D) -> Result<i128, D::Error> {
        match deserializer.show(Request::Integer(IntegerKind::I128))? {
            Showing::Integer(Integer::I128(v)) => Ok(v),
            other => Err(other.refused(alloc, "an integer")),
        }
    }
}

impl Deserialize for u8 {
    ghost reads = { λ s. Gives pos (read_integer integers.u8 s) };

    #[tactic(auto, using(crate::proofs::Integers::integer_read, crate::proofs::Integers::integer_refused))]
    fn deserialize<D: Deserializer>(alloc: Global, deserializer: D) -> Result<u8, D::Error> {
        match deserializer.show(Request::Integer(IntegerKind::U8))? {
            Showing::Integer(Integer::U8(v)) => Ok(v),
            other => Err(other.refused(alloc, "an integer")),
        }
    }
}

impl Deserialize for u16 {
    ghost reads = { λ s. Gives pos (read_integer integers.u16 s) };

    #[tactic(auto, using(crate::proofs::Integers::integer_read, crate::proofs::Integers::integer_refused))]
    fn deserialize<D: Deserializer>(alloc: Global, deserializer: D) -> Result<u16, D::Error> {
        match deserializer.show(Request::Integer(IntegerKind::U16))? {
            Showing::Integer(Integer::U16(v)) => Ok(v),
            other => Err(other.refused(alloc, "an integer")),
        }
    }
}

impl Deserialize for u32 {
    ghost reads = { λ s. Gives pos (read_integer integers.u32 s) };

    #[tactic(auto, using(crate::proofs::Integers::integer_read, crate::proofs::Integers::integer_refused))]
    fn deserialize<D: Deserializer>(alloc: Global, deserializer: D) -> Result<u32, D::Error> {
        match deserializer.show(Request::Integer(IntegerKind::U32))? {
            Showing::Integer(Integer::U32(v)) => Ok(v),
            other => Err(other.refused(alloc, "an integer")),
        }
    }
}

impl Deserialize for u64 {
    ghost reads = { λ s. Gives pos (read_integer integers.u64 s) };

    #[tactic(auto, using(crate::proofs::Integers::integer_read, crate::proofs::Integers::integer_refused))]
    fn deserialize<D: Deserializer>(alloc: Global, deserializer: D) -> Result<u64, D::Error> {
        match deserializer.show(Request::Integer(IntegerKind::U64))? {
            Showing::Integer(Integer::U64(v)) => Ok(v),
            other => Err(other.refused(alloc, "an integer")),
        }
    }
}

impl Deserialize for u128 {
    ghost reads = { λ s. Gives pos (read_integer integers.u128 s) };

    #[tactic(auto, using(crate::proofs::Integers::integer_read, crate::proofs::Integers::integer_refused))]
    fn deserialize<D: Deserializer>(alloc: Global, deserializer: D) -> Result<u128, D::Error> {
        match deserializer.show(Request::Integer(IntegerKind::U128))? {
            Showing::Integer(Integer::U128(v)) => Ok(v),
            other => Err(other.refused(alloc, "an integer")),
        }
    }
}
