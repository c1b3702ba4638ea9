ghost use Rattle.std.specs.Prelude.{List, Result};
ghost use Rattle.dynamo_value.specs.Fault.{Fault};
ghost use Rattle.dynamo_de.specs.Access.{RequiredElement};
ghost use Rattle.dynamo_de.specs.Answer.{After};
ghost use Rattle.dynamo_de.specs.Meets.{Meets};
ghost use Rattle.dynamo_de.specs.Reading.{taken_from, read_elements};
ghost use Rattle.dynamo_de.specs.Reads.{ReadsList, ReadsTwo, ReadsThree, ReadsFour};
ghost use Rattle.dynamo_de.specs.Source.{Source};
ghost use Rattle.dynamo_de.specs.Visitors.{claims_seq, take_elements};

use crate::reader_access::ReaderSeqAccess;
use crate::taken::elements_of;
use crate::{Deserialize, Deserializer, Error, Reader, Request, SeqAccess};
use std::alloc::Global;

/// What is made of the elements of a sequence.
pub(super) trait FromElements: Sized + Drop {
    // What the elements may be read as.
    ghost of_elements: { List Source → Result Self Fault → Type 0 };

    /// What is expected, for an error's message.
    fn expected() -> &'static str;

    fn from_elements<A: SeqAccess>(alloc: Global, seq: A) -> Result<Self, A::Error>
        ensures { Meets A.Error.fault (of_elements (A.left seq)) result };
}

// Reads what is made of the elements of a sequence, which is asked for by this request.
pub(super) fn read_sequence<T: FromElements, R: Reader>(
    alloc: Global,
    request: Request,
    reader: R,
) -> Result<T, R::Error>
    ensures { Meets R.Error.fault
        (After (taken_from claims_seq take_elements request (R.source reader)) T.of_elements)
        result }
{
    let elements = elements_of(alloc, request, reader, T::expected())?;
    T::from_elements(alloc, ReaderSeqAccess::<R>::new(elements))
}

impl<T: Deserialize> FromElements for Vec<T> {
    ghost of_elements = { ReadsList T.reads };

    fn expected() -> &'static str {
        "a sequence"
    }

    #[tactic(auto, using(crate::proofs::Each::each_more, crate::proofs::Each::each_ends, crate::proofs::Each::each_fails))]
    fn from_elements<A: SeqAccess>(alloc: Global, mut seq: A) -> Result<Vec<T>, A::Error> {
        let mut all = Vec::new(alloc);
        while let Some(value) = seq.next_element::<T>(alloc)? {
            if all.push(value).is_err() {
                return Err(A::Error::out_of_memory());
            }
        }
        Ok(all)
    }
}

impl<T: Deserialize> Deserialize for Vec<T> {
    ghost reads = { λ s. After (read_elements s) (ReadsList T.reads) };

    fn deserialize<D: Deserializer>(alloc: Global, deserializer: D) -> Result<Vec<T>, D::Error> {
        read_sequence(alloc, Request::Seq, deserializer)
    }
}

/// The next element, which a tuple has to have.
fn required<T: Deserialize, A: SeqAccess>(alloc: Global, seq: &mut A) -> Result<T, A::Error>
    ensures { RequiredElement A.Error.fault T.reads (A.left seq.old) (A.left seq.new) result }
{
    match seq.next_element(alloc)? {
        Some(element) => Ok(element),
        None => {
            Err(A::Error::custom(alloc, "invalid length: too few elements, expected a tuple"))
        }
    }
}

impl<A: Deserialize, B: Deserialize> FromElements for (A, B) {
    ghost of_elements = { ReadsTwo A.reads B.reads };

    fn expected() -> &'static str {
        "a tuple of 2 elements"
    }

    #[tactic(auto, using(crate::proofs::Each::first_read, crate::proofs::Each::later_fails, crate::proofs::Each::first_fails))]
    fn from_elements<Q: SeqAccess>(alloc: Global, mut seq: Q) -> Result<(A, B), Q::Error> {
        let first = required(alloc, &mut seq)?;
        let second = required(alloc, &mut seq)?;
        Ok((first, second))
    }
}

impl<A: Deserialize, B: Deserialize> Deserialize for (A, B) {
    ghost reads = { λ s. After (read_elements s) (ReadsTwo A.reads B.reads) };

    fn deserialize<Q: Deserializer>(alloc: Global, deserializer: Q) -> Result<(A, B), Q::Error> {
        read_sequence(alloc, Request::Tuple, deserializer)
    }
}

impl<A: Deserialize, B: Deserialize, C: Deserialize> FromElements for (A, B, C) {
    ghost of_elements = { ReadsThree A.reads B.reads C.reads };

    fn expected() -> &'static str {
        "a tuple of 3 elements"
    }

    #[tactic(auto, using(crate::proofs::Each::first_read, crate::proofs::Each::later_fails, crate::proofs::Each::first_fails))]
    fn from_elements<Q: SeqAccess>(alloc: Global, mut seq: Q) -> Result<(A, B, C), Q::Error> {
        let first = required(alloc, &mut seq)?;
        let second = required(alloc, &mut seq)?;
        let third = required(alloc, &mut seq)?;
        Ok((first, second, third))
    }
}

impl<A: Deserialize, B: Deserialize, C: Deserialize> Deserialize for (A, B, C) {
    ghost reads = { λ s. After (read_elements s) (ReadsThree A.reads B.reads C.reads) };

    fn deserialize<Q: Deserializer>(alloc: Global, deserializer: Q) -> Result<(A, B, C), Q::Error> {
        read_sequence(alloc, Request::Tuple, deserializer)
    }
}

impl<A: Deserialize, B: Deserialize, C: Deserialize, D: Deserialize> FromElements for (A, B, C, D) {
    ghost of_elements = { ReadsFour A.reads B.reads C.reads D.reads };

    fn expected() -> &'static str {
        "a tuple of 4 elements"
    }

    #[tactic(auto, using(crate::proofs::Each::first_read, crate::proofs::Each::later_fails, crate::proofs::Each::first_fails))]
    fn from_elements<Q: SeqAccess>(alloc: Global, mut seq: Q) -> Result<(A, B, C, D), Q::Error> {
        let first = required(alloc, &mut seq)?;
        let second = required(alloc, &mut seq)?;
        let third = required(alloc, &mut seq)?;
        let fourth = required(alloc, &mut seq)?;
        Ok((first, second, third, fourth))
    }
}

impl<A: Deserialize, B: Deserialize, C: Deserialize, D: Deserialize> Deserialize for (A, B, C, D) {
    ghost reads = { λ s. After (read_elements s) (ReadsFour A.reads B.reads C.reads D.reads) };

    fn deserialize<Q: Deserializer>(
        alloc: Global,
        deserializer: Q,
    ) -> Result<(A, B, C, D), Q::Error> {
        read_sequence(alloc, Request::Tuple, deserializer)
    }
}
