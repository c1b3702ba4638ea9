ghost use Rattle.dynamo_de.specs.Answer.{Gives, After};
ghost use Rattle.dynamo_de.specs.Reading.{read_content, read_unit};
ghost use Rattle.dynamo_de.specs.Reads.{ReadsOption, Through};

use crate::{Deserialize, Deserializer, Error, Request, Showing};
use std::alloc::Global;

impl Deserialize for () {
    ghost reads = { λ s. Gives (λ u. u) (read_unit s) };

    fn deserialize<D: Deserializer>(alloc: Global, deserializer: D) -> Result<(), D::Error> {
        match deserializer.surface(Request::Unit)? {
            Showing::Unit => Ok(()),
            other => Err(other.refused(alloc, "unit")),
        }
    }
}

impl<T: Deserialize> Deserialize for Option<T> {
    ghost reads = { λ s. After (read_content s) (ReadsOption T.reads) };

    fn deserialize<D: Deserializer>(alloc: Global, deserializer: D) -> Result<Option<T>, D::Error> {
        match deserializer.show(Request::Option)? {
            Showing::None | Showing::Unit => Ok(None),
            Showing::Some(content) => Ok(Some(T::deserialize(alloc, content)?)),
            other => Err(other.refused(alloc, "option")),
        }
    }
}

/// What its content reads.
impl<T: Deserialize> Deserialize for Box<T> {
    ghost reads = { λ s. Through (λ b. b.value) (T.reads s) };

    fn deserialize<D: Deserializer>(alloc: Global, deserializer: D) -> Result<Box<T>, D::Error> {
        match Box::new(alloc, T::deserialize(alloc, deserializer)?) {
            Ok(content) => Ok(content),
            Err(_) => Err(D::Error::out_of_memory()),
        }
    }
}
