ghost use Rattle.std.proofs.Common.{ap};
ghost use Rattle.dynamo_ser.specs.Options.{option_tells};
ghost use Rattle.dynamo_shape.proofs.Lists.{option_permitted, through_permitted};
ghost use Rattle.dynamo_record.specs.About.{about_option, about_part};

use crate::Shaped;
use dynamo_de::Error;
use std::alloc::Global;

impl<T: Shaped> Shaped for Option<T> {
    ghost about = { about_option T.about };

    ghost as_told = { ap option_tells T.as_told };

    ghost reads_by_shape = { option_permitted T.about.shape T.about.tells T.reads
        T.reads_by_shape };

    fn absent<E: Error>(_alloc: Global) -> Result<Option<Option<T>>, E> {
        Ok(Some(None))
    }

    fn conforms(&self) {
        if let Some(content) = self {
            content.conforms();
        }
    }
}

/// The shape of its content.
impl<T: Shaped> Shaped for Box<T> {
    ghost about = { about_part (λ b. b.value) T.about };

    ghost as_told = { λ i b. T.as_told i b.value };

    ghost reads_by_shape = { through_permitted T.about.shape T.about.tells T.reads (λ b. b.value)
        T.reads_by_shape };

    fn absent<E: Error>(alloc: Global) -> Result<Option<Box<T>>, E> {
        match T::absent(alloc)? {
            Some(content) => match Box::new(alloc, content) {
                Ok(boxed) => Ok(Some(boxed)),
                Err(_) => Err(E::out_of_memory()),
            },
            None => Ok(None),
        }
    }

    fn conforms(&self) {
        (**self).conforms();
    }
}
