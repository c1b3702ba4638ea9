ghost use Rattle.dynamo_ser.specs.Datum as datum;
ghost use Rattle.dynamo_ser.specs.Options.{option_tells, option_wants};

use crate::{Serialize, Serializer};

impl Serialize for () {
    ghost tells = { λ _. datum.unit };

    fn serialize<S: Serializer>(&self, serializer: S) -> Result<S::Ok, S::Error> {
        serializer.serialize_unit()
    }
}

impl<T: Serialize> Serialize for Option<T> {
    ghost tells = { option_tells T.tells };

    ghost wants = { option_wants T.wants };

    fn serialize<S: Serializer>(&self, serializer: S) -> Result<S::Ok, S::Error> {
        match self {
            Some(content) => serializer.serialize_some(content),
            None => serializer.serialize_none(),
        }
    }
}

impl<T: Serialize> Serialize for Box<T> {
    ghost tells = { λ b. T.tells b.value };

    ghost wants = { λ b. T.wants b.value };

    fn serialize<S: Serializer>(&self, serializer: S) -> Result<S::Ok, S::Error> {
        (**self).serialize(serializer)
    }
}

impl<T: Serialize> Serialize for &T {
    ghost tells = { λ r. T.tells r.now };

    ghost wants = { λ r. T.wants r.now };

    fn serialize<S: Serializer>(&self, serializer: S) -> Result<S::Ok, S::Error> {
        (**self).serialize(serializer)
    }
}
