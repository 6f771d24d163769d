// What programs print of the broker: the number of an answer beside its name, "4 Relied"; and (in told) commands and responses in words.
#![tactic(auto)]

pub mod told;

ghost use Rattle.std.specs.Prelude.{Some, ◌++◌, ◌∷◌};
ghost use Rattle.std.specs.Fmt.{decimal};
ghost use Rattle.rules.specs.Refusals.{name_of};

use std::{fmt, str};
use writing::inner::put_name;

// A number of the table of answers and stops.
#[derive(Clone, Copy)]
pub struct Named(pub u64);

impl fmt::Display for Named {
    ghost output = { λ n. Some (decimal n.0 ++ 32 ∷ name_of n.0) };

    fn fmt<W: fmt::Write>(&self, f: &mut fmt::Formatter<W>) -> fmt::Result {
        let number = self.0;
        let mut bytes = [0; 12];
        let end = put_name(&mut bytes, number);
        let Ok(name) = str::from_utf8(&bytes[..end]) else {
            return Err(fmt::Error);
        };
        write!(f, "{number} {name}")
    }
}
