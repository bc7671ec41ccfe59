// What a flash operation tells of itself.
ghost use Rattle.std.specs.Prelude.{◌≡◌};
ghost use Rattle.chip.specs.RunCode.{tell_of};

use crate::power;
use crate::power::{Outcome, Power};

// The kinds of operations: a data program, a mark set, an erase.
#[derive(Clone, Copy)]
pub enum Kind {
    Program,
    Mark,
    Erase,
}

// An operation as it was: its kind, what became of it, and the power that it left.
#[derive(Clone, Copy)]
pub struct Operation {
    pub kind: Kind,
    pub outcome: Outcome,
    pub left: Power,
}

// What an operation of this kind under this power tells.
pub fn tell(kind: Kind, power: Power) -> Operation
    ensures { result ≡ tell_of kind power }
{
    Operation {
        kind,
        outcome: power::next(power),
        left: power::spent(power),
    }
}
