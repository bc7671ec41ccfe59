// How far a call has come, by what its operations told.
ghost use Rattle.std.specs.Prelude.{◌≡◌};
ghost use Rattle.chip.specs.Counts.{nothing};
ghost use Rattle.chip.specs.RunCode.{at_start, counted, progressed};

use crate::operation::{Kind, Operation};
use crate::power::{Outcome, Power};

// Data programs, marks set, erases.
#[derive(Clone, Copy)]
pub struct Counts {
    pub programs: u32,
    pub marks: u32,
    pub erases: u32,
}

// The power that is left, and the operations done whole.
#[derive(Clone, Copy)]
pub struct Progress {
    pub left: Power,
    pub done: Counts,
}

// No operation.
pub fn nothing() -> Counts
    ensures { result ≡ nothing }
{
    Counts {
        programs: 0,
        marks: 0,
        erases: 0,
    }
}

// No operation done, and power for `allowance` of them.
pub fn begin(allowance: u32) -> Progress
    ensures { result ≡ at_start allowance }
{
    Progress {
        left: Power::Left(allowance),
        done: nothing(),
    }
}

// One more of its kind. Counts wrap at 2^32, which no allowance reaches.
fn count(counts: Counts, kind: Kind) -> Counts
    ensures { result ≡ counted kind counts }
{
    match kind {
        Kind::Program => Counts {
            programs: counts.programs.wrapping_add(1),
            ..counts
        },
        Kind::Mark => Counts {
            marks: counts.marks.wrapping_add(1),
            ..counts
        },
        Kind::Erase => Counts {
            erases: counts.erases.wrapping_add(1),
            ..counts
        },
    }
}

// After one more operation: it is counted if it was done whole.
pub fn after(done: Counts, operation: Operation) -> Progress
    ensures { result ≡ progressed done operation }
{
    let done = match operation.outcome {
        Outcome::Whole => count(done, operation.kind),
        Outcome::Torn | Outcome::Nothing => done,
    };
    Progress {
        left: operation.left,
        done,
    }
}
