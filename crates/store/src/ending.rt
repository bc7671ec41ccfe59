// What format, mount and commit give back: nothing done, refused, or ended after their operations.
ghost use Rattle.std.specs.Prelude.{◌≡◌, List, ℕ, Err};
ghost use Rattle.chip.specs.Counts.{nothing};
ghost use Rattle.store.specs.declared.answer.Refusal.TheVariants.{Cut};
ghost use Rattle.store.specs.EndingCode.{ended_with};
ghost use Rattle.store.specs.Parts.{joined, numbers_off, wrote_with};

use crate::answer::Refusal;
use crate::state;
use crate::state::{Numbers, WroteParts};
use chip::progress::{Counts, Progress};
use chip::{power, progress};

// Nothing done: the numbers are given back as they were.
pub fn quiet(numbers: Numbers, answer: Result<(), Refusal>) -> WroteParts
    ensures { result ≡ record { answer = answer; ops = nothing; numbers = numbers } }
{
    let ops = progress::nothing();
    WroteParts {
        answer,
        ops,
        numbers,
    }
}

// Refused before any operation: the state is off.
pub fn refused(numbers: Numbers, refusal: Refusal) -> WroteParts
    ensures { result ≡ record { answer = Err refusal; ops = nothing; numbers = numbers_off numbers } }
{
    let off = state::turned_off(numbers);
    quiet(off, Err(refusal))
}

// Refused with 10 after these operations: the state is off.
fn cut(numbers: Numbers, ops: Counts) -> WroteParts
    ensures { result ≡ record { answer = Err Cut; ops = ops; numbers = numbers_off numbers } }
{
    let off = state::turned_off(numbers);
    WroteParts {
        answer: Err(Refusal::Cut),
        ops,
        numbers: off,
    }
}

// After operations that came as far as `reached`: all done, the state has the numbers `after`, the node table `new_lens`
// and `new_slots` and the erases `new_erases`; cut, it is the one given, off.
pub fn ended(
    numbers: Numbers,
    lens: &mut [u32; 256],
    slots: &mut [u32; 1024],
    erases: &mut [u64; 32],
    after: Numbers,
    new_lens: &[u32; 256],
    new_slots: &[u32; 1024],
    new_erases: &[u64; 32],
    reached: Progress,
) -> WroteParts
    ensures { (buffer : List ℕ) → wrote_with result buffer lens.new slots.new erases.new
        ≡ ended_with reached (joined numbers buffer lens.old slots.old erases.old)
        (joined after buffer new_lens.now new_slots.now new_erases.now) }
{
    let left = reached.left;
    let ops = reached.done;
    if power::gone(left) {
        return cut(numbers, ops);
    }
    *lens = *new_lens;
    *slots = *new_slots;
    *erases = *new_erases;
    WroteParts {
        answer: Ok(()),
        ops,
        numbers: after,
    }
}
