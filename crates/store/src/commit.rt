// Commit: the pending updates written as commit G + 1. 2; 1; 6 when updates are pending and G is the last number; 10.
ghost use Rattle.std.specs.Prelude.{true, length, Ok};
ghost use Rattle.store.specs.AdmitCode.{CommitBegins};
ghost use Rattle.store.specs.Ensured.{Commits};
ghost use Rattle.store.specs.Lent.{CommitsLent};

use crate::answer::Refusal;
use crate::state::{Numbers, State, Wrote, WroteParts};
use crate::{admit, ending, scope, state};
use chip::progress;
use commits::execute;

// A commit on a state that the tests pass: its plan executed, with power for `allowance` operations. The node table and the erases
// are changed where the commit is finished. `all` and `each` show the proof that the slots are 1024 and the figures 32.
fn commit_pending(
    numbers: Numbers,
    lens: &mut [u32; 256],
    slots: &mut [u32; 1024],
    erases: &mut [u64; 32],
    buffer: &[u8; 11520],
    image: &mut [u8],
    torn: &[u8],
    allowance: u32,
) -> WroteParts
    requires { CommitBegins numbers (length image.old) (length torn.now) (Ok true) }
    ensures { CommitsLent allowance torn.now numbers buffer.now lens.old slots.old erases.old
        image.old result lens.new slots.new erases.new image.new }
{
    let basis = scope::basis_of(numbers);
    let start = progress::begin(allowance);
    let mut l = *lens;
    let mut s = *slots;
    let mut f = *erases;
    let all = &slots[..];
    let each = &erases[..];
    let e = execute::execute(
        image, lens, slots, buffer, basis, torn, start, &mut l, &mut s, &mut f,
    );
    let Some(reached) = e else {
        return ending::quiet(numbers, Err(Refusal::Last));
    };
    let mut n = numbers;
    n.commit = numbers.commit + 1;
    n.pending = 0;
    n.count = 0;
    ending::ended(numbers, lens, slots, erases, n, &l, &s, &f, reached)
}

// Commit on lent arrays: the pending updates committed, with power for `allowance` operations.
pub fn commit_lent(
    numbers: Numbers,
    lens: &mut [u32; 256],
    slots: &mut [u32; 1024],
    erases: &mut [u64; 32],
    buffer: &[u8; 11520],
    image: &mut [u8],
    torn: &[u8],
    allowance: u32,
) -> WroteParts
    ensures { CommitsLent allowance torn.now numbers buffer.now lens.old slots.old erases.old
        image.old result lens.new slots.new erases.new image.new }
{
    match admit::commit_begins(numbers, image.len(), torn.len()) {
        Err(refusal) => ending::quiet(numbers, Err(refusal)),
        Ok(false) => ending::quiet(numbers, Ok(())),
        Ok(true) => commit_pending(numbers, lens, slots, erases, buffer, image, torn, allowance),
    }
}

// Commit on a state by value.
pub fn commit(state: State, image: &mut [u8], torn: &[u8], allowance: u32) -> Wrote
    ensures { Commits allowance torn.now state image.old result image.new }
{
    let numbers = state::numbers_of(state);
    let mut lens = state.lens;
    let mut slots = state.slots;
    let mut erases = state.erases;
    let parts = commit_lent(
        numbers,
        &mut lens,
        &mut slots,
        &mut erases,
        &state.buffer,
        image,
        torn,
        allowance,
    );
    state::with_table(state, lens, slots, erases, parts)
}
