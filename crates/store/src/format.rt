// Format: all blocks erased, lowest first, and commit 1 written into the first page of block 0.
ghost use Rattle.std.specs.Prelude.{List, ℕ};
ghost use Rattle.store.specs.Ensured.{Formats};
ghost use Rattle.store.specs.Parts.{joined, wrote_with};

use crate::answer::Refusal;
use crate::state::{Numbers, State, Wrote, WroteParts};
use crate::{admit, ending, state};
use chip::geometry::Nand;
use chip::{geometry, progress};
use journal;
use numbers::set;

// Format as the part named, on a lent node table and lent erases, with power for `allowance` operations: after it the node table has one empty leaf, node 0, on
// page 0, and no block has an erase. The buffer's bytes stay, whatever they are.
pub fn format_lent(
    numbers: Numbers,
    nand: Nand,
    lens: &mut [u32; 256],
    slots: &mut [u32; 1024],
    erases: &mut [u64; 32],
    image: &mut [u8],
    torn: &[u8],
    allowance: u32,
) -> WroteParts
    ensures { (buffer : List ℕ) → Formats nand allowance torn.now (joined numbers buffer lens.old slots.old erases.old)
        image.old (wrote_with result buffer lens.new slots.new erases.new) image.new }
{
    let geometry = geometry::geometry_of(nand);
    let Some(blocks) = admit::sized(geometry, image.len(), torn.len()) else {
        return ending::quiet(numbers, Err(Refusal::Size));
    };
    let start = progress::begin(allowance);
    let reached = journal::format::format(geometry, image, blocks, torn, start);
    let mut l = [0; 256];
    l[0] = 1;
    let s = [0; 1024];
    let e = [0; 32];
    let mut free = [0; 4];
    set::gather(&l, (8 * blocks) as u32, &mut free);
    let fresh = Numbers {
        on: true,
        nand,
        blocks,
        commit: 1,
        pending: 0,
        free,
        count: 0,
    };
    ending::ended(numbers, lens, slots, erases, fresh, &l, &s, &e, reached)
}

// Format on a state by value.
pub fn format(state: State, nand: Nand, image: &mut [u8], torn: &[u8], allowance: u32) -> Wrote
    ensures { Formats nand allowance torn.now state image.old result image.new }
{
    let numbers = state::numbers_of(state);
    let mut lens = state.lens;
    let mut slots = state.slots;
    let mut erases = state.erases;
    let parts = format_lent(
        numbers,
        nand,
        &mut lens,
        &mut slots,
        &mut erases,
        image,
        torn,
        allowance,
    );
    state::with_table(state, lens, slots, erases, parts)
}
