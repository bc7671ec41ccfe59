// Rebuild: the tree of an image, thin or not, written anew as one commit into blocks that are wholly free. The image alone is read. 1; 7, 8, 9 as mount gives them; 6 when
// the greatest standing number is the last; 5 when too few blocks are wholly free; 10.
ghost use Rattle.std.specs.Prelude.{List, ℕ};
ghost use Rattle.store.specs.Ensured.{Rebuilds};
ghost use Rattle.store.specs.Parts.{joined, wrote_with};

use crate::answer::Refusal;
use crate::state::{Numbers, State, Wrote, WroteParts};
use crate::{admit, ending, prepare, state};
use chip::geometry::Nand;
use chip::{geometry, progress};
use renewal::renew;
use renewal::renew::Ground;

// Rebuild as the part named, on a lent node table and lent erases, with power for `allowance` operations. The buffer's bytes stay, whatever they are.
pub fn rebuild_lent(
    numbers: Numbers,
    nand: Nand,
    lens: &mut [u32; 256],
    slots: &mut [u32; 1024],
    erases: &mut [u64; 32],
    image: &mut [u8],
    torn: &[u8],
    allowance: u32,
) -> WroteParts
    ensures { (buffer : List ℕ) → Rebuilds nand allowance torn.now (joined numbers buffer lens.old slots.old erases.old)
        image.old (wrote_with result buffer lens.new slots.new erases.new) image.new }
{
    let geometry = geometry::geometry_of(nand);
    let Some(blocks) = admit::sized(geometry, image.len(), torn.len()) else {
        return ending::quiet(numbers, Err(Refusal::Size));
    };
    let mut l = [0; 256];
    let mut s = [0; 1024];
    let mut ring = [0; 32];
    match prepare::prepare(geometry, image, blocks, &mut l, &mut s, &mut ring) {
        Err(refusal) => match refusal {
            Refusal::Last | Refusal::Nodes => ending::quiet(numbers, Err(refusal)),
            _ => ending::refused(numbers, refusal),
        },
        Ok(ready) => {
            let commit = ready.commit;
            let void = ready.void;
            let ground = Ground {
                geometry,
                blocks,
                commit,
                void,
            };
            let start = progress::begin(allowance);
            let mut new_lens = l;
            let mut new_slots = s;
            let mut free = [0; 4];
            let e = [0; 32];
            let reached = renew::renew(
                image,
                &l,
                &s,
                &ring,
                ground,
                torn,
                start,
                &mut new_lens,
                &mut new_slots,
                &mut free,
            );
            let after = Numbers {
                on: true,
                nand,
                blocks,
                commit: commit + 1,
                pending: 0,
                free,
                count: 0,
            };
            ending::ended(
                numbers, lens, slots, erases, after, &new_lens, &new_slots, &e, reached,
            )
        }
    }
}

// Rebuild on a state by value.
pub fn rebuild(state: State, nand: Nand, image: &mut [u8], torn: &[u8], allowance: u32) -> Wrote
    ensures { Rebuilds nand allowance torn.now state image.old result image.new }
{
    let numbers = state::numbers_of(state);
    let mut lens = state.lens;
    let mut slots = state.slots;
    let mut erases = state.erases;
    let parts = rebuild_lent(
        numbers,
        nand,
        &mut lens,
        &mut slots,
        &mut erases,
        image,
        torn,
        allowance,
    );
    state::with_table(state, lens, slots, erases, parts)
}
