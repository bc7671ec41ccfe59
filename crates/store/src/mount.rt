// Mount: the image alone is read, and a thin tree is turned away; after all checks the void pages get their obsolete mark, lowest place first.
ghost use Rattle.std.specs.Prelude.{List, ℕ};
ghost use Rattle.store.specs.Ensured.{Mounts};
ghost use Rattle.store.specs.Parts.{joined, wrote_with};

use crate::answer::Refusal;
use crate::state::{Numbers, State, Wrote, WroteParts};
use crate::{admit, check, ending, state};
use chip::geometry::Nand;
use chip::{geometry, progress};
use journal;

// Mount as the part named, on a lent node table and lent erases, with power for `allowance` operations. The buffer's bytes stay, whatever they are.
pub fn mount_lent(
    numbers: Numbers,
    nand: Nand,
    lens: &mut [u32; 256],
    slots: &mut [u32; 1024],
    erases: &mut [u64; 32],
    image: &mut [u8],
    torn: &[u8],
    allowance: u32,
) -> WroteParts
    ensures { (buffer : List ℕ) → Mounts nand allowance torn.now (joined numbers buffer lens.old slots.old erases.old)
        image.old (wrote_with result buffer lens.new slots.new erases.new) image.new }
{
    let geometry = geometry::geometry_of(nand);
    let Some(blocks) = admit::sized(geometry, image.len(), torn.len()) else {
        return ending::quiet(numbers, Err(Refusal::Size));
    };
    let mut l = [0; 256];
    let mut s = [0; 1024];
    let e = [0; 32];
    let mut free = [0; 4];
    match check::check(geometry, image, blocks, &mut l, &mut s, &mut free) {
        Err(refusal) => ending::refused(numbers, refusal),
        Ok(meaning) => {
            if meaning.thin {
                return ending::refused(numbers, Refusal::Thin);
            }
            let mounted = Numbers {
                on: true,
                nand,
                blocks,
                commit: meaning.commit,
                pending: 0,
                free,
                count: 0,
            };
            let start = progress::begin(allowance);
            let reached = journal::mount::retire(geometry, image, meaning.void, torn, start);
            ending::ended(numbers, lens, slots, erases, mounted, &l, &s, &e, reached)
        }
    }
}

// Mount on a state by value.
pub fn mount(state: State, nand: Nand, image: &mut [u8], torn: &[u8], allowance: u32) -> Wrote
    ensures { Mounts nand allowance torn.now state image.old result image.new }
{
    let numbers = state::numbers_of(state);
    let mut lens = state.lens;
    let mut slots = state.slots;
    let mut erases = state.erases;
    let parts = mount_lent(
        numbers,
        nand,
        &mut lens,
        &mut slots,
        &mut erases,
        image,
        torn,
        allowance,
    );
    state::with_table(state, lens, slots, erases, parts)
}
