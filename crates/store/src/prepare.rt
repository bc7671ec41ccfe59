// The tests of a rebuild, which read the image alone: what it means by steps 1 to 6, whether a commit number is left, and whether enough blocks are wholly free.
ghost use Rattle.chip.specs.Geometry.{Fits};
ghost use Rattle.std.specs.Prelude.{length};
ghost use Rattle.store.specs.AdmitCode.{ChipOf};
ghost use Rattle.store.specs.PrepareCode.{Prepares};

use crate::admit::LAST;
use crate::answer::Refusal;
use crate::check;
use crate::check::Meaning;
use chip::geometry::Geometry;
use renewal::blocks;

// All tests in their order, 7, 8, 9, 6 and 5, and what the image means; the node table is read into `lens` and `slots`, the wholly free blocks stand in front of `ring`.
pub fn prepare(
    geometry: Geometry,
    image: &[u8],
    blocks: usize,
    lens: &mut [u32; 256],
    slots: &mut [u32; 1024],
    ring: &mut [u32; 32],
) -> Result<Meaning, Refusal>
    requires { ChipOf geometry blocks (length image.now) × Fits geometry }
    ensures { Prepares geometry image.now lens.new slots.new ring.new result }
{
    let mut free = [0; 4];
    let meaning = check::check(geometry, image, blocks, lens, slots, &mut free)?;
    if meaning.commit >= LAST {
        return Err(Refusal::Last);
    }
    let found = blocks::free_blocks(geometry, image, blocks, ring);
    if found < blocks::needed(blocks) {
        return Err(Refusal::Nodes);
    }
    Ok(meaning)
}
