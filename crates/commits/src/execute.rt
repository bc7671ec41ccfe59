// A commit: its plan made from image and state, and carried out.
ghost use Rattle.std.specs.Prelude.{◌≡◌, ◌*◌, ◌<◌, ◌≤◌, length};
ghost use Rattle.chip.specs.Geometry.{Fits, block_size, page_size};
ghost use Rattle.commits.specs.ExecuteCode.{Executes};

use chip::progress::Progress;
use execution::execute::Commit;
use execution::{execute as carry, figures};
use plan::make;
use plan::make::Basis;

// A commit of the units of the buffer, numbered one above the last: the image, and the node table and the erases of each block that it
// leaves, and how far it came. None where it is stuck, for want of room or of a page to write.
pub fn execute(
    image: &mut [u8],
    lens: &[u32; 256],
    slots: &[u32; 1024],
    buffer: &[u8; 11520],
    basis: Basis,
    torn: &[u8],
    progress: Progress,
    new_lens: &mut [u32; 256],
    new_slots: &mut [u32; 1024],
    new_erases: &mut [u64; 32],
) -> Option<Progress>
    requires { (length image.old ≡ basis.blocks * block_size basis.geometry) × (3 ≤ basis.blocks) × (basis.blocks ≤ 32) × (basis.count ≤ 960) × (length torn.now ≡ page_size basis.geometry)
        × (basis.commit < 4294967295) × Fits basis.geometry }
    ensures { Executes basis.geometry (8 * basis.blocks) basis.blocks lens.now slots.now basis.count buffer.now basis.commit torn.now progress
        image.old image.new new_lens.old new_slots.old new_lens.new new_slots.new
        new_erases.old new_erases.new result }
{
    let mut targets = [0; 256];
    let mut sizes = [0; 256];
    let mut units = [0; 52224];
    let plan = make::make(
        image,
        lens,
        slots,
        buffer,
        basis,
        &mut targets,
        &mut sizes,
        &mut units,
    )?;
    let geometry = basis.geometry;
    let commit = Commit {
        geometry,
        blocks: basis.blocks,
        number: basis.commit,
    };
    let reached = carry::execute(
        image, plan, commit, &targets, &sizes, &units, torn, progress, new_lens, new_slots,
    );
    figures::count_erases(new_erases, &plan.erased, plan.erases);
    Some(reached)
}
