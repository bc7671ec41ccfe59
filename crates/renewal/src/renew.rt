// A rebuild carried out: all that is written stands in arrays before the first operation; then the void pages get their mark, and the new tree is written as one commit.
ghost use Rattle.std.specs.Prelude.{◌≡◌, ◌*◌, ◌<◌, length};
ghost use Rattle.chip.specs.Geometry.{Fits, block_size, page_size};
ghost use Rattle.chip.specs.Chip.{pages_of};
ghost use Rattle.tree.specs.CheckCode.{pages_table};
ghost use Rattle.renewal.specs.MakeCode.{Rebuildable};
ghost use Rattle.renewal.specs.RenewCode.{CarriesRebuild};

use crate::make;
use chip::geometry::Geometry;
use chip::progress::Progress;
use execution::execute as carry;
use execution::execute::Commit;
use journal;

// What a rebuild starts from: the geometry and the blocks of the chip, the greatest standing commit number, and the commit number of the void pages, where there are any.
#[derive(Clone, Copy)]
pub struct Ground {
    pub geometry: Geometry,
    pub blocks: usize,
    pub commit: u32,
    pub void: Option<u32>,
}

// The tree of the image and its lists rebuilt as the next commit, as far as the power goes: the image, and the node table and the free numbers that it leaves.
pub fn renew(
    image: &mut [u8],
    lens: &[u32; 256],
    slots: &[u32; 1024],
    ring: &[u32; 32],
    ground: Ground,
    torn: &[u8],
    progress: Progress,
    new_lens: &mut [u32; 256],
    new_slots: &mut [u32; 1024],
    free: &mut [u64; 4],
) -> Progress
    requires { (length image.old ≡ ground.blocks * block_size ground.geometry) × (length torn.now ≡ page_size ground.geometry) × (ground.commit < 4294967295) × Fits ground.geometry
        × Rebuildable ground.geometry ground.blocks (pages_table ground.geometry image.old lens.now slots.now (8 * ground.blocks)) (pages_of ground.geometry image.old)
        lens.now slots.now ring.now }
    ensures { CarriesRebuild ground.geometry ground.blocks (pages_table ground.geometry image.old lens.now slots.now (8 * ground.blocks)) ground.commit ground.void
        torn.now progress result image.old image.new
        new_lens.old new_slots.old new_lens.new new_slots.new free.new }
{
    let geometry = ground.geometry;
    let blocks = ground.blocks;
    let number = ground.commit;
    let mut targets = [0; 256];
    let mut sizes = [0; 256];
    let mut units = [0; 52224];
    let plan = make::make(
        geometry,
        image,
        lens,
        slots,
        blocks,
        ring,
        &mut targets,
        &mut sizes,
        &mut units,
        free,
    );
    let commit = Commit {
        geometry,
        blocks,
        number,
    };
    let marked = journal::mount::retire(geometry, image, ground.void, torn, progress);
    carry::execute(
        image, plan, commit, &targets, &sizes, &units, torn, marked, new_lens, new_slots,
    )
}
