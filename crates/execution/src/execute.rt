// A plan of a commit carried out: its blocks erased, then its pages written and noted.
ghost use Rattle.std.specs.Prelude.{◌≡◌, ◌*◌, ◌<◌, ◌≤◌, length, take};
ghost use Rattle.lists.specs.Lists.{All};
ghost use Rattle.chip.specs.Geometry.{Fits, block_size, page_size};
ghost use Rattle.execution.specs.ExecutionCode.{CarriesOut};

use crate::write::Pages;
use crate::{erase, write};
use chip::geometry::Geometry;
use chip::progress::Progress;
use plan::make::Plan;

// The geometry and the blocks of the chip, and the number of the last commit.
#[derive(Clone, Copy)]
pub struct Commit {
    pub geometry: Geometry,
    pub blocks: usize,
    pub number: u32,
}

// The commit after `commit`, as its plan and the arrays say, as far as the power goes: the image, and the node table that it leaves.
pub fn execute(
    image: &mut [u8],
    plan: Plan,
    commit: Commit,
    targets: &[u32; 256],
    sizes: &[u32; 256],
    units: &[u8; 52224],
    torn: &[u8],
    progress: Progress,
    new_lens: &mut [u32; 256],
    new_slots: &mut [u32; 1024],
) -> Progress
    requires { (length image.old ≡ commit.blocks * block_size commit.geometry) × (commit.blocks ≤ 32) × (commit.number < 4294967295) × (plan.pages ≤ 128)
        × (plan.erases ≤ 32) × (length torn.now ≡ page_size commit.geometry) × All (◌< commit.blocks * commit.geometry.pages) (take plan.pages plan.places)
        × All (◌< commit.blocks) (take plan.erases plan.erased) × Fits commit.geometry }
    ensures { CarriesOut commit.geometry (8 * commit.blocks) commit.number plan targets.now sizes.now units.now torn.now
        progress result image.old image.new
        new_lens.old new_slots.old new_lens.new new_slots.new }
{
    let geometry = commit.geometry;
    let cleared = erase::erase_blocks(
        geometry,
        image,
        commit.blocks,
        &plan.erased,
        plan.erases,
        torn,
        progress,
    );
    let pages = Pages {
        geometry,
        limit: (8 * commit.blocks) as u32,
        commit: commit.number + 1,
        total: plan.pages,
    };
    write::write_pages(
        image,
        targets,
        sizes,
        units,
        &plan.places,
        pages,
        torn,
        cleared,
        new_lens,
        new_slots,
    )
}
