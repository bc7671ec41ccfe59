// The erases of a commit.
ghost use Rattle.std.specs.Prelude.{◌≡◌, ◌*◌, ◌<◌, ◌≤◌, map, length, take};
ghost use Rattle.lists.specs.Lists.{All};
ghost use Rattle.chip.specs.Geometry.{Fits, block_size, page_size};
ghost use Rattle.chip.specs.Chip.{Op};
ghost use Rattle.chip.specs.RunCode.{Ran};

use chip::geometry::Geometry;
use chip::image;
use chip::progress::Progress;

// The first `count` blocks of the list of a plan erased in order, as far as the power goes.
pub fn erase_blocks(
    geometry: Geometry,
    image: &mut [u8],
    blocks: usize,
    erased: &[u32; 32],
    count: usize,
    torn: &[u8],
    progress: Progress,
) -> Progress
    requires { (length image.old ≡ blocks * block_size geometry) × (count ≤ 32) × (length torn.now ≡ page_size geometry) × All (◌< blocks) (take count erased.now) × Fits geometry }
    ensures { Ran geometry torn.now (map Op.erase (take count erased.now)) progress result image.old image.new }
{
    let mut reached = progress;
    for b in &erased[..count] {
        reached = image::erase(geometry, image, *b as usize, torn, reached);
    }
    reached
}
