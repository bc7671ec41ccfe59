// The wholly free blocks of a chip, and how many of them a rebuild needs.
ghost use Rattle.std.specs.Prelude.{◌≡◌, ◌*◌, ◌≤◌, length};
ghost use Rattle.chip.specs.Geometry.{Fits, block_size};
ghost use Rattle.chip.specs.Chip.{pages_of};
ghost use Rattle.journal.specs.Rebuild.{eighth};
ghost use Rattle.renewal.specs.MakeCode.{FindsFree};

use chip::geometry::Geometry;
use plan::places;

// One block in eight, rounded up.
pub fn needed(blocks: usize) -> usize
    requires { blocks ≤ 32 }
    ensures { result ≡ eighth blocks }
{
    blocks.div_ceil(8)
}

// The wholly free blocks, lowest first, in front of `ring`; how many there are.
pub fn free_blocks(geometry: Geometry, image: &[u8], blocks: usize, ring: &mut [u32; 32]) -> usize
    requires { (length image.now ≡ blocks * block_size geometry) × (blocks ≤ 32) × Fits geometry }
    ensures { FindsFree geometry blocks (pages_of geometry image.now) ring.new result }
{
    let mut n = 0;
    for b in 0..blocks {
        if places::is_wholly_free(geometry, image, b) {
            ring[n] = b as u32;
            n += 1;
        }
    }
    n
}
