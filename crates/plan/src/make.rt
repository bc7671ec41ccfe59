// The plan of a commit, made from the image and the arrays of a state, which it leaves as they are.
ghost use Rattle.std.specs.Prelude.{◌≡◌, ◌+◌, ◌-◌, ◌*◌, ◌<◌, ◌≤◌, length, take};
ghost use Rattle.chip.specs.Geometry.{Fits, block_size};
ghost use Rattle.chip.specs.Chip.{pages_of};
ghost use Rattle.journal.specs.Plan.{spare_blocks};
ghost use Rattle.plan.specs.PlacesCode.{free_pages, Spare};
ghost use Rattle.plan.specs.MakeCode.{LaysPlan, Makes};

use crate::choose::Room;
use crate::survey::Surveyed;
use crate::{choose, places, survey};
use chip::geometry::Geometry;
use views::nodes::Nodes;

// What a commit starts from: the geometry, the units in the buffer, the blocks of the chip, and the number of the last commit.
#[derive(Clone, Copy)]
pub struct Basis {
    pub geometry: Geometry,
    pub count: usize,
    pub blocks: usize,
    pub commit: u32,
}

// How many pages a commit writes and the place of each, how many blocks it erases first and which.
// Whatever the part, a commit writes at most 128 pages, and one place more is laid. No heap: arrays of fixed size, with the counts beside.
#[derive(Clone, Copy)]
pub struct Plan {
    pub pages: usize,
    pub erases: usize,
    pub places: [u32; 160],
    pub erased: [u32; 32],
}

// The places of `pages` pages and one more on the head and on the unused blocks, and the blocks to erase before they are written.
fn lay(
    geometry: Geometry,
    image: &[u8],
    blocks: usize,
    ground: Surveyed,
    ring: &[u32; 32],
    pages: usize,
) -> Plan
    requires { (length image.now ≡ blocks * block_size geometry) × (blocks ≤ 32) × (ground.head < blocks) × (ground.unused ≤ 32) × (pages < 160)
        × (pages + 1 ≤ length (free_pages geometry (pages_of geometry image.now) ground.head) + ground.unused * geometry.pages)
        × Spare blocks ground.head (take ground.unused ring.now) × (length (take ground.unused ring.now) ≡ ground.unused) × Fits geometry }
    ensures { LaysPlan geometry blocks ground.head (take ground.unused ring.now) pages (pages_of geometry image.now) result }
{
    let head = ground.head;
    let unused = ground.unused;
    let mut places = [0; 160];
    let mut erased = [0; 32];
    let need = pages + 1;
    let reach = places::lay_places(
        geometry,
        image,
        blocks,
        head,
        ring,
        unused,
        need,
        &mut places,
    );
    let erases = places::lay_erases(
        geometry,
        image,
        blocks,
        head,
        ring,
        unused,
        reach,
        &mut erased,
    );
    Plan {
        pages,
        erases,
        places,
        erased,
    }
}

// The room of a delta, the head and all unused blocks but the spare ones, and of a snapshot, the spare ones instead.
fn room_of(geometry: Geometry, ground: Surveyed, blocks: usize) -> Room
    requires { (blocks ≤ 32) × Fits geometry }
    ensures { (result.head ≡ ground.head) × (result.others ≡ ground.unused - spare_blocks geometry blocks)
        × (result.spare ≡ ground.unused - (ground.unused - spare_blocks geometry blocks)) }
{
    let head = ground.head;
    let others = ground
        .unused
        .saturating_sub(4 * blocks / geometry.pages + 1);
    let spare = ground.unused.saturating_sub(others);
    Room {
        head,
        others,
        spare,
    }
}

// The plan of the commit after the last, read from image and state; for each node its page, and what is written of it. None where nothing is
// to be done: there is no page to write, or there are no places.
pub fn make(
    image: &[u8],
    lens: &[u32; 256],
    slots: &[u32; 1024],
    buffer: &[u8; 11520],
    basis: Basis,
    targets: &mut [u32; 256],
    sizes: &mut [u32; 256],
    units: &mut [u8; 52224],
) -> Option<Plan>
    requires { (length image.now ≡ basis.blocks * block_size basis.geometry) × (3 ≤ basis.blocks) × (basis.blocks ≤ 32) × (basis.count ≤ 960) × Fits basis.geometry }
    ensures { Makes basis.geometry (8 * basis.blocks) basis.blocks lens.now slots.now basis.count buffer.now basis.commit
        (pages_of basis.geometry image.now) targets.new sizes.new units.new result }
{
    let geometry = basis.geometry;
    let count = basis.count;
    let blocks = basis.blocks;
    let limit = (8 * blocks) as u32;
    let mut ring = [0; 32];
    let ground = survey::survey(
        geometry,
        image,
        lens,
        slots,
        limit,
        blocks,
        basis.commit,
        &mut ring,
    );
    let room = room_of(geometry, ground, blocks);
    let nodes = Nodes {
        geometry,
        image,
        lens,
        slots,
        limit,
    };
    let oldest = ground.oldest;
    let pages = choose::choose(nodes, buffer, count, oldest, room, targets, sizes, units)?;
    if pages == 0 {
        return None;
    }
    Some(lay(geometry, image, blocks, ground, &ring, pages))
}
