// The plan of a rebuild, made from the image and the lists of its nodes, which it leaves as they are.
ghost use Rattle.std.specs.Prelude.{◌≡◌, ◌++◌, ◌*◌, ◌≤◌, length, take, drop, replicate};
ghost use Rattle.chip.specs.Geometry.{Fits, block_size};
ghost use Rattle.chip.specs.Chip.{pages_of};
ghost use Rattle.numbers.specs.NumberSet.{words_of};
ghost use Rattle.tree.specs.CheckCode.{pages_table};
ghost use Rattle.tree.specs.Step6.{Tree};
ghost use Rattle.journal.specs.Rebuild.{eighth};
ghost use Rattle.plan.specs.PlacesCode.{Spare};
ghost use Rattle.renewal.specs.LayersCode.{Listed};
ghost use Rattle.renewal.specs.MakeCode.{Rebuildable, LaysAnew, LaysPages, numbers_from, MakesRebuild};

use crate::{blocks, layers};
use chip::geometry::Geometry;
use numbers::set;
use packing::pack;
use plan::make::Plan;
use plan::places;
use tree::leaves;
use views::nodes::Nodes;

// The tree laid anew from its records; for each number its units and how many they are. Returns how many nodes it has.
fn lay_anew(
    geometry: Geometry,
    image: &[u8],
    lens: &[u32; 256],
    slots: &[u32; 1024],
    blocks: usize,
    sizes: &mut [u32; 256],
    units: &mut [u8; 52224],
) -> usize
    requires { (length image.now ≡ blocks * block_size geometry) × (blocks ≤ 32) × Fits geometry
        × Tree (pages_table geometry image.now lens.now slots.now (8 * blocks)) × (length (pages_table geometry image.now lens.now slots.now (8 * blocks)) ≡ 8 * blocks)
        × Listed (8 * blocks) (pages_table geometry image.now lens.now slots.now (8 * blocks)) lens.now slots.now }
    ensures { LaysAnew (8 * blocks) (pages_table geometry image.now lens.now slots.now (8 * blocks))
        sizes.new units.new result }
{
    let limit = (8 * blocks) as u32;
    let mut keys = [0; 4096];
    let mut values = [0; 4096];
    let nodes = Nodes {
        geometry,
        image,
        lens,
        slots,
        limit,
    };
    let count = leaves::gather(nodes, &mut keys, &mut values);
    layers::lay_tree(&keys, &values, count, lens, slots, limit, sizes, units)
}

// The numbers below `limit` that are free where the first `n` have nodes.
fn set_free(n: usize, limit: u32, free: &mut [u64; 4])
    requires { n ≤ 256 }
    ensures { free.new ≡ words_of (numbers_from n limit) }
{
    let mut counts = [0; 256];
    counts[..n].fill(1);
    set::gather(&counts, limit, free);
}

// The plan of `pages` pages on the first blocks of the ring, one block in eight; nothing is erased.
fn lay_pages(geometry: Geometry, blocks: usize, ring: &[u32; 32], pages: usize) -> Plan
    requires { (blocks ≤ 32) × (pages ≤ 160) × (pages ≤ eighth blocks * geometry.pages) × Spare blocks blocks (take (eighth blocks) ring.now) × Fits geometry }
    ensures { LaysPages geometry (take (eighth blocks) ring.now) pages result }
{
    let mut places = [0; 160];
    let width = blocks::needed(blocks);
    places::put_rest(geometry, ring, blocks, blocks, width, 0, pages, &mut places);
    Plan {
        pages,
        erases: 0,
        places,
        erased: [0; 32],
    }
}

// The plan of a rebuild; for each node its page, and what is written of it; the numbers that no node has then. `ring` has the wholly free blocks in front.
pub fn make(
    geometry: Geometry,
    image: &[u8],
    lens: &[u32; 256],
    slots: &[u32; 1024],
    blocks: usize,
    ring: &[u32; 32],
    targets: &mut [u32; 256],
    sizes: &mut [u32; 256],
    units: &mut [u8; 52224],
    free: &mut [u64; 4],
) -> Plan
    requires { (length image.now ≡ blocks * block_size geometry) × Fits geometry
        × Rebuildable geometry blocks (pages_table geometry image.now lens.now slots.now (8 * blocks)) (pages_of geometry image.now) lens.now slots.now ring.now }
    ensures { MakesRebuild geometry blocks (pages_table geometry image.now lens.now slots.now (8 * blocks)) (pages_of geometry image.now)
        targets.new sizes.new units.new free.new result }
{
    let limit = (8 * blocks) as u32;
    let most = geometry.units as u32;
    let parts = [0; 256];
    let forms = [1; 256];
    let mut rooms = [0; 512];
    let nodes = lay_anew(geometry, image, lens, slots, blocks, sizes, units);
    let pages = pack::pack_nodes(most, limit, sizes, &parts, &forms, targets, &mut rooms);
    set_free(nodes, limit, free);
    lay_pages(geometry, blocks, ring, pages)
}
