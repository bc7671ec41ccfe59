// The node table read from the standing pages: steps 4 and 5.
ghost use Rattle.std.specs.Prelude.{◌≡◌, ◌-◌, ◌/◌, ◌%◌, ◌≤◌, length};
ghost use Rattle.lists.specs.Lists.{part};
ghost use Rattle.chip.specs.Geometry.{Fits, most_pages, page_size};
ghost use Rattle.views.specs.ReadCode.{Reads};

use crate::nodes::Nodes;
use crate::{table, well};
use chip::geometry::{CHIP_PAGES, Geometry};

// The lists of all nodes from the pages of the keys order[from..to]; false where steps 4 and 5 refuse with 8.
pub fn read_nodes(
    geometry: Geometry,
    image: &[u8],
    order: &[u64; CHIP_PAGES],
    from: usize,
    to: usize,
    limit: u32,
    lens: &mut [u32; 256],
    slots: &mut [u32; 1024],
) -> bool
    requires { (length image.now % page_size geometry ≡ 0) × (length image.now / page_size geometry ≤ most_pages) × (from ≤ to) × (to ≤ most_pages) × (limit ≤ 256)
        × Fits geometry }
    ensures { Reads geometry image.now (part from (to - from) order.now) limit lens.new slots.new result }
{
    table::clear(lens);
    if !table::note_all(geometry, image, order, from, to, limit, lens, slots) {
        return false;
    }
    well::all_well(Nodes {
        geometry,
        image,
        lens,
        slots,
        limit,
    })
}
