// The nodes that a commit writes and their pages: a delta, a snapshot, or nothing.
ghost use Rattle.std.specs.Prelude.{◌≡◌, Some, ℕ, ◌+◌, ◌*◌, ◌/◌, ◌<◌, ◌≤◌, length};
ghost use Rattle.chip.specs.Geometry.{page_size};
ghost use Rattle.chip.specs.Chip.{pages_of};
ghost use Rattle.contents.specs.ContentsCode.{contents_in};
ghost use Rattle.plan.specs.PlacesCode.{free_pages};
ghost use Rattle.plan.specs.MakeCode.{Chooses};

use crate::places;
use contents::{measure, tally, written};
use packing::{delta, pack};
use views::nodes::Nodes;

// The head block, and how many unused blocks a delta and a snapshot may take besides.
#[derive(Clone, Copy)]
pub struct Room {
    pub head: usize,
    pub others: usize,
    pub spare: usize,
}

// A delta where there are places for its pages and one more, else a snapshot, else nothing; each node is read once. For each node its page,
// and what is written of it. Returns the number of pages, None where there are places for neither. `all` shows the proof that the slots are 1024.
pub fn choose(
    nodes: Nodes<'_>,
    buffer: &[u8; 11520],
    count: usize,
    oldest: Option<usize>,
    room: Room,
    targets: &mut [u32; 256],
    sizes: &mut [u32; 256],
    units: &mut [u8; 52224],
) -> Option<usize>
    requires { (count ≤ 960) × (nodes.limit ≤ 256)
        × ((b : ℕ) → oldest ≡ Some b → b < 4294967296)
        × (room.head * nodes.geometry.pages + nodes.geometry.pages ≤ length nodes.image.now / page_size nodes.geometry)
        × (room.head < 32) × (room.others ≤ 32) × (room.spare ≤ 32) }
    ensures { let ns = nodes.entry in let free = length (free_pages ns.geometry (pages_of ns.geometry ns.image.now) room.head) in
        Chooses ns.geometry ns.limit oldest (free + room.others * ns.geometry.pages) (free + room.spare * ns.geometry.pages)
        (contents_in ns.geometry ns.limit (pages_of ns.geometry ns.image.now) ns.lens.now ns.slots.now count buffer.now)
        targets.new sizes.new units.new result }
{
    let geometry = nodes.geometry;
    let image = nodes.image;
    let lens = nodes.lens;
    let slots = nodes.slots;
    let limit = nodes.limit;
    let most = geometry.units as u32;
    let head = room.head;
    let all = &slots[..];
    let mut parts = [0; 256];
    let mut forms = [0; 256];
    let mut wholes = [0; 256];
    let mut olds = [0; 256];
    let mut rooms = [0; 512];
    tally::tally(buffer, count, limit, &mut parts, &mut forms);
    measure::measure(
        nodes,
        buffer,
        count,
        oldest,
        &parts,
        &mut forms,
        &mut wholes,
        &mut olds,
        units,
    );
    let d = delta::pack_delta(
        most, limit, &wholes, &parts, lens, &olds, &mut forms, targets, &mut rooms,
    );
    if places::has_places(geometry, image, head, room.others, d + 1) {
        written::keep_written(
            buffer, count, limit, targets, &forms, &wholes, &parts, sizes, units,
        );
        return Some(d);
    }
    measure::measure_rest(
        nodes,
        buffer,
        count,
        &parts,
        &mut forms,
        &mut wholes,
        &olds,
        units,
    );
    let s = pack::pack_nodes(most, limit, &wholes, &parts, &forms, targets, &mut rooms);
    if places::has_places(geometry, image, head, room.spare, s + 1) {
        written::keep_written(
            buffer, count, limit, targets, &forms, &wholes, &parts, sizes, units,
        );
        return Some(s);
    }
    None
}
