// The packing of a delta into pages of `units` units: first fit, then pages that have room are filled.
ghost use Rattle.std.specs.Prelude.{◌≡◌, ℕ, ◌*◌, ◌≤◌, get_or, length, take};
ghost use Rattle.journal.specs.Packing.{delta_packing};
ghost use Rattle.journal.specs.PlanCode.{is_marked, packing_of, sizes_in};
ghost use Rattle.packing.specs.PackingCode.{fills_delta, Short, Ready, FillsPages, PacksDelta};

use crate::{fill, pack, widen};

// Pages filled: lists of 3 pages, then the marked nodes, then lists of 2 and of 1.
fn fill_pages(
    limit: u32,
    wholes: &[u32],
    parts: &[u32],
    lens: &[u32],
    olds: &[u32],
    forms: &mut [u32],
    targets: &mut [u32],
    rooms: &mut [u32],
    count: usize,
)
    requires { (limit ≤ 256) × (length wholes.now ≡ 256) × (length parts.now ≡ 256) × (length lens.now ≡ 256) × (length olds.now ≡ 256) × (count ≤ 512)
        × Ready count rooms.old targets.old forms.old × Short limit wholes.now parts.now forms.old }
    ensures { FillsPages (λ (units : ℕ). fills_delta units wholes.now parts.now lens.now olds.now limit
        (packing_of (take count rooms.old) targets.old forms.old))
        count forms.old rooms.new targets.new forms.new }
{
    widen::widen_all(3, lens, limit, wholes, parts, forms, targets, rooms, count);
    fill::fill_all(olds, limit, wholes, forms, targets, rooms, count);
    widen::widen_all(2, lens, limit, wholes, parts, forms, targets, rooms, count);
    widen::widen_all(1, lens, limit, wholes, parts, forms, targets, rooms, count);
}

// The pages of a delta: their number, the free units of each, the page of each node, and in `forms` the nodes that are written anew.
// No heap: `rooms` has a fixed size, and the number of pages goes beside it.
pub fn pack_delta(
    units: u32,
    limit: u32,
    wholes: &[u32; 256],
    parts: &[u32; 256],
    lens: &[u32; 256],
    olds: &[u32; 256],
    forms: &mut [u32; 256],
    targets: &mut [u32; 256],
    rooms: &mut [u32; 512],
) -> usize
    requires { (limit ≤ 256) × Short limit wholes.now parts.now forms.old }
    ensures { PacksDelta (delta_packing (sizes_in units wholes.now parts.now) (is_marked forms.old) (λ (n : ℕ). get_or lens.now n 0) (is_marked olds.now) limit)
        (2 * limit) result forms.old rooms.new targets.new forms.new }
{
    let count = pack::pack_nodes(units, limit, wholes, parts, forms, targets, rooms);
    fill_pages(
        limit, wholes, parts, lens, olds, forms, targets, rooms, count,
    );
    count
}
