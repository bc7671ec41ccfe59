// The nodes packed into pages of `units` units: those that are written anew, then the others.
ghost use Rattle.std.specs.Prelude.{◌≡◌, ◌+◌, ◌*◌, ◌<◌, ◌≤◌, length, take};
ghost use mathlib.Core.List.{foldl};
ghost use Rattle.journal.specs.Plan.{count_from};
ghost use Rattle.journal.specs.Packing.{pack_node, packed};
ghost use Rattle.journal.specs.PlanCode.{is_marked, packing_of, sizes_in};
ghost use Rattle.packing.specs.PackingCode.{pack_if, Ready, Packs};

use crate::fit;
use crate::fit::NONE;

// A node packed if it has units to write and no page yet; the number of pages after it.
fn pack_node(
    units: u32,
    n: usize,
    wholes: &[u32],
    parts: &[u32],
    forms: &[u32],
    targets: &mut [u32],
    rooms: &mut [u32],
    count: usize,
) -> usize
    requires { (length wholes.now ≡ 256) × (length parts.now ≡ 256) × (n < 256) × (count < 512) × Ready count rooms.old targets.old forms.now }
    ensures { Packs (pack_node (sizes_in units wholes.now parts.now) (packing_of (take count rooms.old) targets.old forms.now) n)
        (count + 1) result rooms.new targets.new forms.now }
{
    let size = fit::size_of(n, wholes, parts, forms);
    if targets[n] != NONE || size == 0 {
        return count;
    }
    fit::assign(units, n, size, targets, rooms, count)
}

// The nodes below `limit` packed, those whose form is 1 or all; the number of pages after them.
// No closure in place of `always`: it would be asked in one test, and owe a promise on each node.
fn pack_pass(
    units: u32,
    always: bool,
    limit: u32,
    wholes: &[u32],
    parts: &[u32],
    forms: &[u32],
    targets: &mut [u32],
    rooms: &mut [u32],
    count: usize,
) -> usize
    requires { (length wholes.now ≡ 256) × (length parts.now ≡ 256) × (limit ≤ 256) × (count + limit ≤ 512) × Ready count rooms.old targets.old forms.now }
    ensures { Packs (foldl (pack_if units always wholes.now parts.now forms.now)
        (packing_of (take count rooms.old) targets.old forms.now) (count_from 0 limit))
        (count + limit) result rooms.new targets.new forms.now }
{
    let mut k = count;
    for n in 0..limit as usize {
        if always || forms[n] == 1 {
            k = pack_node(units, n, wholes, parts, forms, targets, rooms, k);
        }
    }
    k
}

// The pages of the nodes below `limit` in their forms, by first fit: their number, the free units of each, and the page of each node.
// No heap: `rooms` has a fixed size, and the number of pages goes beside it.
pub fn pack_nodes(
    units: u32,
    limit: u32,
    wholes: &[u32; 256],
    parts: &[u32; 256],
    forms: &[u32; 256],
    targets: &mut [u32; 256],
    rooms: &mut [u32; 512],
) -> usize
    requires { limit ≤ 256 }
    ensures { Packs (packed (sizes_in units wholes.now parts.now) (is_marked forms.now) limit)
        (2 * limit) result rooms.new targets.new forms.now }
{
    targets.fill(NONE);
    let marked = pack_pass(units, false, limit, wholes, parts, forms, targets, rooms, 0);
    pack_pass(
        units, true, limit, wholes, parts, forms, targets, rooms, marked,
    )
}
