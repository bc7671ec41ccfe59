// Nodes without a page filled in: each is written anew where a page has room.
ghost use Rattle.std.specs.Prelude.{◌≡◌, [], ℕ, ◌<◌, ◌≤◌, length, take};
ghost use Rattle.journal.specs.Packing.{fill_node, filled};
ghost use Rattle.journal.specs.PlanCode.{is_marked, packing_of, sizes_in};
ghost use Rattle.packing.specs.PackingCode.{Ready, FillsPages};

use crate::fit;
use crate::fit::NONE;

// A node that has no page put, anew, into the first page that has room.
fn fill_node(
    n: usize,
    wholes: &[u32],
    forms: &mut [u32],
    targets: &mut [u32],
    rooms: &mut [u32],
    count: usize,
)
    requires { (length wholes.now ≡ 256) × (n < 256) × (count ≤ 512) × Ready count rooms.old targets.old forms.old }
    ensures { FillsPages (λ (units : ℕ). fill_node (sizes_in units wholes.now []) (packing_of (take count rooms.old) targets.old forms.old) n)
        count forms.old rooms.new targets.new forms.new }
{
    let size = wholes[n];
    if targets[n] != NONE || size == 0 {
        return;
    }
    if let Some(page) = fit::first_fit(&rooms[..count], size) {
        rooms[page] -= size;
        targets[n] = page as u32;
        forms[n] = 1;
    }
}

// The marked nodes below `limit` filled in.
pub fn fill_all(
    olds: &[u32],
    limit: u32,
    wholes: &[u32],
    forms: &mut [u32],
    targets: &mut [u32],
    rooms: &mut [u32],
    count: usize,
)
    requires { (length olds.now ≡ 256) × (limit ≤ 256) × (length wholes.now ≡ 256) × (count ≤ 512) × Ready count rooms.old targets.old forms.old }
    ensures { FillsPages (λ (units : ℕ). filled (sizes_in units wholes.now []) (is_marked olds.now) limit
        (packing_of (take count rooms.old) targets.old forms.old))
        count forms.old rooms.new targets.new forms.new }
{
    for n in 0..limit as usize {
        if olds[n] == 1 {
            fill_node(n, wholes, forms, targets, rooms, count);
        }
    }
}
