// Nodes that are packed in their own units turned to whole nodes where their pages have room.
ghost use Rattle.std.specs.Prelude.{◌≡◌, ℕ, ◌<◌, ◌≤◌, get_or, length, take};
ghost use Rattle.journal.specs.Packing.{widen_node, widened};
ghost use Rattle.journal.specs.PlanCode.{packing_of, sizes_in};
ghost use Rattle.packing.specs.PackingCode.{Short, Ready, FillsPages};

// A node in its own units written anew if its page has room for the units that it lacks.
fn widen_node(
    n: usize,
    wholes: &[u32],
    parts: &[u32],
    forms: &mut [u32],
    targets: &[u32],
    rooms: &mut [u32],
    count: usize,
)
    requires { (length wholes.now ≡ 256) × (length parts.now ≡ 256) × (n < 256) × (count ≤ 512) × Ready count rooms.old targets.now forms.old
        × ((get_or forms.old n 0 ≡ 1 → ⊥) → get_or parts.now n 0 ≤ get_or wholes.now n 0) }
    ensures { FillsPages (λ (units : ℕ). widen_node (sizes_in units wholes.now parts.now) (packing_of (take count rooms.old) targets.now forms.old) n)
        count forms.old rooms.new targets.now forms.new }
{
    let page = targets[n] as usize;
    if page < count && forms[n] != 1 {
        let more = wholes[n] - parts[n];
        if more <= rooms[page] {
            rooms[page] -= more;
            forms[n] = 1;
        }
    }
}

// The nodes below `limit` whose lists have `d` pages widened.
pub fn widen_all(
    d: u32,
    lens: &[u32],
    limit: u32,
    wholes: &[u32],
    parts: &[u32],
    forms: &mut [u32],
    targets: &[u32],
    rooms: &mut [u32],
    count: usize,
)
    requires { (length lens.now ≡ 256) × (limit ≤ 256) × (length wholes.now ≡ 256) × (length parts.now ≡ 256) × (count ≤ 512)
        × Ready count rooms.old targets.now forms.old × Short limit wholes.now parts.now forms.old }
    ensures { FillsPages (λ (units : ℕ). widened (sizes_in units wholes.now parts.now) (λ (n : ℕ). get_or lens.now n 0) limit d
        (packing_of (take count rooms.old) targets.now forms.old))
        count forms.old rooms.new targets.now forms.new }
{
    for n in 0..limit as usize {
        if lens[n] == d {
            widen_node(n, wholes, parts, forms, targets, rooms, count);
        }
    }
}
