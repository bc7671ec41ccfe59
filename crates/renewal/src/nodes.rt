// The nodes of a rebuilt tree: a view put for a number, its units kept at the number's place and counted.
ghost use Rattle.std.specs.Prelude.{◌≡◌, ◌+◌, ◌<◌, ◌≤◌, length, take, drop};
ghost use Rattle.views.specs.Nodes.{view};
ghost use Rattle.views.specs.NodeCode.{entries_in, Shows};
ghost use Rattle.views.specs.FoldCode.{view_of, Stands};
ghost use Rattle.views.specs.Stored.{stored_list};
ghost use Rattle.renewal.specs.LayersCode.{vacant_view, PutsView, HoldsVacant};

use contents::read;
use views::fold::{Folded, Stage};
use views::node;
use views::node::Node;
use views::view::used_slots;

// A node of the `q` entries from `from` on.
fn node_of(keys: &[u32], values: &[u32], from: usize, q: usize, level: u32) -> Node
    requires { (from + q ≤ length keys.now) × (from + q ≤ length values.now) × (from + q ≤ 4096) × (q ≤ 16) }
    ensures { Shows result level (entries_in q (drop from keys.now) (drop from values.now)) × (result.len ≡ q) }
{
    let mut ks = [0; 17];
    let mut vs = [0; 17];
    ks[..q].copy_from_slice(&keys[from..from + q]);
    vs[..q].copy_from_slice(&values[from..from + q]);
    Node {
        level,
        len: q,
        keys: ks,
        values: vs,
    }
}

// A view put for node `number`.
fn put_view(f: Folded, number: usize, sizes: &mut [u32], units: &mut [u8])
    requires { (f.node.len ≤ 16) × (number < 256) × (length sizes.old ≡ 256) × (length units.old ≡ 52224) }
    ensures { PutsView number (view_of f) sizes.old units.old sizes.new units.new }
{
    let size = read::keep_view(f, number as u32, units);
    sizes[number] = size;
}

// The `q` entries from `from` on put as node `number`.
pub fn put_node(
    keys: &[u32],
    values: &[u32],
    from: usize,
    q: usize,
    level: u32,
    number: usize,
    sizes: &mut [u32],
    units: &mut [u8],
)
    requires { (from + q ≤ length keys.now) × (from + q ≤ length values.now) × (from + q ≤ 4096) × (q ≤ 16)
        × (number < 256) × (length sizes.old ≡ 256) × (length units.old ≡ 52224) }
    ensures { PutsView number (view level (entries_in q (drop from keys.now) (drop from values.now)))
        sizes.old units.old sizes.new units.new }
{
    let node = node_of(keys, values, from, q, level);
    let f = Folded {
        stage: Stage::Full,
        node,
    };
    put_view(f, number, sizes, units);
}

// The view of a number of which no record is left: an empty leaf for node 0, freed where it has a list, else untouched.
fn vacant(lens: &[u32], slots: &[u32], number: u32) -> Folded
    requires { (length lens.now ≡ 256) × (length slots.now ≡ 1024) }
    ensures { Stands result (vacant_view number (stored_list lens.now slots.now number)) }
{
    let node = node::reset(0);
    if number == 0 {
        return Folded {
            stage: Stage::Full,
            node,
        };
    }
    if used_slots(lens, slots, number) > 0 {
        return Folded {
            stage: Stage::Freed,
            node,
        };
    }
    Folded {
        stage: Stage::Untouched,
        node,
    }
}

// A number vacated.
fn vacate_one(lens: &[u32], slots: &[u32], number: u32, sizes: &mut [u32], units: &mut [u8])
    requires { (length lens.now ≡ 256) × (length slots.now ≡ 1024) × (number < 256) × (length sizes.old ≡ 256) × (length units.old ≡ 52224) }
    ensures { PutsView number (vacant_view number (stored_list lens.now slots.now number))
        sizes.old units.old sizes.new units.new }
{
    let f = vacant(lens, slots, number);
    put_view(f, number as usize, sizes, units);
}

// Every number below `limit` vacated.
pub fn vacate(lens: &[u32], slots: &[u32], limit: u32, sizes: &mut [u32], units: &mut [u8])
    requires { (length lens.now ≡ 256) × (length slots.now ≡ 1024) × (limit ≤ 256) × (length sizes.old ≡ 256) × (length units.old ≡ 52224) }
    ensures { HoldsVacant limit lens.now slots.now sizes.new units.new }
{
    for n in 0..limit {
        vacate_one(lens, slots, n, sizes, units);
    }
}
