// The records of a tree in key order, gathered from its pages: leaf after leaf, each behind those before it in two arrays.
ghost use Rattle.std.specs.Prelude.{◌≡◌, ◌≤◌, length};
ghost use Rattle.views.specs.NodeCode.{entries_of};
ghost use Rattle.tree.specs.Tree as T;
ghost use Rattle.tree.specs.CheckCode.{pages_table};
ghost use Rattle.tree.specs.RecordsCode.{Gathers, GathersRecords};

use crate::check::listed_node;
use views::node::Node;
use views::nodes::Nodes;

// How many records the arrays hold: 256 leaves of 16.
const ROOM: usize = 4096;

// The entries of a node behind the first `count` of the arrays, or nothing where they have no room. Returns how many there are then.
fn append(n: Node, keys: &mut [u32], values: &mut [u32], count: usize) -> usize
    requires { (n.len ≤ 16) × (length keys.old ≡ 4096) × (length values.old ≡ 4096) × (count ≤ 4096) }
    ensures { Gathers (entries_of n) count keys.old values.old result keys.new values.new }
{
    let end = count + n.len;
    if ROOM < end {
        return count;
    }
    keys[count..end].copy_from_slice(&n.keys[..n.len]);
    values[count..end].copy_from_slice(&n.values[..n.len]);
    end
}

// The records under node `number` of level `level` behind the first `count` of the arrays. Returns how many there are then.
fn gather_under(
    nodes: Nodes<'_>,
    keys: &mut [u32],
    values: &mut [u32],
    level: u32,
    number: u32,
    count: usize,
) -> usize
    requires { (length keys.old ≡ 4096) × (length values.old ≡ 4096) × (count ≤ 4096) }
    ensures { let ns = nodes.entry in Gathers (T.records_at level (pages_table ns.geometry ns.image.now ns.lens.now ns.slots.now ns.limit) number)
        count keys.old values.old result keys.new values.new }
{
    let n = listed_node(nodes, number);
    if level == 0 {
        return append(n, keys, values, count);
    }
    let low = level - 1;
    let mut r = count;
    for i in 0..n.len {
        let c = n.values[i];
        r = gather_under(nodes, keys, values, low, c, r);
    }
    r
}

// The records of the tree in key order. Returns how many there are.
// No heap: keys and values stand in two arrays of fixed size, with the count beside them.
pub fn gather(nodes: Nodes<'_>, keys: &mut [u32; 4096], values: &mut [u32; 4096]) -> usize
    ensures { let ns = nodes.entry in GathersRecords (pages_table ns.geometry ns.image.now ns.lens.now ns.slots.now ns.limit) result keys.new values.new }
{
    let n = listed_node(nodes, 0);
    let level = n.level;
    gather_under(nodes, keys, values, level, 0, 0)
}
