// The delete, as recursion on the level: it pushes its units to the buffer, from the leaf upward. An absent key is met at its leaf, before anything
// is pushed. A node that lost an entry and has fewer than 8 looks at its neighbour; at the end node 0 takes over an only child.
ghost use Rattle.std.specs.Prelude.{◌+◌, ◌<◌, ◌≤◌, ◌≡◌, ◌&&◌, ltb, length};
ghost use Rattle.views.specs.NodeCode.{entries_of};
ghost use Rattle.tree.specs.Tree as T;
ghost use Rattle.tree.specs.FindCode.{ShowsView};
ghost use Rattle.tree.specs.Shown.{table_in};
ghost use Rattle.tree.specs.DeleteCode.{IsPair, Settles, Mends, Falls, Collapses, MergesOrShares, Finishes};
ghost use Rattle.tree.specs.UpdateCode.{Deletes};

use crate::balance;
use crate::balance::{Fall, Pair};
use crate::find::{child, node_at};
use views::node::Node;
use views::nodes::Nodes;

// The children at index `i` and at the next one of node `node`, which `n` shows.
fn pair_at(node: u32, n: Node, i: usize) -> Pair
    requires { (i + 2 ≤ n.len) × (n.len ≤ 16) }
    ensures { IsPair node (entries_of n) i result }
{
    Pair {
        parent: node,
        left: n.values[i],
        right: n.values[i + 1],
        key: n.keys[i + 1],
    }
}

// A thin child of node `node`, which `n` shows, on the way to `key`: it looks at its neighbour, if it has one.
fn settle(
    nodes: Nodes<'_>,
    buffer: &mut [u8; 11520],
    count: usize,
    free: &mut [u64; 4],
    node: u32,
    n: Node,
    key: u32,
) -> Fall
    requires { (nodes.limit ≤ 256) × (count ≤ 960) × (length (entries_of n) ≡ n.len) × (n.len ≤ 16) }
    ensures { let ns = nodes.entry in Settles (table_in ns.geometry ns.image.now ns.lens.now ns.slots.now ns.limit) ns.limit node key (entries_of n)
        count buffer.old free.old buffer.new free.new result }
{
    let len = n.len;
    if len < 2 {
        return balance::keep(len, count);
    }
    let i = balance::left_index(n, key);
    let pair = pair_at(node, n, i);
    let x = node_at(nodes, buffer, count, pair.left);
    let y = node_at(nodes, buffer, count, pair.right);
    balance::balance(buffer, count, free, pair, len, x, y)
}

// Whether a child that left `r` is thin: it lost an entry and has fewer than 8.
fn is_thin(r: Fall) -> bool
    ensures { result ≡ (r.lost && ltb r.len 8) }
{
    r.lost && r.len < 8
}

// Node `node`, which `n` shows, after its child's answer `r`: a thin child looks at its neighbour.
fn mend(
    nodes: Nodes<'_>,
    buffer: &mut [u8; 11520],
    free: &mut [u64; 4],
    node: u32,
    n: Node,
    r: Fall,
    key: u32,
) -> Fall
    requires { (nodes.limit ≤ 256) × (r.count ≤ 960) × (length (entries_of n) ≡ n.len) × (n.len ≤ 16) }
    ensures { let ns = nodes.entry in Mends (table_in ns.geometry ns.image.now ns.lens.now ns.slots.now ns.limit) ns.limit node key (entries_of n) r
        buffer.old free.old buffer.new free.new result }
{
    if is_thin(r) {
        return settle(nodes, buffer, r.count, free, node, n, key);
    }
    balance::keep(n.len, r.count)
}

// A delete under node `node` of `level`, which `n` shows: down to the leaf, and on the way up each thin child looks at its neighbour. None where the key
// is absent.
fn delete_at(
    nodes: Nodes<'_>,
    buffer: &mut [u8; 11520],
    count: usize,
    free: &mut [u64; 4],
    level: u32,
    node: u32,
    n: Node,
    key: u32,
) -> Option<Fall>
    requires { (nodes.limit ≤ 256) × (count ≤ 960)
        × ShowsView (T.at (table_in nodes.geometry nodes.image.now nodes.lens.now nodes.slots.now nodes.limit count buffer.old) node) n }
    ensures { let ns = nodes.entry in Falls (table_in ns.geometry ns.image.now ns.lens.now ns.slots.now ns.limit) ns.limit level node key count
        buffer.old free.old buffer.new free.new result }
{
    if level == 0 {
        return balance::delete_leaf(buffer, count, node, n, key);
    }
    let below = child(n, key);
    let m = node_at(nodes, buffer, count, below);
    let down = level - 1;
    let r = delete_at(nodes, buffer, count, free, down, below, m, key)?;
    Some(mend(nodes, buffer, free, node, n, r, key))
}

// While node 0 is above level 0 with one entry, it takes over its child. Returns how many units there are then.
fn collapse(
    nodes: Nodes<'_>,
    buffer: &mut [u8; 11520],
    count: usize,
    free: &mut [u64; 4],
    level: u32,
) -> usize
    requires { (nodes.limit ≤ 256) × (count ≤ 960) }
    ensures { let ns = nodes.entry in Collapses (table_in ns.geometry ns.image.now ns.lens.now ns.slots.now ns.limit) ns.limit level count
        buffer.old free.old buffer.new free.new result }
{
    if level == 0 {
        return count;
    }
    let root = node_at(nodes, buffer, count, 0);
    if root.len != 1 {
        return count;
    }
    let c = child(root, 0);
    let m = node_at(nodes, buffer, count, c);
    if count + m.len + 2 > 960 || c >= 65536 {
        return count;
    }
    let used = balance::take_over(buffer, count, free, c, m);
    let low = level - 1;
    collapse(nodes, buffer, used, free, low)
}

// Node 0 of `level` with two children, one of them thin: both into node 0 if they hold 16 entries or fewer, otherwise an entry moves over. Returns
// how many units there are then.
fn merge_or_share(
    nodes: Nodes<'_>,
    buffer: &mut [u8; 11520],
    count: usize,
    free: &mut [u64; 4],
    level: u32,
    root: Node,
    key: u32,
) -> usize
    requires { (nodes.limit ≤ 256) × (count ≤ 960) × (length (entries_of root) ≡ 2) × (root.len ≡ 2) × (0 < level) }
    ensures { let ns = nodes.entry in MergesOrShares (table_in ns.geometry ns.image.now ns.lens.now ns.slots.now ns.limit) ns.limit level key (entries_of root)
        count buffer.old free.old buffer.new free.new result }
{
    let pair = pair_at(0, root, 0);
    let x = node_at(nodes, buffer, count, pair.left);
    let y = node_at(nodes, buffer, count, pair.right);
    let both = x.len + y.len;
    if both > 16 {
        let f = balance::share(buffer, count, pair, 2, x, y);
        return f.count;
    }
    if balance::has_room(count, both + 3, pair) {
        let down = level - 1;
        return balance::merge(buffer, count, free, down, pair, x, y);
    }
    count
}

// Node 0 of `level`, which `root` shows, after its child's answer `r`. Returns how many units there are then.
fn finish(
    nodes: Nodes<'_>,
    buffer: &mut [u8; 11520],
    free: &mut [u64; 4],
    level: u32,
    root: Node,
    r: Fall,
    key: u32,
) -> usize
    requires { (nodes.limit ≤ 256) × (r.count ≤ 960) × (length (entries_of root) ≡ root.len) × (root.len ≤ 16) × (0 < level) }
    ensures { let ns = nodes.entry in Finishes (table_in ns.geometry ns.image.now ns.lens.now ns.slots.now ns.limit) ns.limit level key (entries_of root) r
        buffer.old free.old buffer.new free.new result }
{
    if root.len == 2 && is_thin(r) {
        return merge_or_share(nodes, buffer, r.count, free, level, root, key);
    }
    let f = mend(nodes, buffer, free, 0, root, r, key);
    if f.len != 1 {
        return f.count;
    }
    collapse(nodes, buffer, f.count, free, level)
}

// A delete from node 0. Returns how many units there are then, or None where the key is absent.
pub fn delete(
    nodes: Nodes<'_>,
    buffer: &mut [u8; 11520],
    count: usize,
    free: &mut [u64; 4],
    key: u32,
) -> Option<usize>
    requires { (nodes.limit ≤ 256) × (count ≤ 960) }
    ensures { let ns = nodes.entry in Deletes ns.geometry ns.image.now ns.lens.now ns.slots.now ns.limit key count
        buffer.old free.old buffer.new free.new result }
{
    let root = node_at(nodes, buffer, count, 0);
    let level = root.level;
    if level == 0 {
        let leaf = balance::delete_leaf(buffer, count, 0, root, key)?;
        return Some(leaf.count);
    }
    let below = child(root, key);
    let m = node_at(nodes, buffer, count, below);
    let down = level - 1;
    let r = delete_at(nodes, buffer, count, free, down, below, m, key)?;
    Some(finish(nodes, buffer, free, level, root, r, key))
}
