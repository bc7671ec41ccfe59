// To find a key: the way down from node 0, each node read from its pages and then from the buffer.
ghost use Rattle.std.specs.Prelude.{◌≡◌, ◌+◌, ◌≤◌};
ghost use Rattle.chip.specs.Chip.{pages_of};
ghost use Rattle.views.specs.FoldCode.{view_of};
ghost use Rattle.views.specs.NodeCode.{entries_of};
ghost use Rattle.views.specs.Stored.{length_of};
ghost use Rattle.tree.specs.Tree as T;
ghost use Rattle.tree.specs.Shown.{shown};
ghost use Rattle.tree.specs.FindCode.{hit_of, ShowsView, ShowsRead, Finds, Answers};

use views::fold::{Folded, Stage};
use views::node;
use views::node::Node;
use views::nodes::Nodes;
use views::view::read_node;

// The value of a key, if it has one, and how many pages were read on the way to it.
#[derive(Clone, Copy)]
pub struct Looked {
    pub hit: Option<u32>,
    pub pages: u32,
}

// The child of a node for `key`: the value of the greatest entry key that is not above it.
pub fn child(n: Node, key: u32) -> u32
    requires { n.len ≤ 17 }
    ensures { result ≡ T.below key 0 (entries_of n) }
{
    let mut found: u32 = 0;
    for i in 0..n.len {
        if key < n.keys[i] {
            return found;
        }
        found = n.values[i];
    }
    found
}

// The value that a leaf holds for `key`, if it holds one.
pub fn lookup(n: Node, key: u32) -> Option<u32>
    requires { n.len ≤ 17 }
    ensures { hit_of result ≡ T.lookup key (entries_of n) }
{
    for i in 0..n.len {
        if n.keys[i] == key {
            return Some(n.values[i]);
        }
    }
    None
}

// The level and the entries of a view; none where the node is not there.
pub fn node_or_empty(f: Folded) -> Node
    requires { f.node.len ≤ 16 }
    ensures { ShowsView (view_of f) result }
{
    match f.stage {
        Stage::Full => f.node,
        _ => node::reset(0),
    }
}

// The level and the entries of node `number`, from its pages and then from the buffer.
pub fn node_at(nodes: Nodes<'_>, buffer: &[u8; 11520], count: usize, number: u32) -> Node
    ensures { let ns = nodes.entry in ShowsView (T.at (shown ns.geometry ns.limit (pages_of ns.geometry ns.image.now) ns.lens.now ns.slots.now count
        buffer.now) number) result }
{
    read_at(nodes, buffer, count, number).node
}

// A node, and its length on flash.
#[derive(Clone, Copy)]
pub struct NodeRead {
    node: Node,
    pages: u32,
}

// Node `number` with its length on flash.
fn read_at(nodes: Nodes<'_>, buffer: &[u8; 11520], count: usize, number: u32) -> NodeRead
    ensures { let ns = nodes.entry in ShowsRead (T.at (shown ns.geometry ns.limit (pages_of ns.geometry ns.image.now) ns.lens.now ns.slots.now count
        buffer.now) number)
        (length_of ns.geometry ns.limit (pages_of ns.geometry ns.image.now) ns.lens.now ns.slots.now number) result }
{
    let r = read_node(nodes, buffer, count, number);
    NodeRead {
        node: node_or_empty(r.folded),
        pages: r.pages,
    }
}

// The way from node `number` of level `level`, which `read` shows, down to the leaf of `key`.
fn find_at(
    nodes: Nodes<'_>,
    buffer: &[u8; 11520],
    count: usize,
    level: u32,
    number: u32,
    read: NodeRead,
    key: u32,
) -> Looked
    requires { (level ≤ 3)
        × ShowsRead (T.at (shown nodes.geometry nodes.limit (pages_of nodes.geometry nodes.image.now) nodes.lens.now nodes.slots.now count buffer.now) number)
        (length_of nodes.geometry nodes.limit (pages_of nodes.geometry nodes.image.now) nodes.lens.now nodes.slots.now number) read }
    ensures { let ns = nodes.entry in Finds (length_of ns.geometry ns.limit (pages_of ns.geometry ns.image.now) ns.lens.now ns.slots.now) level number key
        (shown ns.geometry ns.limit (pages_of ns.geometry ns.image.now) ns.lens.now ns.slots.now count buffer.now) result }
{
    if level == 0 {
        return Looked {
            hit: lookup(read.node, key),
            pages: read.pages,
        };
    }
    let c = child(read.node, key);
    let m = read_at(nodes, buffer, count, c);
    let low = level - 1;
    let r = find_at(nodes, buffer, count, low, c, m, key);
    Looked {
        hit: r.hit,
        pages: read.pages + r.pages,
    }
}

// What `key` has, and how many pages the way from the root to it read: at most 16.
pub fn find(nodes: Nodes<'_>, buffer: &[u8; 11520], count: usize, key: u32) -> Looked
    ensures { let ns = nodes.entry in Answers (length_of ns.geometry ns.limit (pages_of ns.geometry ns.image.now) ns.lens.now ns.slots.now) key
        (shown ns.geometry ns.limit (pages_of ns.geometry ns.image.now) ns.lens.now ns.slots.now count buffer.now) result }
{
    let root = read_at(nodes, buffer, count, 0);
    let level = root.node.level;
    find_at(nodes, buffer, count, level, 0, root, key)
}
