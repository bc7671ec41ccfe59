// Step 6: the views are those of a tree whose root is node 0; and whether that tree is thin. The walk stops where a node comes twice, so that each is
// read a few times at most.
ghost use Rattle.std.specs.Prelude.{◌≡◌, ◌||◌, ◌+◌, ◌<◌, ◌≤◌, length, get_or, replicate, is_some};
ghost use Rattle.views.specs.FoldCode.{view_of};
ghost use Rattle.views.specs.NodeCode.{entries_of};
ghost use Rattle.tree.specs.Tree as T;
ghost use Rattle.tree.specs.Step6.{is_level, keys_in, are_subtrees, is_subtree, reached};
ghost use Rattle.tree.specs.FindCode.{entries_from, ShowsView};
ghost use Rattle.tree.specs.Thick.{fewest, is_thin};
ghost use Rattle.tree.specs.CheckCode.{pages_table, starts_at, obeys_at, own_at, under, Walks, MarksNumber, CountsNodes, is_grown, is_found_thin, is_some_true, ChecksTree};

use crate::find::node_or_empty;
use views::fold::{Folded, Stage};
use views::node::Node;
use views::nodes::Nodes;
use views::view::list_view;

// The end of the root's keys: every key is below it.
const TOP: u64 = 4294967296;

// What step 6 finds: no tree, a thin one, or one that is not thin.
#[derive(Clone, Copy)]
pub enum Growth {
    NoTree,
    Thin,
    Thick,
}

// 1 where a node is, 0 where none is.
fn presence(f: Folded) -> u32
    ensures { result ≡ T.there (view_of f) }
{
    u32::from(matches!(f.stage, Stage::Full))
}

// Whether a view is that of a node of level `level`.
fn is_level(f: Folded, level: u32) -> bool
    ensures { result ≡ is_level level (view_of f) }
{
    match f.stage {
        Stage::Full => f.node.level == level,
        _ => false,
    }
}

// Whether all keys of a node are from `lo` to below `hi`.
fn keys_in(n: Node, lo: u32, hi: u64) -> bool
    requires { n.len ≤ 16 }
    ensures { result ≡ keys_in lo hi (entries_of n) }
{
    for i in 0..n.len {
        let key = n.keys[i];
        if key < lo || hi <= key as u64 {
            return false;
        }
    }
    true
}

// Whether a node has 1 to 16 entries, the first at `lo`.
fn starts_at(n: Node, lo: u32) -> bool
    requires { n.len ≤ 16 }
    ensures { result ≡ starts_at lo (entries_of n) }
{
    n.len != 0 && n.keys[0] == lo
}

// Whether the entries of a node of level `level` obey the rules of one node.
fn obeys(n: Node, level: u32, lo: u32, hi: u64) -> bool
    requires { n.len ≤ 16 }
    ensures { result ≡ obeys_at level lo hi (entries_of n) }
{
    (level == 0 || starts_at(n, lo)) && keys_in(n, lo, hi)
}

// Whether a view is that of a node of level `level` that obeys the rules of one node.
fn own(f: Folded, level: u32, lo: u32, hi: u64) -> bool
    requires { f.node.len ≤ 16 }
    ensures { result ≡ own_at level (view_of f) lo hi }
{
    is_level(f, level) && obeys(f.node, level, lo, hi)
}

// Where the keys of the child at `i` end: the next key, or the node's own end.
fn end_at(n: Node, i: usize, hi: u64) -> u64
    requires { (n.len ≤ 16) × (i < n.len) }
    ensures { (result ≡ T.first_key hi (entries_from n.len (i + 1) n.keys n.values)) × (length n.keys ≡ 17) × (length n.values ≡ 17) }
{
    let len = n.len;
    let j = i + 1;
    if j < len { n.keys[j] as u64 } else { hi }
}

// Counts `number`, unless it is counted already or no number of a node.
fn mark(lens: &[u32], seen: &mut [u32], number: u32) -> bool
    requires { (length lens.now ≡ 256) × (length seen.old ≡ 256) }
    ensures { MarksNumber (length lens.now) number seen.old seen.new result }
{
    let n = number as usize;
    if lens.len() <= n || seen[n] != 0 {
        return false;
    }
    seen[n] = 1;
    true
}

// How often `number` is counted; never from 256 on.
fn count_at(seen: &[u32], number: u32) -> u32
    requires { length seen.now ≡ 256 }
    ensures { result ≡ get_or seen.now number 0 }
{
    seen.get(number as usize).copied().unwrap_or(0)
}

// Nothing is counted. The array is stored whole: `fill` promises clones of a value, not the value.
fn clear(seen: &mut [u32; 256])
    ensures { seen.new ≡ replicate 256 0 }
{
    *seen = [0; 256];
}

// Whether node `number` is the top of a tree of level `level` with keys from `lo` to below `hi`, of nodes that are new.
#[cycle(subtrees_visit)]
fn visit(nodes: Nodes<'_>, seen: &mut [u32; 256], level: u32, number: u32, lo: u32, hi: u64) -> bool
    ensures { let ns = nodes.entry in Walks (pages_table ns.geometry ns.image.now ns.lens.now ns.slots.now ns.limit)
        (is_subtree level (pages_table ns.geometry ns.image.now ns.lens.now ns.slots.now ns.limit) number lo hi)
        (reached level (pages_table ns.geometry ns.image.now ns.lens.now ns.slots.now ns.limit) number)
        seen.old seen.new result }
{
    let lens = nodes.lens;
    let f = list_view(nodes, number);
    if !own(f, level, lo, hi) || !mark(lens, seen, number) {
        return false;
    }
    if level == 0 {
        return true;
    }
    let n = f.node;
    let low = level - 1;
    subtrees(nodes, seen, low, n, 0, hi)
}

// Whether the entries of a node from `i` on lead to trees of level `level`, of nodes that are new.
#[cycle(subtrees_visit)]
fn subtrees(nodes: Nodes<'_>, seen: &mut [u32; 256], level: u32, n: Node, i: usize, hi: u64) -> bool
    requires { n.len ≤ 16 }
    ensures { let ns = nodes.entry in Walks (pages_table ns.geometry ns.image.now ns.lens.now ns.slots.now ns.limit)
        (are_subtrees (is_subtree level (pages_table ns.geometry ns.image.now ns.lens.now ns.slots.now ns.limit)) hi (entries_from n.len i n.keys n.values))
        (under level (pages_table ns.geometry ns.image.now ns.lens.now ns.slots.now ns.limit) (entries_from n.len i n.keys n.values))
        seen.old seen.new result }
{
    if n.len <= i {
        return true;
    }
    let c = n.values[i];
    let lo = n.keys[i];
    let end = end_at(n, i, hi);
    let j = i + 1;
    visit(nodes, seen, level, c, lo, end) && subtrees(nodes, seen, level, n, j, hi)
}

// The fewest entries of an interior node `number`.
fn fewest_of(number: u32) -> usize
    ensures { result ≡ fewest number }
{
    if number == 0 { 2 } else { 8 }
}

// Whether node `number` is an interior node with too few entries.
fn is_thin_node(f: Folded, number: u32) -> bool
    requires { f.node.len ≤ 16 }
    ensures { result ≡ is_thin number (view_of f) }
{
    let n = node_or_empty(f);
    n.level != 0 && n.len < fewest_of(number)
}

// Whether a thin node was found before, or node `number` is one.
fn or_thin(before: bool, f: Folded, number: u32) -> bool
    requires { f.node.len ≤ 16 }
    ensures { result ≡ (before || is_thin number (view_of f)) }
{
    before || is_thin_node(f, number)
}

// Where each node below `nodes.limit` is counted once, and nothing else, whether some node is thin.
fn all_once(nodes: Nodes<'_>, seen: &[u32; 256]) -> Option<bool>
    ensures { let ns = nodes.entry in CountsNodes (pages_table ns.geometry ns.image.now ns.lens.now ns.slots.now ns.limit) seen.now result }
{
    let mut thin = false;
    for n in 0..nodes.limit {
        let f = list_view(nodes, n);
        if count_at(seen, n) != presence(f) {
            return None;
        }
        thin = or_thin(thin, f, n);
    }
    Some(thin)
}

// What the counts of a tree say of it: none where they are not those of a tree, and else whether it is thin.
fn growth_of(thin: Option<bool>) -> Growth
    ensures { (is_grown result ≡ is_some thin) × (is_found_thin result ≡ is_some_true thin) }
{
    match thin {
        None => Growth::NoTree,
        Some(true) => Growth::Thin,
        Some(false) => Growth::Thick,
    }
}

// The level and the entries of node `number`, from its pages alone.
pub fn listed_node(nodes: Nodes<'_>, number: u32) -> Node
    ensures { let ns = nodes.entry in ShowsView (T.at (pages_table ns.geometry ns.image.now ns.lens.now ns.slots.now ns.limit) number) result }
{
    node_or_empty(list_view(nodes, number))
}

// Step 6 on the table of the pages; where it passes, whether the tree is thin, and `seen` has 1 for each number of a node and 0 for the others.
pub fn check_tree(nodes: Nodes<'_>, seen: &mut [u32; 256]) -> Growth
    ensures { let ns = nodes.entry in ChecksTree (pages_table ns.geometry ns.image.now ns.lens.now ns.slots.now ns.limit) seen.new result }
{
    let n = listed_node(nodes, 0);
    clear(seen);
    if visit(nodes, seen, n.level, 0, 0, TOP) {
        growth_of(all_once(nodes, seen))
    } else {
        Growth::NoTree
    }
}
