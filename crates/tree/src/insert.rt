// The insert, as recursion on the level: it pushes its units to the buffer, from the leaf upward. It is refused at the leaf, before anything is pushed.
ghost use Rattle.std.specs.Prelude.{◌≡◌, suc, ◌+◌, ◌<◌, ◌≤◌, length, take, drop};
ghost use Rattle.views.specs.NodeCode.{entries_of, Shows};
ghost use Rattle.tree.specs.Tree.{Table, at, first_key, least, least2};
ghost use Rattle.tree.specs.InsertUnits.{halve_units, raise_units};
ghost use Rattle.tree.specs.Shown.{table_in};
ghost use Rattle.tree.specs.UpdateCode.{UnitsPushed, Inserts};
ghost use Rattle.tree.specs.FindCode as F;
ghost use Rattle.tree.specs.Insert.{stop, gains, halve, raise};
ghost use Rattle.tree.specs.InsertCode.{root_entries, needs_of, Stops, FitsOne, TakesLeast, ChangesNode, FitsOrSplits, Lands, PassesUp, Rises};

use crate::balance::unit_of;
use crate::find::{child, node_at};
use numbers::set;
use pages::unit::Update;
use views::node::Node;
use views::nodes::Nodes;
use views::{buffer, node, units};

// The entry that a parent gains: the first key of a new node, and its number.
#[derive(Clone, Copy)]
pub struct Gain {
    pub key: u32,
    pub number: u32,
}

// What an insert under a node leaves: the entry that the parent gains, if any, and how many units there are then.
#[derive(Clone, Copy)]
pub struct Rise {
    pub gain: Option<Gain>,
    pub count: usize,
}

// Where an insert is on its way down: node `node` of `level`. The nodes above it take `need` numbers if it splits.
#[derive(Clone, Copy)]
struct Spot {
    level: u32,
    node: u32,
    need: u32,
}

// The first 9 entries, at `level`.
fn lower(n: Node, level: u32) -> Node
    requires { n.len ≡ 17 }
    ensures { Shows result level (take 9 (entries_of n)) × (result.len ≡ 9) }
{
    Node { level, len: 9, ..n }
}

// The last 8 of 17 numbers, in front.
fn last_eight(a: [u32; 17]) -> [u32; 17]
    ensures { take 8 result ≡ drop 9 a }
{
    let mut r = [0; 17];
    r[..8].copy_from_slice(&a[9..]);
    r
}

// The other 8 entries, at `level`.
fn upper(n: Node, level: u32) -> Node
    requires { n.len ≡ 17 }
    ensures { Shows result level (drop 9 (entries_of n)) × (result.len ≡ 8) }
{
    Node {
        level,
        len: 8,
        keys: last_eight(n.keys),
        values: last_eight(n.values),
    }
}

// The first key of the other 8.
fn middle(n: Node) -> u32
    requires { n.len ≡ 17 }
    ensures { result ≡ first_key 0 (drop 9 (entries_of n)) }
{
    n.keys[9]
}

// A root with two entries: the node `low` from key 0 on, the node `high` from `key` on.
fn pair(level: u32, low: u32, key: u32, high: u32) -> Node
    ensures { Shows result level (root_entries low key high) × (result.len ≡ 2) }
{
    Node {
        level,
        len: 2,
        keys: [0, key, 0, 0, 0, 0, 0, 0, 0, 0, 0, 0, 0, 0, 0, 0, 0],
        values: [low, high, 0, 0, 0, 0, 0, 0, 0, 0, 0, 0, 0, 0, 0, 0, 0],
    }
}

// The 9 written to node `low` and the 8 to node `high`. Returns the count after them.
fn halve(buffer: &mut [u8; 11520], count: usize, n: Node, level: u32, low: u32, high: u32) -> usize
    requires { (n.len ≡ 17) × (low < 65536) × (high < 65536) × (count ≤ 941) }
    ensures { UnitsPushed (halve_units level low high (entries_of n)) count buffer.old buffer.new result × (result ≡ count + 19) }
{
    let first = lower(n, level);
    let second = upper(n, level);
    let used = count + units::put_node(buffer, count, low, first);
    used + units::put_node(buffer, used, high, second)
}

// Both halves written to `low` and `high`, and node 0 one level higher. Returns the count after them.
fn raise(buffer: &mut [u8; 11520], count: usize, n: Node, level: u32, low: u32, high: u32) -> usize
    requires { (n.len ≡ 17) × (low < 65536) × (high < 65536) × (level ≤ 3) × (count ≤ 938) }
    ensures { UnitsPushed (raise_units level low high (entries_of n)) count buffer.old buffer.new result × (result ≡ count + 22) }
{
    let used = halve(buffer, count, n, level, low, high);
    let key = middle(n);
    let root = pair(level + 1, low, key, high);
    used + units::put_node(buffer, used, 0, root)
}

// No entry for the parent; `count` units.
fn stop(count: usize) -> Rise
    ensures { Stops count result }
{
    Rise { gain: None, count }
}

// A node that has room for the entry: one unit, where the buffer has room.
fn fit(buffer: &mut [u8; 11520], count: usize, node: u32, key: u32, value: u32) -> Rise
    requires { count ≤ 960 }
    ensures { FitsOne node key value count buffer.old buffer.new result }
{
    if count >= 960 || node >= 65536 {
        return stop(count);
    }
    buffer::push_unit(buffer, count, unit_of(node, Update::Insert(key, value)));
    stop(count + 1)
}

// The least number, taken out of the set, if it has one.
fn take(free: &mut [u64; 4]) -> Option<u32>
    ensures { TakesLeast free.old free.new result }
{
    let number = set::least(free)?;
    set::take_out(free, number);
    Some(number)
}

// Node 0 with 17 entries: both halves to the two least numbers, and node 0 one level higher. Without room or numbers nothing is written, which no
// tree leads to.
fn split_root(
    buffer: &mut [u8; 11520],
    count: usize,
    free: &mut [u64; 4],
    level: u32,
    n: Node,
) -> Rise
    requires { (count ≤ 960) × (n.len ≡ 17) × (level ≤ 3) }
    ensures { ChangesNode 0 2 (λ (t : Table). raise_units level (least t) (least2 t) (entries_of n)) (λ (t : Table). stop (raise level (least t) (least2 t) (entries_of n) t))
        count buffer.old free.old buffer.new free.new result }
{
    if count > 938 {
        return stop(count);
    }
    let Some(low) = take(free) else {
        return stop(count);
    };
    let Some(high) = take(free) else {
        return stop(count);
    };
    let used = raise(buffer, count, n, level, low, high);
    stop(used)
}

// Another node with 17 entries: the 8 go to the least number, which the parent gains. Without room or a number nothing is written, which no tree
// leads to.
fn split(
    buffer: &mut [u8; 11520],
    count: usize,
    free: &mut [u64; 4],
    level: u32,
    node: u32,
    n: Node,
) -> Rise
    requires { (count ≤ 960) × (n.len ≡ 17) }
    ensures { ChangesNode node 1 (λ (t : Table). halve_units level node (least t) (entries_of n)) (λ (t : Table). gains (first_key 0 (drop 9 (entries_of n))) (least t) (halve level node (least t) (entries_of n) t))
        count buffer.old free.old buffer.new free.new result }
{
    if node >= 65536 || count > 941 {
        return stop(count);
    }
    let Some(number) = take(free) else {
        return stop(count);
    };
    let used = halve(buffer, count, n, level, node, number);
    let key = middle(n);
    Rise {
        gain: Some(Gain { key, number }),
        count: used,
    }
}

// Node `node` of `level` is to hold the entries of `n`, with `key` and `value` among them.
fn fit_or_split(
    buffer: &mut [u8; 11520],
    count: usize,
    free: &mut [u64; 4],
    level: u32,
    node: u32,
    n: Node,
    key: u32,
    value: u32,
) -> Rise
    requires { (count ≤ 960) × (n.len ≤ 17) × (length (entries_of n) ≡ n.len) × (level ≤ 3) }
    ensures { FitsOrSplits level node key value (entries_of n) count buffer.old free.old buffer.new free.new result }
{
    if n.len <= 16 {
        return fit(buffer, count, node, key, value);
    }
    if node == 0 {
        split_root(buffer, count, free, level, n)
    } else {
        split(buffer, count, free, level, node, n)
    }
}

// How many numbers a node and those above it take, where it is to hold `len` entries and those above it take `need` if it splits.
fn needs(need: u32, node: u32, len: usize) -> u32
    requires { need ≤ 4 }
    ensures { result ≡ needs_of need node len }
{
    if len <= 16 {
        return 0;
    }
    if node == 0 { 2 } else { need + 1 }
}

// How many numbers a node and those above it take, where it gains an entry.
fn needs_above(need: u32, node: u32, n: Node) -> u32
    requires { (need ≤ 4) × (n.len ≤ 16) }
    ensures { result ≡ needs_of need node (suc (length (entries_of n))) }
{
    needs(need, node, n.len + 1)
}

// The entry at its leaf. None, and nothing is pushed, where the leaf and the nodes above it would take too many numbers.
fn gain_leaf(
    buffer: &mut [u8; 11520],
    count: usize,
    free: &mut [u64; 4],
    node: u32,
    n: Node,
    need: u32,
    key: u32,
    value: u32,
) -> Option<Rise>
    requires { (count ≤ 960) × (n.len ≤ 16) × (need ≤ 4) }
    ensures { Lands need node key value count (entries_of n) buffer.old free.old buffer.new free.new result }
{
    let new = node::insert(n, key, value);
    if set::count(free) < needs(need, node, new.len) {
        return None;
    }
    Some(fit_or_split(buffer, count, free, 0, node, new, key, value))
}

// Node `node` of `level` with the entries of `n` gains what its child gave up, if anything.
fn pass_up(
    buffer: &mut [u8; 11520],
    free: &mut [u64; 4],
    level: u32,
    node: u32,
    n: Node,
    r: Rise,
) -> Rise
    requires { (n.len ≤ 16) × (r.count ≤ 960) × (level ≤ 3) }
    ensures { PassesUp level node (entries_of n) r buffer.old free.old buffer.new free.new result }
{
    let Some(gain) = r.gain else {
        return r;
    };
    let Gain { key, number } = gain;
    let new = node::insert(n, key, number);
    fit_or_split(buffer, r.count, free, level, node, new, key, number)
}

// An insert under the node of `spot`, which `n` shows: down to the leaf, and on the way up each node gains what its child gave up. None where it is
// refused.
fn insert_at(
    nodes: Nodes<'_>,
    buffer: &mut [u8; 11520],
    count: usize,
    free: &mut [u64; 4],
    spot: Spot,
    n: Node,
    key: u32,
    value: u32,
) -> Option<Rise>
    requires { (nodes.limit ≤ 256) × (count ≤ 960) × (spot.level ≤ 3) × (spot.need + spot.level ≤ 4)
        × F.ShowsView (at (table_in nodes.geometry nodes.image.now nodes.lens.now nodes.slots.now nodes.limit count buffer.old) spot.node) n }
    ensures { let ns = nodes.entry in Rises ns.geometry ns.image.now ns.lens.now ns.slots.now ns.limit spot.level spot.node spot.need key value
        count buffer.old free.old buffer.new free.new result }
{
    let Spot { level, node, need } = spot;
    if level == 0 {
        return gain_leaf(buffer, count, free, node, n, need, key, value);
    }
    let below = child(n, key);
    let m = node_at(nodes, buffer, count, below);
    let low = Spot {
        level: level - 1,
        node: below,
        need: needs_above(need, node, n),
    };
    let r = insert_at(nodes, buffer, count, free, low, m, key, value)?;
    Some(pass_up(buffer, free, level, node, n, r))
}

// An insert from node 0. Returns how many units there are then, or None where it is refused.
pub fn insert(
    nodes: Nodes<'_>,
    buffer: &mut [u8; 11520],
    count: usize,
    free: &mut [u64; 4],
    key: u32,
    value: u32,
) -> Option<usize>
    requires { (nodes.limit ≤ 256) × (count ≤ 960) }
    ensures { let ns = nodes.entry in Inserts ns.geometry ns.image.now ns.lens.now ns.slots.now ns.limit key value count
        buffer.old free.old buffer.new free.new result }
{
    let root = node_at(nodes, buffer, count, 0);
    let spot = Spot {
        level: root.level,
        node: 0,
        need: 0,
    };
    let r = insert_at(nodes, buffer, count, free, spot, root, key, value)?;
    Some(r.count)
}
