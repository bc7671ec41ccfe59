// Two neighbours under one parent, one of them thin: they join, or an entry moves over; and node 0 that takes over its children. All of it as
// units behind those of the buffer, and as numbers put into the set of the free ones.
ghost use Rattle.std.specs.Prelude.{◌≡◌, true, [], ◌∷◌, ◌+◌, ◌<◌, ◌≤◌, length, drop};
ghost use Rattle.pages.specs.declared.unit.Update.TheVariants as K;
ghost use Rattle.views.specs.Groups.{unit_for};
ghost use Rattle.views.specs.NodeCode.{entries_of};
ghost use Rattle.views.specs.Nodes.{delete_entry};
ghost use Rattle.numbers.specs.NumberSet.{Changes};
ghost use Rattle.tree.specs.Tree as T;
ghost use Rattle.tree.specs.Tree.{first_key};
ghost use Rattle.tree.specs.BalanceCode.{left_of, right_of, last_of, NumbersFit, HasRoom, Keeps, Shares, Balances, Loses, IsLeft, take_over_units, Merges};
ghost use Rattle.tree.specs.DeleteUnits.{first_of, join_units, to_left, to_right};
ghost use Rattle.tree.specs.UpdateCode.{UnitsPushed};

use crate::find::lookup;
use numbers::set;
use pages::unit::{Unit, Update};
use views::node::Node;
use views::{buffer, node, units};

// The value of a reset that frees its node.
const FREED: u32 = 255;

// What a delete under a node leaves: whether the node lost an entry, how many it has then, and how many units there are.
#[derive(Clone, Copy)]
pub struct Fall {
    pub lost: bool,
    pub len: usize,
    pub count: usize,
}

// Two neighbours under node `parent`, and the key of the right one there.
#[derive(Clone, Copy)]
pub struct Pair {
    pub parent: u32,
    pub left: u32,
    pub right: u32,
    pub key: u32,
}

// An update of node `node`.
pub fn unit_of(node: u32, update: Update) -> Unit
    ensures { result ≡ unit_for node update }
{
    Unit { node, update }
}

// How many entries a node has without `key`.
fn len_without(n: Node, key: u32) -> usize
    requires { n.len ≤ 16 }
    ensures { result ≡ length (delete_entry key (entries_of n)) }
{
    let mut keys = n.keys;
    let mut values = n.values;
    node::take_out(&mut keys, &mut values, n.len, key)
}

// The node keeps its entries.
pub fn keep(len: usize, count: usize) -> Fall
    ensures { Keeps len count result }
{
    Fall {
        lost: false,
        len,
        count,
    }
}

// The entry taken out of its leaf `node`. None, and nothing is pushed, where the key is absent.
pub fn delete_leaf(
    buffer: &mut [u8; 11520],
    count: usize,
    node: u32,
    n: Node,
    key: u32,
) -> Option<Fall>
    requires { (count ≤ 960) × (n.len ≤ 16) }
    ensures { Loses node key (entries_of n) (T.lookup key (entries_of n)) count buffer.old buffer.new
        (unit_for node (K.Delete key) ∷ []) (length (delete_entry key (entries_of n))) result }
{
    lookup(n, key)?;
    if count >= 960 || node >= 65536 {
        return Some(keep(n.len, count));
    }
    buffer::push_unit(buffer, count, unit_of(node, Update::Delete(key)));
    Some(Fall {
        lost: true,
        len: len_without(n, key),
        count: count + 1,
    })
}

// The index of the left one of the two neighbours that the child of `key` and its neighbour are: the child and its right one, or its left one if it is last.
pub fn left_index(n: Node, key: u32) -> usize
    requires { (2 ≤ n.len) × (n.len ≤ 16) }
    ensures { IsLeft key (entries_of n) result × (result + 2 ≤ n.len) }
{
    let last = n.len - 2;
    for i in 0..last {
        if key < n.keys[i + 1] {
            return i;
        }
    }
    last
}

// Four units behind the `count` units that the buffer holds. Returns the count after them.
fn push_four(buffer: &mut [u8; 11520], count: usize, a: Unit, b: Unit, c: Unit, d: Unit) -> usize
    requires { (count + 4 ≤ 960) × (a.node < 65536) × (b.node < 65536) × (c.node < 65536) × (d.node < 65536) }
    ensures { UnitsPushed (a ∷ b ∷ c ∷ d ∷ []) count buffer.old buffer.new result }
{
    buffer::push_unit(buffer, count, a);
    buffer::push_unit(buffer, count + 1, b);
    buffer::push_unit(buffer, count + 2, c);
    buffer::push_unit(buffer, count + 3, d);
    count + 4
}

// The right one's entries `y` into the left one; the right one is freed, and the parent loses its entry. Returns the count after that.
fn join(buffer: &mut [u8; 11520], count: usize, free: &mut [u64; 4], pair: Pair, y: Node) -> usize
    requires { (y.len ≤ 16) × (count + y.len + 2 ≤ 960) × NumbersFit pair }
    ensures { UnitsPushed (join_units pair.parent (left_of pair) (right_of pair) (entries_of y)) count buffer.old buffer.new result
        × Changes true pair.right free.old free.new }
{
    let len = y.len;
    let used = count + len;
    units::put_entries(buffer, count, pair.left, y);
    buffer::push_unit(buffer, used, unit_of(pair.right, Update::Reset(FREED)));
    buffer::push_unit(
        buffer,
        used + 1,
        unit_of(pair.parent, Update::Delete(pair.key)),
    );
    set::put_in(free, pair.right);
    used + 2
}

// The first entry of the right one moves to the left one. Returns the count after that.
fn to_left(buffer: &mut [u8; 11520], count: usize, pair: Pair, y: Node) -> usize
    requires { (2 ≤ y.len) × (y.len ≤ 16) × (count + 4 ≤ 960) × NumbersFit pair }
    ensures { UnitsPushed (to_left pair.parent (left_of pair) (right_of pair) (first_of (entries_of y)) (first_key 0 (drop 1 (entries_of y))))
        count buffer.old buffer.new result }
{
    let key = y.keys[0];
    let value = y.values[0];
    let start = y.keys[1];
    push_four(
        buffer,
        count,
        unit_of(pair.left, Update::Insert(key, value)),
        unit_of(pair.right, Update::Delete(key)),
        unit_of(pair.parent, Update::Delete(pair.key)),
        unit_of(pair.parent, Update::Insert(start, pair.right)),
    )
}

// The last entry of the left one moves to the right one. Returns the count after that.
fn to_right(buffer: &mut [u8; 11520], count: usize, pair: Pair, x: Node) -> usize
    requires { (1 ≤ x.len) × (x.len ≤ 16) × (count + 4 ≤ 960) × NumbersFit pair }
    ensures { UnitsPushed (to_right pair.parent (left_of pair) (right_of pair) (last_of (entries_of x)) (last_of (entries_of x)).key)
        count buffer.old buffer.new result }
{
    let last = x.len - 1;
    let key = x.keys[last];
    let value = x.values[last];
    push_four(
        buffer,
        count,
        unit_of(pair.left, Update::Delete(key)),
        unit_of(pair.right, Update::Insert(key, value)),
        unit_of(pair.parent, Update::Delete(pair.key)),
        unit_of(pair.parent, Update::Insert(key, pair.right)),
    )
}

// Whether units of the three nodes of a pair can be written, `more` of them.
pub fn has_room(count: usize, more: usize, pair: Pair) -> bool
    requires { (count ≤ 960) × (more ≤ 960) }
    ensures { HasRoom count more pair result }
{
    count + more <= 960 && pair.parent < 65536 && pair.left < 65536 && pair.right < 65536
}

// The nearest entry moves over, from the longer one to the shorter. The parent has `len` entries, before and after.
pub fn share(
    buffer: &mut [u8; 11520],
    count: usize,
    pair: Pair,
    len: usize,
    x: Node,
    y: Node,
) -> Fall
    requires { (count ≤ 960) × (x.len ≤ 16) × (y.len ≤ 16) × (16 < x.len + y.len) }
    ensures { Shares pair len (entries_of x) (entries_of y) count buffer.old buffer.new result }
{
    if !has_room(count, 4, pair) {
        return keep(len, count);
    }
    if x.len < y.len {
        let used = to_left(buffer, count, pair, y);
        return keep(len, used);
    }
    let used = to_right(buffer, count, pair, x);
    keep(len, used)
}

// Neighbours `x` and `y`: together 16 or fewer they join, otherwise an entry moves over. The parent has `len` entries.
pub fn balance(
    buffer: &mut [u8; 11520],
    count: usize,
    free: &mut [u64; 4],
    pair: Pair,
    len: usize,
    x: Node,
    y: Node,
) -> Fall
    requires { (count ≤ 960) × (x.len ≤ 16) × (y.len ≤ 16) × (0 < len) × (len ≤ 16) }
    ensures { Balances pair len (entries_of x) (entries_of y) count buffer.old free.old buffer.new free.new result }
{
    let both = x.len + y.len;
    if both > 16 {
        return share(buffer, count, pair, len, x, y);
    }
    if !has_room(count, y.len + 2, pair) {
        return keep(len, count);
    }
    let used = join(buffer, count, free, pair, y);
    Fall {
        lost: true,
        len: len - 1,
        count: used,
    }
}

// Node 0 takes over child `c`, which `m` shows and which is freed. Returns the count after that.
pub fn take_over(
    buffer: &mut [u8; 11520],
    count: usize,
    free: &mut [u64; 4],
    c: u32,
    m: Node,
) -> usize
    requires { (m.len ≤ 16) × (count + m.len + 2 ≤ 960) × (c < 65536) }
    ensures { UnitsPushed (take_over_units m.level c (entries_of m)) count buffer.old buffer.new result × Changes true c free.old free.new }
{
    let used = count + units::put_node(buffer, count, 0, m);
    buffer::push_unit(buffer, used, unit_of(c, Update::Reset(FREED)));
    set::put_in(free, c);
    used + 1
}

// Node 0 becomes a node of `level` with the entries `x` and `y` of its two children, which are freed. Returns the count after that.
pub fn merge(
    buffer: &mut [u8; 11520],
    count: usize,
    free: &mut [u64; 4],
    level: u32,
    pair: Pair,
    x: Node,
    y: Node,
) -> usize
    requires { (x.len ≤ 16) × (y.len ≤ 16) × (count + x.len + y.len + 3 ≤ 960) × NumbersFit pair }
    ensures { Merges level pair (entries_of x) (entries_of y) count buffer.old free.old buffer.new free.new result }
{
    let mut first = x;
    first.level = level;
    let half = count + units::put_node(buffer, count, 0, first);
    units::put_entries(buffer, half, 0, y);
    let used = half + y.len;
    buffer::push_unit(buffer, used, unit_of(pair.left, Update::Reset(FREED)));
    buffer::push_unit(buffer, used + 1, unit_of(pair.right, Update::Reset(FREED)));
    set::put_in(free, pair.left);
    set::put_in(free, pair.right);
    used + 2
}
