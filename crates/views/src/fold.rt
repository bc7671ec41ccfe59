// One node while its units are folded: its entries stand in two lent arrays, and all else of its view is a small struct.
ghost use Rattle.std.specs.Prelude.{◌≡◌, true, Some, ◌*◌, ◌≤◌, length};
ghost use Rattle.pages.specs.Units.{decodes};
ghost use Rattle.pages.specs.declared.unit.Update.TheVariants.{Insert, Delete};
ghost use Rattle.views.specs.Nodes.{apply};
ghost use Rattle.views.specs.FoldCode.{view_in, StandsIn, IsReset, IsLaid, IsPassed, Skips};
ghost use Rattle.views.specs.Stored.{turn_view, view_over};

use crate::node;
use crate::node::Node;
use pages::unit::{Unit, Update, decode_unit, is_reset_value, read_half, read_word};

// No unit yet; freed by its last reset; units without a reset or after one that frees, or above 16 entries since the last one; a level and entries.
#[derive(Clone, Copy)]
pub enum Stage {
    Untouched,
    Freed,
    Broken,
    Full,
}

// A node's view so far: its stage, and where that is full the node. A variant with the node would be copied at each unit (docs/DECISIONS.md 45).
#[derive(Clone, Copy)]
pub struct Folded {
    pub stage: Stage,
    pub node: Node,
}

// A node's view so far, but for its entries: its stage, and where that is full its level and how many entries it has.
#[derive(Clone, Copy)]
pub struct Shape {
    pub stage: Stage,
    pub level: u32,
    pub len: usize,
}

// A broken view; what the arrays hold does not count.
pub fn spoil(s: Shape) -> Shape
    requires { s.len ≤ 16 }
    ensures { (result.stage ≡ Stage.Broken) × (result.len ≤ 16) }
{
    Shape {
        stage: Stage::Broken,
        level: s.level,
        len: s.len,
    }
}

// An entry put in: a 17th entry breaks the view.
fn insert(s: Shape, keys: &mut [u32], values: &mut [u32], key: u32, value: u32) -> Shape
    requires { (length keys.old ≡ 17) × (length values.old ≡ 17) × (s.len ≤ 16) }
    ensures { StandsIn result keys.new values.new (apply (view_in s keys.old values.old) (Insert key value)) }
{
    match s.stage {
        Stage::Full => {
            let len = node::put(keys, values, s.len, key, value);
            if len <= 16 {
                Shape {
                    stage: Stage::Full,
                    level: s.level,
                    len,
                }
            } else {
                spoil(s)
            }
        }
        _ => spoil(s),
    }
}

// An entry taken out.
fn delete(s: Shape, keys: &mut [u32], values: &mut [u32], key: u32) -> Shape
    requires { (length keys.old ≡ 17) × (length values.old ≡ 17) × (s.len ≤ 16) }
    ensures { StandsIn result keys.new values.new (apply (view_in s keys.old values.old) (Delete key)) }
{
    match s.stage {
        Stage::Full => {
            let len = node::take_out(keys, values, s.len, key);
            Shape {
                stage: Stage::Full,
                level: s.level,
                len,
            }
        }
        _ => spoil(s),
    }
}

// A node after a reset: without entries, or freed.
fn reset(value: u32) -> Shape
    ensures { IsReset value result }
{
    if value == 255 {
        return Shape {
            stage: Stage::Freed,
            level: 0,
            len: 0,
        };
    }
    Shape {
        stage: Stage::Full,
        level: value,
        len: 0,
    }
}

// A node after one more of its units.
fn apply(s: Shape, keys: &mut [u32], values: &mut [u32], u: Update) -> Shape
    requires { (length keys.old ≡ 17) × (length values.old ≡ 17) × (s.len ≤ 16) }
    ensures { StandsIn result keys.new values.new (apply (view_in s keys.old values.old) u) }
{
    match u {
        Update::Insert(key, value) => insert(s, keys, values, key, value),
        Update::Delete(key) => delete(s, keys, values, key),
        Update::Reset(value) => reset(value),
    }
}

// A node after one more unit, which counts where it is of `node`. Another node's unit gives the shape back field by field, without its padding.
fn turn(s: Shape, keys: &mut [u32], values: &mut [u32], u: Unit, node: u32) -> Shape
    requires { (length keys.old ≡ 17) × (length values.old ≡ 17) × (s.len ≤ 16) }
    ensures { StandsIn result keys.new values.new (turn_view node (view_in s keys.old values.old) (Some u)) }
{
    if u.node == node {
        apply(s, keys, values, u.update)
    } else {
        Shape {
            stage: s.stage,
            level: s.level,
            len: s.len,
        }
    }
}

// Do kind, key and value obey the layout? Of an insert only the kind is read.
fn is_laid(bytes: &[u8]) -> bool
    requires { 12 ≤ length bytes.now }
    ensures { result ≡ true → IsLaid bytes.now }
{
    match bytes[0] {
        1 => true,
        2 => read_word(bytes, 8) == 0,
        3 => read_word(bytes, 4) == 0 && is_reset_value(read_word(bytes, 8)),
        _ => false,
    }
}

// Is this a unit of another node? It is tested, and not decoded.
fn is_passed(bytes: &[u8], node: u32, limit: u32) -> bool
    requires { 12 ≤ length bytes.now }
    ensures { result ≡ true → IsPassed limit node bytes.now }
{
    let n = read_half(bytes, 2);
    if bytes[1] != 0 || n == node || n >= limit {
        return false;
    }
    is_laid(bytes)
}

// The first of the units from `from` on that is not one of another node; `count` where there is none.
fn skip(units: &[u8], from: usize, count: usize, node: u32, limit: u32) -> usize
    requires { (12 * count ≤ length units.now) × (from ≤ count) }
    ensures { Skips limit node units.now count from result }
{
    for i in from..count {
        if !is_passed(&units[12 * i..], node, limit) {
            return i;
        }
    }
    count
}

// A node after the first `count` units, of which those of `node` count; broken where 12 bytes are no unit.
pub fn fold_units(
    s: Shape,
    keys: &mut [u32],
    values: &mut [u32],
    units: &[u8],
    count: usize,
    node: u32,
    limit: u32,
) -> Shape
    requires { (length keys.old ≡ 17) × (length values.old ≡ 17) × (s.len ≤ 16) × (12 * count ≤ length units.now) }
    ensures { StandsIn result keys.new values.new
        (view_over node (view_in s keys.old values.old) (decodes limit count units.now)) }
{
    let mut g = s;
    // Not a `for`: `skip` moves the index past the units of other nodes, which are not decoded (docs/DECISIONS.md 66).
    let mut i = skip(units, 0, count, node, limit);
    while i < count {
        let Some(u) = decode_unit(&units[12 * i..], limit) else {
            return spoil(g);
        };
        g = turn(g, keys, values, u, node);
        i = skip(units, i + 1, count, node, limit);
    }
    g
}
