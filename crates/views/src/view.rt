// A node's view read again: from the pages of its list, the oldest first, and then from the buffer.
ghost use Rattle.std.specs.Prelude.{◌≡◌, cond, [], ◌+◌, ◌*◌, ◌<◌, ◌≤◌, length, get_or};
ghost use Rattle.chip.specs.Geometry.{Fits, page_size};
ghost use Rattle.chip.specs.Chip.{pages_of};
ghost use Rattle.views.specs.FoldCode.{view_in, folded_in, Stands, StandsIn, is_freed_stage};
ghost use Rattle.views.specs.Stored.{stored_list, page_view, list_view, buffer_view, node_view};
ghost use Rattle.views.specs.ReadCode.{ReadNode};

use crate::fold;
use crate::fold::{Folded, Shape, Stage};
use crate::node::Node;
use crate::nodes::Nodes;
use chip::geometry::Geometry;
use pages::unit;

// A node's view, and its length on flash: how many pages its list has, none where they leave it freed.
#[derive(Clone, Copy)]
pub struct Reading {
    pub folded: Folded,
    pub pages: u32,
}

// A node after the units of a page; broken where the page claims more units than it holds.
fn page_view(
    geometry: Geometry,
    s: Shape,
    keys: &mut [u32],
    values: &mut [u32],
    page: &[u8],
    node: u32,
    limit: u32,
) -> Shape
    requires { (length keys.old ≡ 17) × (length values.old ≡ 17) × (s.len ≤ 16) × (length page.now ≡ page_size geometry) × Fits geometry }
    ensures { StandsIn result keys.new values.new
        (page_view geometry limit node (view_in s keys.old values.old) page.now) }
{
    let units = unit::read_half(page, 6) as usize;
    let area = geometry.area;
    if units <= geometry.units {
        fold::fold_units(s, keys, values, &page[8..area], units, node, limit)
    } else {
        fold::spoil(s)
    }
}

// A node after the units of page `at`; a page that is not on the chip adds nothing.
fn place_view(
    nodes: Nodes<'_>,
    s: Shape,
    keys: &mut [u32],
    values: &mut [u32],
    at: u32,
    number: u32,
) -> Shape
    requires { (length keys.old ≡ 17) × (length values.old ≡ 17) × (s.len ≤ 16) }
    ensures { let n = nodes.entry in StandsIn result keys.new values.new (page_view n.geometry n.limit number (view_in s keys.old values.old)
        (get_or (pages_of n.geometry n.image.now) at [])) }
{
    let geometry = nodes.geometry;
    let image = nodes.image;
    let p = at as usize;
    let size = geometry.area + geometry.spare;
    if p < image.len() / size {
        let a = p * size;
        let e = a + size;
        page_view(geometry, s, keys, values, &image[a..e], number, nodes.limit)
    } else {
        s
    }
}

// How many slots of `node` count, which is how many pages its list has: at most 4, and none past the last node.
pub fn used_slots(lens: &[u32], slots: &[u32], node: u32) -> usize
    requires { (length lens.now ≡ 256) × (length slots.now ≡ 1024) }
    ensures { (result ≡ length (stored_list lens.now slots.now node)) × (result ≤ 4) }
{
    let n = node as usize;
    if n < 256 {
        (lens[n] as usize).min(4)
    } else {
        0
    }
}

// The page in slot `i` of `node`.
fn slot(slots: &[u32], node: u32, i: usize) -> u32
    requires { (length slots.now ≡ 1024) × (node < 256) × (i < 4) }
    ensures { result ≡ get_or slots.now (4 * node + i) 0 }
{
    let base = 4 * (node as usize);
    slots[base + i]
}

// The view of a node from the pages of its list, its entries put into `keys` and `values`.
fn slots_view(nodes: Nodes<'_>, keys: &mut [u32], values: &mut [u32], number: u32) -> Shape
    requires { (length keys.old ≡ 17) × (length values.old ≡ 17) }
    ensures { let n = nodes.entry in StandsIn result keys.new values.new (list_view n.geometry n.limit (pages_of n.geometry n.image.now) number
        (stored_list n.lens.now n.slots.now number)) }
{
    let lens = nodes.lens;
    let slots = nodes.slots;
    let used = used_slots(lens, slots, number);
    let mut s = Shape {
        stage: Stage::Untouched,
        level: 0,
        len: 0,
    };
    for i in 0..used {
        let at = slot(slots, number, i);
        s = place_view(nodes, s, keys, values, at, number);
    }
    s
}

// A view with its entries.
fn whole(s: Shape, keys: [u32; 17], values: [u32; 17]) -> Folded
    ensures { result ≡ folded_in s keys values }
{
    let stage = s.stage;
    let node = Node {
        level: s.level,
        len: s.len,
        keys,
        values,
    };
    Folded { stage, node }
}

// The view of a node from the pages of its list, the oldest first.
pub fn list_view(nodes: Nodes<'_>, number: u32) -> Folded
    ensures { let n = nodes.entry in Stands result (list_view n.geometry n.limit (pages_of n.geometry n.image.now) number
        (stored_list n.lens.now n.slots.now number)) }
{
    let mut keys: [u32; 17] = [0; 17];
    let mut values: [u32; 17] = [0; 17];
    let s = slots_view(nodes, &mut keys, &mut values, number);
    whole(s, keys, values)
}

// A node after the units of the buffer; broken where the buffer claims more than 960.
fn buffer_view(
    s: Shape,
    keys: &mut [u32],
    values: &mut [u32],
    buffer: &[u8; 11520],
    count: usize,
    node: u32,
    limit: u32,
) -> Shape
    requires { (length keys.old ≡ 17) × (length values.old ≡ 17) × (s.len ≤ 16) }
    ensures { StandsIn result keys.new values.new
        (buffer_view limit node count buffer.now (view_in s keys.old values.old)) }
{
    if count <= 960 {
        fold::fold_units(s, keys, values, buffer, count, node, limit)
    } else {
        fold::spoil(s)
    }
}

// How many pages the list of a node has that its pages leave in `stage`; none where it is freed.
fn counted_pages(stage: Stage, used: usize) -> u32
    requires { used ≤ 4 }
    ensures { (result ≡ cond (is_freed_stage stage) 0 used) × (result ≤ 4) }
{
    match stage {
        Stage::Freed => 0,
        _ => used as u32,
    }
}

// The view of a node: from its pages, and then from the first `count` units of the buffer; and its length on flash.
pub fn read_node(nodes: Nodes<'_>, buffer: &[u8; 11520], count: usize, number: u32) -> Reading
    ensures { let n = nodes.entry in ReadNode n.geometry n.limit (pages_of n.geometry n.image.now) n.lens.now n.slots.now count buffer.now
        number result }
{
    let mut keys: [u32; 17] = [0; 17];
    let mut values: [u32; 17] = [0; 17];
    let s = slots_view(nodes, &mut keys, &mut values, number);
    let lens = nodes.lens;
    let slots = nodes.slots;
    let used = used_slots(lens, slots, number);
    let stage = s.stage;
    let pages = counted_pages(stage, used);
    let t = buffer_view(
        s,
        &mut keys,
        &mut values,
        buffer,
        count,
        number,
        nodes.limit,
    );
    let folded = whole(t, keys, values);
    Reading { folded, pages }
}

// The view of a node alone.
pub fn node_view(nodes: Nodes<'_>, buffer: &[u8; 11520], count: usize, number: u32) -> Folded
    ensures { let n = nodes.entry in Stands result (node_view n.geometry n.limit (pages_of n.geometry n.image.now) n.lens.now n.slots.now count
        buffer.now number) }
{
    let r = read_node(nodes, buffer, count, number);
    r.folded
}
