// The nodes that a commit may write: which must be written anew, how many units each is, and these units.
ghost use Rattle.std.specs.Prelude.{◌≡◌, Bool, Some, ℕ, ◌<◌, ◌≤◌, get_or, length, replicate};
ghost use Rattle.std.specs.List.{list_any};
ghost use Rattle.lists.specs.Lists.{bit};
ghost use Rattle.chip.specs.Geometry.{Fits};
ghost use Rattle.chip.specs.Chip.{pages_of, in_block};
ghost use Rattle.views.specs.Stored.{node_view, stored_list};
ghost use Rattle.journal.specs.Plan.{rewrite};
ghost use Rattle.contents.specs.ContentsCode.{AllRead, FillsArray, KeepsRead, ReadsNodes, Measured, Tallied, Tells, contents_in, in_oldest, is_forced_by, is_read};

use crate::read;
use chip::geometry::Geometry;
use views::nodes::Nodes;
use views::view;

// Is the page in this block?
fn is_in_block(geometry: Geometry, page: u32, block: usize) -> bool
    requires { (block < 4294967296) × Fits geometry }
    ensures { result ≡ in_block geometry block page }
{
    let first = block * geometry.pages;
    (first..first + geometry.pages).contains(&(page as usize))
}

// Is one of these pages in this block?
fn has_page_in(geometry: Geometry, list: &[u32], block: usize) -> bool
    requires { (block < 4294967296) × Fits geometry }
    ensures { result ≡ list_any (in_block geometry block) list.now }
{
    list.iter().any(|page| is_in_block(geometry, *page, block))
}

// Is a page of the node's list in the oldest block? None is where there is no such block.
fn is_of_oldest(nodes: Nodes<'_>, node: u32, oldest: Option<usize>) -> bool
    requires { (node < 256) × ((b : ℕ) → oldest ≡ Some b → b < 4294967296) }
    ensures { let ns = nodes.entry in result ≡ in_oldest ns.geometry oldest (stored_list ns.lens.now ns.slots.now node) }
{
    let Some(block) = oldest else {
        return false;
    };
    let lens = nodes.lens;
    let slots = nodes.slots;
    let used = view::used_slots(lens, slots, node);
    let first = 4 * node as usize;
    has_page_in(nodes.geometry, &slots[first..first + used], block)
}

// The nodes whose lists have a page in the oldest block marked. A mark is 0 or 1, a number, as the promises of a plan (`is_marked`) read it.
fn mark_olds(nodes: Nodes<'_>, oldest: Option<usize>, olds: &mut [u32])
    requires { (nodes.limit ≤ 256) × (length olds.old ≡ 256) × ((b : ℕ) → oldest ≡ Some b → b < 4294967296) }
    ensures { let ns = nodes.entry in FillsArray ns.limit (λ (n : ℕ). bit (in_oldest ns.geometry oldest (stored_list ns.lens.now ns.slots.now n)))
        olds.old olds.new }
{
    for n in 0..nodes.limit {
        olds[n as usize] = u32::from(is_of_oldest(nodes, n, oldest));
    }
}

// Has the node buffered units, or is it of the oldest block?
fn is_read(parts: &[u32], olds: &[u32], number: u32) -> bool
    requires { (length parts.now ≡ 256) × (length olds.now ≡ 256) × (number < 256) }
    ensures { result ≡ is_read parts.now olds.now number }
{
    let n = number as usize;
    parts[n] > 0 || olds[n] == 1
}

// The nodes that `wanted` tells read, their units kept and counted.
fn read_nodes<F: Fn(u32) -> bool>(
    nodes: Nodes<'_>,
    buffer: &[u8; 11520],
    count: usize,
    wanted: F,
    wholes: &mut [u32],
    units: &mut [u8],
)
    requires state { (nodes.limit ≤ 256) × (length wholes.old ≡ 256) × (length units.old ≡ 52224) }
    requires asked { (n : ℕ) → n < 256 → F.pre wanted n }
    ensures { let ns = nodes.entry in (w : ℕ → Bool) → Tells (F.post wanted) w → ReadsNodes ns.limit w
        (λ (n : ℕ). rewrite (node_view ns.geometry ns.limit (pages_of ns.geometry ns.image.now) ns.lens.now ns.slots.now count buffer.now n))
        wholes.old wholes.new units.old units.new }
{
    for n in 0..nodes.limit {
        if wanted(n) {
            wholes[n as usize] = read::keep_node(nodes, buffer, count, n, units);
        }
    }
}

// Must a node be written anew? It must with buffered units and a reset among them, or no more units anew, or 4 pages in its list.
fn is_forced(reset: u32, part: u32, whole: u32, pages: usize) -> bool
    ensures { result ≡ is_forced_by reset part whole pages }
{
    part > 0 && (reset == 1 || whole <= part || pages >= 4)
}

// The mark of each node's reset made the mark that it must be written anew.
fn mark_forms(nodes: Nodes<'_>, parts: &[u32], wholes: &[u32], forms: &mut [u32])
    requires { (nodes.limit ≤ 256) × (length parts.now ≡ 256) × (length wholes.now ≡ 256) × (length forms.old ≡ 256) }
    ensures { let ns = nodes.entry in FillsArray ns.limit (λ (n : ℕ). bit (is_forced_by (get_or forms.old n 0) (get_or parts.now n 0) (get_or wholes.now n 0)
        (length (stored_list ns.lens.now ns.slots.now n)))) forms.old forms.new }
{
    let lens = nodes.lens;
    let slots = nodes.slots;
    for number in 0..nodes.limit {
        let n = number as usize;
        let pages = view::used_slots(lens, slots, number);
        let forced = is_forced(forms[n], parts[n], wholes[n], pages);
        forms[n] = u32::from(forced);
    }
}

// The nodes with buffered units and those of the oldest block read, each once; `forms` comes in as the marks of a reset.
pub fn measure(
    nodes: Nodes<'_>,
    buffer: &[u8; 11520],
    count: usize,
    oldest: Option<usize>,
    parts: &[u32; 256],
    forms: &mut [u32; 256],
    wholes: &mut [u32; 256],
    olds: &mut [u32; 256],
    units: &mut [u8; 52224],
)
    requires { (nodes.limit ≤ 256) × Tallied nodes.limit count buffer.now parts.now forms.old
        × (wholes.old ≡ replicate 256 0) × ((b : ℕ) → oldest ≡ Some b → b < 4294967296) }
    ensures { let ns = nodes.entry in Measured ns.geometry ns.limit oldest
        (contents_in ns.geometry ns.limit (pages_of ns.geometry ns.image.now) ns.lens.now ns.slots.now count buffer.now)
        parts.now forms.old forms.new wholes.new olds.new units.new }
{
    mark_olds(nodes, oldest, olds);
    read_nodes(
        nodes,
        buffer,
        count,
        |n| is_read(parts, olds, n),
        wholes,
        units,
    );
    mark_forms(nodes, parts, wholes, forms);
}

// For a snapshot: every node that was not read yet is read, each once, and every node marked.
pub fn measure_rest(
    nodes: Nodes<'_>,
    buffer: &[u8; 11520],
    count: usize,
    parts: &[u32; 256],
    forms: &mut [u32; 256],
    wholes: &mut [u32; 256],
    olds: &[u32; 256],
    units: &mut [u8; 52224],
)
    requires { (nodes.limit ≤ 256)
        × KeepsRead nodes.limit (contents_in nodes.geometry nodes.limit (pages_of nodes.geometry nodes.image.now)
        nodes.lens.now nodes.slots.now count buffer.now)
        parts.now wholes.old olds.now units.old }
    ensures { let ns = nodes.entry in AllRead ns.limit
        (contents_in ns.geometry ns.limit (pages_of ns.geometry ns.image.now) ns.lens.now ns.slots.now count buffer.now)
        forms.new wholes.new units.new }
{
    read_nodes(
        nodes,
        buffer,
        count,
        |n| !is_read(parts, olds, n),
        wholes,
        units,
    );
    forms[..nodes.limit as usize].fill(1);
}
