// A node read, and its units kept at its place.
ghost use Rattle.std.specs.Prelude.{◌≡◌, ◌<◌, ◌≤◌, length};
ghost use Rattle.chip.specs.Chip.{pages_of};
ghost use Rattle.views.specs.FoldCode.{view_of};
ghost use Rattle.views.specs.Stored.{node_view};
ghost use Rattle.journal.specs.Plan.{rewrite};
ghost use Rattle.contents.specs.ContentsCode.{Keeps};

use views::fold::{Folded, Stage};
use views::nodes::Nodes;
use views::units::put_node;
use views::{node, view};

// A view kept at the place of node `number`, a freed one as its reset: nothing of one that is untouched or broken. Returns how many units there are.
pub fn keep_view(f: Folded, number: u32, units: &mut [u8]) -> u32
    requires { (f.node.len ≤ 16) × (number < 256) × (length units.old ≡ 52224) }
    ensures { Keeps number (rewrite (view_of f)) units.old units.new result }
{
    match f.stage {
        Stage::Untouched | Stage::Broken => 0,
        Stage::Freed => put_node(units, 17 * (number as usize), number, node::reset(255)) as u32,
        Stage::Full => put_node(units, 17 * (number as usize), number, f.node) as u32,
    }
}

// Node `number` read, and its units kept where it has a view: a reset and an insert for each entry. Returns how many there are.
pub fn keep_node(
    nodes: Nodes<'_>,
    buffer: &[u8; 11520],
    count: usize,
    number: u32,
    units: &mut [u8],
) -> u32
    requires { (number < 256) × (length units.old ≡ 52224) }
    ensures { let ns = nodes.entry in Keeps number
        (rewrite (node_view ns.geometry ns.limit (pages_of ns.geometry ns.image.now) ns.lens.now ns.slots.now count buffer.now number))
        units.old units.new result }
{
    let f = view::node_view(nodes, buffer, count, number);
    keep_view(f, number, units)
}
