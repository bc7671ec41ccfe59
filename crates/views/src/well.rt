// Which nodes pass steps 4 and 5: a list of at most 4 pages, and a view that is not broken.
ghost use Rattle.std.specs.Prelude.{◌≡◌, ◌≤◌};
ghost use Rattle.chip.specs.Chip.{pages_of};
ghost use Rattle.views.specs.FoldCode.{view_of};
ghost use Rattle.views.specs.Table.{is_whole};
ghost use Rattle.views.specs.WellCode.{all_well_stored, well_stored};

use crate::fold::{Folded, Stage};
use crate::nodes::Nodes;
use crate::view;

// Is this view not a broken one?
fn is_whole(f: Folded) -> bool
    ensures { result ≡ is_whole (view_of f) }
{
    !matches!(f.stage, Stage::Broken)
}

// Does a node pass?
fn is_well(nodes: Nodes<'_>, number: usize) -> bool
    requires { number ≤ 255 }
    ensures { let n = nodes.entry in result ≡ well_stored n.geometry n.limit (pages_of n.geometry n.image.now) n.lens.now n.slots.now number }
{
    let lens = nodes.lens;
    if lens[number] > 4 {
        return false;
    }
    let f = view::list_view(nodes, number as u32);
    is_whole(f)
}

// Do all nodes pass? The last one is read first.
pub fn all_well(nodes: Nodes<'_>) -> bool
    requires { nodes.limit ≤ 256 }
    ensures { let n = nodes.entry in result ≡ all_well_stored n.geometry n.limit (pages_of n.geometry n.image.now) n.lens.now n.slots.now }
{
    for n in (0..nodes.limit as usize).rev() {
        if !is_well(nodes, n) {
            return false;
        }
    }
    true
}
