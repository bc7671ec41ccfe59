// A node written as units, one after the other: inserts of its entries, behind a reset where it is written anew.
ghost use Rattle.std.specs.Prelude.{◌≡◌, ◌+◌, ◌*◌, ◌<◌, ◌≤◌, length};
ghost use Rattle.views.specs.NodeCode.{entries_of};
ghost use Rattle.views.specs.PassCode.{pushed, entry_units, node_units};

use crate::node::Node;
use pages::unit::{Unit, Update, put_unit};

// An insert for each entry of a node, written from unit `at` on.
pub fn put_entries(units: &mut [u8], at: usize, number: u32, node: Node)
    requires { (number < 65536) × (node.len ≤ 17) × (12 * (at + node.len) ≤ length units.old) }
    ensures { (units.new ≡ pushed units.old at (entry_units number (entries_of node))) × (length (entries_of node) ≡ node.len) }
{
    for i in 0..node.len {
        put_unit(
            units,
            12 * (at + i),
            Unit {
                node: number,
                update: Update::Insert(node.keys[i], node.values[i]),
            },
        );
    }
}

// A node written anew from unit `at` on: a reset and its entries. Returns how many units that is.
pub fn put_node(units: &mut [u8], at: usize, number: u32, node: Node) -> usize
    requires { (number < 65536) × (node.len ≤ 17) × (12 * (at + 1 + node.len) ≤ length units.old) }
    ensures { (units.new ≡ pushed units.old at (node_units number node)) × (result ≡ node.len + 1) × (length (entries_of node) ≡ node.len) }
{
    put_unit(
        units,
        12 * at,
        Unit {
            node: number,
            update: Update::Reset(node.level),
        },
    );
    put_entries(units, at + 1, number, node);
    node.len + 1
}
