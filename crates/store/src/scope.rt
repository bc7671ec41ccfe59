// The nodes of a state, and what the plan of a commit is made from.
ghost use Rattle.std.specs.Prelude.{◌≡◌, ◌*◌, length};
ghost use Rattle.chip.specs.Geometry.{geometry_of};
ghost use Rattle.store.specs.AdmitCode.{ChipOf};
ghost use Rattle.store.specs.Parts.{basis_of};

use crate::state::Numbers;
use chip::geometry;
use plan::make::Basis;
use views::nodes::Nodes;

// The nodes of a state with these numbers, whose arrays and image are lent: node numbers are below 8 × B.
pub fn nodes_of<'a>(
    numbers: Numbers,
    image: &'a [u8],
    lens: &'a [u32; 256],
    slots: &'a [u32; 1024],
) -> Nodes<'a>
    requires { ChipOf (geometry_of numbers.nand) numbers.blocks (length image.now) }
    ensures { (result.geometry ≡ geometry_of numbers.nand) × (result.limit ≡ 8 * numbers.blocks) × (result.image.now ≡ image.now)
        × (result.lens.now ≡ lens.now) × (result.slots.now ≡ slots.now) }
{
    let nand = numbers.nand;
    let geometry = geometry::geometry_of(nand);
    Nodes {
        geometry,
        image,
        lens,
        slots,
        limit: (8 * numbers.blocks) as u32,
    }
}

// What the plan of a commit on a state with these numbers is made from.
pub fn basis_of(numbers: Numbers) -> Basis
    ensures { result ≡ basis_of numbers }
{
    let nand = numbers.nand;
    let geometry = geometry::geometry_of(nand);
    Basis {
        geometry,
        count: numbers.count,
        blocks: numbers.blocks,
        commit: numbers.commit,
    }
}
