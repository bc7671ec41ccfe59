// What a commit would cost: its plan made from image and state, and not carried out.
ghost use Rattle.std.specs.Prelude.{◌≡◌, ◌*◌, ◌≤◌, length};
ghost use Rattle.chip.specs.Geometry.{Fits, block_size};
ghost use Rattle.chip.specs.Chip.{pages_of};
ghost use Rattle.commits.specs.ExecuteCode.{Costs};

use chip::progress::Counts;
use plan::make;
use plan::make::Basis;

// The cost of a commit of the units of the buffer: a data program and two marks for each page of its plan, and its erases.
// None where the commit would be stuck.
pub fn forecast(
    image: &[u8],
    lens: &[u32; 256],
    slots: &[u32; 1024],
    buffer: &[u8; 11520],
    basis: Basis,
) -> Option<Counts>
    requires { (length image.now ≡ basis.blocks * block_size basis.geometry) × (3 ≤ basis.blocks) × (basis.blocks ≤ 32) × (basis.count ≤ 960) × Fits basis.geometry }
    ensures { Costs basis.geometry (8 * basis.blocks) basis.blocks lens.now slots.now basis.count buffer.now basis.commit
        (pages_of basis.geometry image.now) result }
{
    let mut targets = [0; 256];
    let mut sizes = [0; 256];
    let mut units = [0; 52224];
    let plan = make::make(
        image,
        lens,
        slots,
        buffer,
        basis,
        &mut targets,
        &mut sizes,
        &mut units,
    )?;
    let pages = plan.pages as u32;
    let erases = plan.erases as u32;
    Some(Counts {
        programs: pages,
        marks: 2 * pages,
        erases,
    })
}
