// Block report: how many pages of a block are free, the first free one, and the erases of the block.
ghost use Rattle.std.specs.Prelude.{List, ℕ};
ghost use Rattle.store.specs.Ensured.{Reports};
ghost use Rattle.store.specs.Parts.{joined, with_free};

use crate::answer::{Refusal, Report};
use crate::state::{Numbers, State};
use crate::{admit, state};
use chip::{block, geometry};

// The free pages and the erases of block `at`, whatever the free numbers, the buffer and the node table; 4 where it is not on the chip.
pub fn block_report_lent(
    numbers: Numbers,
    erases: &[u64; 32],
    image: &[u8],
    at: u32,
) -> Result<Report, Refusal>
    ensures { (free buffer lens slots : List ℕ) → Reports at (joined (with_free numbers free) buffer lens slots erases.now) image.now result }
{
    admit::admit(numbers, image.len())?;
    let b = at as usize;
    if b >= numbers.blocks {
        return Err(Refusal::Absent);
    }
    let nand = numbers.nand;
    let geometry = geometry::geometry_of(nand);
    let size = geometry.pages * (geometry.area + geometry.spare);
    let a = b * size;
    let e = a + size;
    let found = block::free_pages(geometry, &image[a..e]);
    Ok(Report {
        free: found.count,
        first: found.first,
        erases: erases[b],
    })
}

// Block report on a state by value.
pub fn block_report(state: State, image: &[u8], at: u32) -> Result<Report, Refusal>
    ensures { Reports at state image.now result }
{
    let numbers = state::numbers_of(state);
    block_report_lent(numbers, &state.erases, image, at)
}
