// Format: all blocks erased, and commit 1 written into the first page.
ghost use Rattle.std.specs.Prelude.{◌≡◌, ◌*◌, ◌/◌, ◌%◌, ◌<◌, ◌≤◌, length};
ghost use Rattle.lists.specs.Lists.{tab};
ghost use Rattle.chip.specs.Geometry.{Fits, page_size, block_size};
ghost use Rattle.chip.specs.Chip.{Op};
ghost use Rattle.chip.specs.RunCode.{Ran};
ghost use Rattle.pages.specs.Write.{writes};
ghost use Rattle.journal.specs.Format.{format_data, format_ops};

use chip::geometry::{AREA, Geometry};
use chip::image;
use chip::progress::Progress;
use pages::unit::{Unit, Update};
use pages::{header, unit, write};

// All blocks erased, lowest first.
fn erase_all(
    geometry: Geometry,
    image: &mut [u8],
    blocks: usize,
    torn: &[u8],
    progress: Progress,
) -> Progress
    requires { (length image.old ≡ blocks * block_size geometry) × (length torn.now ≡ page_size geometry) × Fits geometry }
    ensures { Ran geometry torn.now (tab 0 blocks Op.erase) progress result image.old image.new }
{
    let mut reached = progress;
    for b in 0..blocks {
        reached = image::erase(geometry, image, b, torn, reached);
    }
    reached
}

// Commit 1 written into the first page: page 0 of 1, node 0 reset at level 0. Its data is laid out in `page`.
fn write_first(
    geometry: Geometry,
    image: &mut [u8],
    page: &mut [u8],
    torn: &[u8],
    progress: Progress,
) -> Progress
    requires { (0 < length image.old / page_size geometry) × (length image.old % page_size geometry ≡ 0) × (length page.old ≡ geometry.area)
        × (length torn.now ≡ page_size geometry) × Fits geometry }
    ensures { Ran geometry torn.now (writes 0 (format_data geometry)) progress result image.old image.new }
{
    let reset = unit::encode_unit(Unit {
        node: 0,
        update: Update::Reset(0),
    });
    header::lay_out(geometry, page, 1, 0, 1, 1, &reset);
    write::write_at(geometry, image, 0, page, torn, progress)
}

// The operations of a format, in order, as far as the power goes.
pub fn format(
    geometry: Geometry,
    image: &mut [u8],
    blocks: usize,
    torn: &[u8],
    progress: Progress,
) -> Progress
    requires { (length image.old ≡ blocks * block_size geometry) × (1 ≤ blocks) × (length torn.now ≡ page_size geometry) × Fits geometry }
    ensures { Ran geometry torn.now (format_ops geometry blocks) progress result image.old image.new }
{
    let area = geometry.area;
    let mut page = [255; AREA];
    let erased = erase_all(geometry, image, blocks, torn, progress);
    write_first(geometry, image, &mut page[0..area], torn, erased)
}
