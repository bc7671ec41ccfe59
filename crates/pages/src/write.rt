// Writing a page: used mark, data, valid mark.
ghost use Rattle.std.specs.Prelude.{◌≡◌, ◌/◌, ◌%◌, ◌<◌, length};
ghost use Rattle.chip.specs.Geometry.{Fits, page_size};
ghost use Rattle.chip.specs.RunCode.{Ran};
ghost use Rattle.pages.specs.Write.{writes};
ghost use Rattle.pages.specs.WriteCode.{PageWritten};

use chip::geometry::Geometry;
use chip::page::Mark;
use chip::progress::Progress;
use chip::{page, progress};

// The three operations on the part of the image that is the page.
pub fn write_page(
    geometry: Geometry,
    page: &mut [u8],
    bytes: &[u8],
    torn: &[u8],
    progress: Progress,
) -> Progress
    requires { (length page.old ≡ page_size geometry) × (length bytes.now ≡ geometry.area)
        × (length torn.now ≡ page_size geometry) × Fits geometry }
    ensures { PageWritten geometry torn.now bytes.now progress result page.old page.new }
{
    let power = progress.left;
    let used = progress::after(
        progress.done,
        page::set_mark(geometry, page, Mark::Used, torn, power),
    );
    let power = used.left;
    let filled = progress::after(used.done, page::program(geometry, page, bytes, torn, power));
    let power = filled.left;
    progress::after(
        filled.done,
        page::set_mark(geometry, page, Mark::Valid, torn, power),
    )
}

// Page `at` of the image written: its part is lent once.
pub fn write_at(
    geometry: Geometry,
    image: &mut [u8],
    at: usize,
    bytes: &[u8],
    torn: &[u8],
    progress: Progress,
) -> Progress
    requires { (at < length image.old / page_size geometry) × (length image.old % page_size geometry ≡ 0)
        × (length bytes.now ≡ geometry.area) × (length torn.now ≡ page_size geometry) × Fits geometry }
    ensures { Ran geometry torn.now (writes at bytes.now) progress result image.old image.new }
{
    let size = geometry.area + geometry.spare;
    let a = at * size;
    let e = a + size;
    write_page(geometry, &mut image[a..e], bytes, torn, progress)
}
