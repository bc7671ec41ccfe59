// The whole image: the part that is a page or a block is lent to its operation, and the image is then what the step says.
ghost use Rattle.std.specs.Prelude.{◌≡◌, ◌+◌, ◌*◌, ◌/◌, ◌%◌, ◌<◌, ◌≤◌, length};
ghost use Rattle.chip.specs.Geometry.{Fits, page_size};
ghost use Rattle.chip.specs.Chip.{Op};
ghost use Rattle.chip.specs.RunCode.{Stepped};

use crate::geometry::Geometry;
use crate::page::Mark;
use crate::progress::Progress;
use crate::{block, page, progress};

// One mark of page `at` set.
pub fn set_mark(
    geometry: Geometry,
    image: &mut [u8],
    at: usize,
    mark: Mark,
    torn: &[u8],
    progress: Progress,
) -> Progress
    requires { (at < length image.old / page_size geometry) × (length image.old % page_size geometry ≡ 0) × (length torn.now ≡ page_size geometry) × Fits geometry }
    ensures { Stepped geometry torn.now (Op.mark at mark) progress result image.old image.new }
{
    let size = geometry.area + geometry.spare;
    let a = at * size;
    let e = a + size;
    let power = progress.left;
    let told = page::set_mark(geometry, &mut image[a..e], mark, torn, power);
    progress::after(progress.done, told)
}

// Block `at` erased.
pub fn erase(
    geometry: Geometry,
    image: &mut [u8],
    at: usize,
    torn: &[u8],
    progress: Progress,
) -> Progress
    requires { (at * geometry.pages + geometry.pages ≤ length image.old / page_size geometry) × (length image.old % page_size geometry ≡ 0) × (length torn.now ≡ page_size geometry) × Fits geometry }
    ensures { Stepped geometry torn.now (Op.erase at) progress result image.old image.new }
{
    let size = geometry.pages * (geometry.area + geometry.spare);
    let a = at * size;
    let e = a + size;
    let power = progress.left;
    let told = block::erase(geometry, &mut image[a..e], torn, power);
    progress::after(progress.done, told)
}
