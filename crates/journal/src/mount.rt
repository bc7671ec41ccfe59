// The marks of a mount: the obsolete mark of each page of the void commit, lowest place first.
ghost use Rattle.std.specs.Prelude.{◌≡◌, [], ◌/◌, ◌%◌, ◌<◌, get_or, length};
ghost use Rattle.chip.specs.Geometry.{Fits, page_size};
ghost use Rattle.chip.specs.Chip.{pages_of};
ghost use Rattle.chip.specs.RunCode.{Ran};
ghost use Rattle.journal.specs.MountCode.{is_of, marks_of, retire_one, retire_ops};

use chip::geometry::Geometry;
use chip::page::Mark;
use chip::progress::Progress;
use chip::{image, page};
use pages::unit;

// Is this a live page of the commit?
fn is_of(geometry: Geometry, page: &[u8], commit: u32) -> bool
    requires { (length page.now ≡ page_size geometry) × Fits geometry }
    ensures { result ≡ is_of geometry commit page.now }
{
    page::is_live(geometry, page) && unit::read_word(page, 0) == commit
}

// Page `at` marked, if it is a live page of the commit.
fn retire_at(
    geometry: Geometry,
    image: &mut [u8],
    at: usize,
    commit: u32,
    torn: &[u8],
    progress: Progress,
) -> Progress
    requires { (at < length image.old / page_size geometry) × (length image.old % page_size geometry ≡ 0) × (length torn.now ≡ page_size geometry) × Fits geometry }
    ensures { Ran geometry torn.now (retire_one geometry commit at (get_or (pages_of geometry image.old) at [])) progress result image.old image.new }
{
    let size = geometry.area + geometry.spare;
    let a = at * size;
    let e = a + size;
    if is_of(geometry, &image[a..e], commit) {
        image::set_mark(geometry, image, at, Mark::Obsolete, torn, progress)
    } else {
        progress
    }
}

// Every live page of the commit marked, lowest place first, as far as the power goes.
fn retire_all(
    geometry: Geometry,
    image: &mut [u8],
    commit: u32,
    torn: &[u8],
    progress: Progress,
) -> Progress
    requires { (length image.old % page_size geometry ≡ 0) × (length torn.now ≡ page_size geometry) × Fits geometry }
    ensures { Ran geometry torn.now (retire_ops geometry commit (pages_of geometry image.old)) progress result image.old image.new }
{
    let pages = image.len() / (geometry.area + geometry.spare);
    let mut reached = progress;
    for at in 0..pages {
        reached = retire_at(geometry, image, at, commit, torn, reached);
    }
    reached
}

// The obsolete mark set on each page of the void commit, where there is one.
pub fn retire(
    geometry: Geometry,
    image: &mut [u8],
    void: Option<u32>,
    torn: &[u8],
    progress: Progress,
) -> Progress
    requires { (length image.old % page_size geometry ≡ 0) × (length torn.now ≡ page_size geometry) × Fits geometry }
    ensures { Ran geometry torn.now (marks_of geometry void (pages_of geometry image.old)) progress result image.old image.new }
{
    match void {
        Some(commit) => retire_all(geometry, image, commit, torn, progress),
        None => progress,
    }
}
