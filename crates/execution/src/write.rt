// The pages of a commit, each built from the arrays of its plan, written, and noted in the node table that the commit leaves.
ghost use Rattle.std.specs.Prelude.{◌≡◌, ◌/◌, ◌%◌, ◌<◌, ◌≤◌, length, take};
ghost use Rattle.lists.specs.Lists.{All};
ghost use Rattle.chip.specs.Geometry.{Fits, page_size};
ghost use Rattle.chip.specs.RunCode.{Ran};
ghost use Rattle.pages.specs.Write.{writes};
ghost use Rattle.execution.specs.WriteCode.{NotesPage, Writes};

use crate::gather;
use chip::geometry::{AREA, Geometry};
use chip::progress::Progress;
use pages::{unit, write};
use views::table;

// The pages of commit `commit`: of what geometry, how many, and of how many nodes.
#[derive(Clone, Copy)]
pub struct Pages {
    pub geometry: Geometry,
    pub limit: u32,
    pub commit: u32,
    pub total: usize,
}

// One of them.
#[derive(Clone, Copy)]
struct Part {
    pages: Pages,
    index: usize,
}

// The units of a page noted in the node table; a page that claims more units than a page holds is passed over.
fn note(
    geometry: Geometry,
    lens: &mut [u32; 256],
    slots: &mut [u32; 1024],
    page: &[u8],
    place: u32,
    limit: u32,
)
    requires { (length page.now ≡ geometry.area) × (limit ≤ 256) × Fits geometry }
    ensures { NotesPage geometry limit place page.now lens.old slots.old lens.new slots.new }
{
    let units = unit::read_half(page, 6) as usize;
    if units <= geometry.units {
        table::note_page(lens, slots, page, place, limit);
    }
}

// A page written at its place and noted.
fn put_page(
    geometry: Geometry,
    image: &mut [u8],
    page: &[u8],
    place: u32,
    limit: u32,
    torn: &[u8],
    progress: Progress,
    new_lens: &mut [u32; 256],
    new_slots: &mut [u32; 1024],
) -> Progress
    requires { (place < length image.old / page_size geometry) × (length image.old % page_size geometry ≡ 0) × (length page.now ≡ geometry.area)
        × (limit ≤ 256) × (length torn.now ≡ page_size geometry) × Fits geometry }
    ensures { Ran geometry torn.now (writes place page.now) progress result image.old image.new
        × NotesPage geometry limit place page.now new_lens.old new_slots.old new_lens.new new_slots.new }
{
    note(geometry, new_lens, new_slots, page, place, limit);
    write::write_at(geometry, image, place as usize, page, torn, progress)
}

// One page built, written at its place and noted.
fn write_page(
    image: &mut [u8],
    targets: &[u32; 256],
    sizes: &[u32; 256],
    units: &[u8; 52224],
    places: &[u32; 160],
    part: Part,
    torn: &[u8],
    progress: Progress,
    new_lens: &mut [u32; 256],
    new_slots: &mut [u32; 1024],
) -> Progress
    requires { (length image.old % page_size part.pages.geometry ≡ 0) × (part.pages.limit ≤ 256) × (part.pages.total ≤ 128)
        × (part.index < part.pages.total) × (part.pages.commit < 4294967296) × (length torn.now ≡ page_size part.pages.geometry)
        × All (◌< length image.old / page_size part.pages.geometry) (take part.pages.total places.now) × Fits part.pages.geometry }
    ensures { Writes part.pages targets.now sizes.now units.now places.now torn.now part.index 1
        progress result image.old image.new
        new_lens.old new_slots.old new_lens.new new_slots.new }
{
    let pages = part.pages;
    let geometry = pages.geometry;
    let area = geometry.area;
    let index = part.index;
    let place = places[index];
    let mut page = [255; AREA];
    gather::build_page(
        geometry,
        targets,
        sizes,
        units,
        pages.limit,
        pages.commit,
        index as u32,
        pages.total as u32,
        &mut page[0..area],
    );
    put_page(
        geometry,
        image,
        &page[0..area],
        place,
        pages.limit,
        torn,
        progress,
        new_lens,
        new_slots,
    )
}

// The pages of a commit in order of their index, as far as the power goes.
pub fn write_pages(
    image: &mut [u8],
    targets: &[u32; 256],
    sizes: &[u32; 256],
    units: &[u8; 52224],
    places: &[u32; 160],
    pages: Pages,
    torn: &[u8],
    progress: Progress,
    new_lens: &mut [u32; 256],
    new_slots: &mut [u32; 1024],
) -> Progress
    requires { (length image.old % page_size pages.geometry ≡ 0) × (pages.limit ≤ 256) × (pages.total ≤ 128)
        × (pages.commit < 4294967296) × (length torn.now ≡ page_size pages.geometry)
        × All (◌< length image.old / page_size pages.geometry) (take pages.total places.now) × Fits pages.geometry }
    ensures { (length places.now ≡ 160) × Writes pages targets.now sizes.now units.now places.now torn.now 0 pages.total
        progress result image.old image.new
        new_lens.old new_slots.old new_lens.new new_slots.new }
{
    let mut reached = progress;
    for index in 0..pages.total {
        let part = Part { pages, index };
        reached = write_page(
            image, targets, sizes, units, places, part, torn, reached, new_lens, new_slots,
        );
    }
    reached
}
