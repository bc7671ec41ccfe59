// Show: the units of a page, handed back as a part of the caller's image.
ghost use Rattle.std.specs.Prelude.{◌≡◌, ◌≤◌, length};
ghost use Rattle.lists.specs.Lists.{part};
ghost use Rattle.chip.specs.Geometry.{Fits, page_size};
ghost use Rattle.pages.specs.Show.{show_length, shown_units, show_refusal, show_start};

use crate::header;
use chip::geometry::Geometry;
use chip::{geometry, page};

// How many units are shown of a page: none where it is not live or breaks one of its own rules.
fn shown_units(geometry: Geometry, page: &[u8]) -> usize
    requires { (length page.now ≡ page_size geometry) × Fits geometry }
    ensures { (result ≡ shown_units geometry page.now) × (result ≤ geometry.units) }
{
    let area = geometry.area;
    if !page::is_live(geometry, page) {
        return 0;
    }
    match header::read_header(geometry, &page[0..area]) {
        Some(head) => head.units as usize,
        None => 0,
    }
}

// The units of page `at`, as that part of the image; an empty part where there are none and with a refusal, 1 or 4.
// The refusal is a number beside the part: docs/DECISIONS.md 14 promises this form.
pub fn show<'a>(geometry: Geometry, image: &'a [u8], at: u32, refusal: &mut u32) -> &'a [u8]
    requires { Fits geometry }
    ensures shown { result.now ≡ part (show_start geometry image.now at) (show_length geometry image.now at) image.now }
    ensures number { refusal.new ≡ show_refusal geometry (length image.now) at }
{
    let size = geometry.area + geometry.spare;
    let Some(blocks) = geometry::blocks_of(geometry, image.len()) else {
        *refusal = 1;
        return &image[0..0];
    };
    let p = at as usize;
    if p >= blocks * geometry.pages {
        *refusal = 4;
        return &image[0..0];
    }
    *refusal = 0;
    let a = p * size;
    let e = a + size;
    let units = shown_units(geometry, &image[a..e]);
    if units == 0 {
        return &image[0..0];
    }
    let start = a + 8;
    let end = start + 12 * units;
    &image[start..end]
}
