// A page's header and its own rules.
ghost use Rattle.std.specs.Prelude.{◌≡◌, ◌<◌, ◌≤◌, ◌*◌, length};
ghost use Rattle.chip.specs.Geometry.{Fits};
ghost use Rattle.pages.specs.Data.{head_of, header_of, head_bytes, laid};

use crate::unit;
use chip::geometry::Geometry;
use chip::page;

// Commit number, page index, page count of that commit, unit count.
#[derive(Clone, Copy)]
pub struct Head {
    pub commit: u32,
    pub index: u32,
    pub count: u32,
    pub units: u32,
}

// The four numbers of the first 8 bytes.
fn read_head(page: &[u8]) -> Head
    requires { 8 ≤ length page.now }
    ensures { result ≡ head_of page.now }
{
    let commit = unit::read_word(page, 0);
    let index = u32::from(page[4]);
    let count = u32::from(page[5]);
    let units = unit::read_half(page, 6);
    Head {
        commit,
        index,
        count,
        units,
    }
}

// The header of a page's data, where the data obeys the page's own rules.
pub fn read_header(geometry: Geometry, page: &[u8]) -> Option<Head>
    requires { (length page.now ≡ geometry.area) × Fits geometry }
    ensures { result ≡ header_of geometry page.now }
{
    let head = read_head(page);
    let units = head.units as usize;
    if head.commit == 0 || head.count <= head.index || units == 0 || geometry.units < units {
        return None;
    }
    page::is_free(&page[8 + 12 * units..]).then_some(head)
}

// The 8 bytes of a header.
fn head_bytes(commit: u32, index: u32, count: u32, units: usize) -> [u8; 8]
    requires { (index < 256) × (count < 256) × (units < 65536) }
    ensures { result ≡ head_bytes commit index count units }
{
    let [c0, c1, c2, c3] = commit.to_le_bytes();
    let [u0, u1] = (units as u16).to_le_bytes();
    [c0, c1, c2, c3, index as u8, count as u8, u0, u1]
}

// A page's data written whole: page `index` of `count` of commit `commit`, with `k` units whose bytes are `units`.
pub fn lay_out(
    geometry: Geometry,
    page: &mut [u8],
    commit: u32,
    index: u32,
    count: u32,
    k: usize,
    units: &[u8],
)
    requires { (length page.old ≡ geometry.area) × (index < 256) × (count < 256) × (k ≤ geometry.units) × (length units.now ≡ 12 * k) × Fits geometry }
    ensures { page.new ≡ laid geometry commit index count k units.now }
{
    let head = head_bytes(commit, index, count, k);
    page::blank_from(page, 8 + 12 * k);
    page[8..8 + 12 * k].copy_from_slice(units);
    page[0..8].copy_from_slice(&head);
}
