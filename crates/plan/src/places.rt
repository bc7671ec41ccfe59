// The places of a commit's pages, and the blocks to erase before they are written.
ghost use Rattle.std.specs.Prelude.{◌≡◌, ◌&&◌, not, ◌++◌, ◌+◌, ◌-◌, ◌*◌, ◌/◌, ◌%◌, ◌<◌, ◌≤◌, leb, ltb, length, take, get_or};
ghost use Rattle.lists.specs.Lists.{flat};
ghost use Rattle.chip.specs.Geometry.{Fits, block_size, page_size};
ghost use Rattle.chip.specs.Chip.{pages_of};
ghost use Rattle.journal.specs.Plan.{free_at, pages_in, wholly_free};
ghost use Rattle.plan.specs.PlacesCode.{free_pages, Spare, Lays, erases_from};

use chip::geometry::{BLOCK_PAGES, Geometry};
use chip::page;

// Is the page at this place free?
fn is_free_at(geometry: Geometry, image: &[u8], at: usize) -> bool
    requires { (at < length image.now / page_size geometry) × Fits geometry }
    ensures { result ≡ free_at (pages_of geometry image.now) at }
{
    let size = geometry.area + geometry.spare;
    let a = at * size;
    let e = a + size;
    page::is_free(&image[a..e])
}

// The first `most` free pages of a block put into `places`, or all where there are fewer; how many there are. No page behind them is tested.
fn put_free(geometry: Geometry, image: &[u8], at: usize, most: usize, places: &mut [u32]) -> usize
    requires { (at * geometry.pages + geometry.pages ≤ length image.now / page_size geometry) × (at < 32) × (geometry.pages ≤ length places.old) × Fits geometry }
    ensures { (take result places.new ≡ take most (free_pages geometry (pages_of geometry image.now) at)) × (result ≤ geometry.pages) × (result ≤ most)
        × (length places.new ≡ length places.old) }
{
    let first = at * geometry.pages;
    let end = first + geometry.pages;
    let mut n = 0;
    for p in first..end {
        if n >= most {
            return n;
        }
        if is_free_at(geometry, image, p) {
            places[n] = p as u32;
            n += 1;
        }
    }
    n
}

// Have `need` pages a place on the head and on `width` blocks? No page is tested where the blocks alone have them.
pub fn has_places(geometry: Geometry, image: &[u8], head: usize, width: usize, need: usize) -> bool
    requires { (head * geometry.pages + geometry.pages ≤ length image.now / page_size geometry) × (head < 32) × (width ≤ 32) × Fits geometry }
    ensures { result ≡ leb need (length (free_pages geometry (pages_of geometry image.now) head) + width * geometry.pages) }
{
    let mut found = [0; BLOCK_PAGES];
    let others = width * geometry.pages;
    let more = need.saturating_sub(others);
    let n = put_free(geometry, image, head, more, &mut found);
    need <= n + others
}

// Page `j` of the blocks of the ring, counted through them.
fn page_of(geometry: Geometry, ring: &[u32], j: usize) -> u32
    requires { (length ring.now ≡ 32) × (j / geometry.pages < 32) × (get_or ring.now (j / geometry.pages) 0 < 32) × Fits geometry }
    ensures { result ≡ get_or ring.now (j / geometry.pages) 0 * geometry.pages + j % geometry.pages }
{
    let pages = geometry.pages;
    let b = ring[j / pages] as usize;
    (b * pages + j % pages) as u32
}

// Places from `n` to `need` filled with the pages of the first `width` blocks of the ring.
// No heap: the ring has a fixed size, and the promise reads its first `width` blocks.
pub fn put_rest(
    geometry: Geometry,
    ring: &[u32],
    blocks: usize,
    head: usize,
    width: usize,
    n: usize,
    need: usize,
    places: &mut [u32],
)
    requires { (length ring.now ≡ 32) × (length places.old ≡ 160) × (blocks ≤ 32) × (width ≤ 32) × (n ≤ 160) × (need ≤ 160) × (need ≤ n + width * geometry.pages)
        × Spare blocks head (take width ring.now) × Fits geometry }
    ensures { (take need places.new ≡ take need (take n places.old ++ flat (pages_in geometry) (take width ring.now)))
        × (length places.new ≡ 160) }
{
    for i in n..need {
        places[i] = page_of(geometry, ring, i - n);
    }
}

// The first `need` places: the free pages of the head block, then all pages of the first `width` unused blocks. Returns how many are on these.
// No slice of the ring: the contract speaks of the ring and of the width.
pub fn lay_places(
    geometry: Geometry,
    image: &[u8],
    blocks: usize,
    head: usize,
    ring: &[u32; 32],
    width: usize,
    need: usize,
    places: &mut [u32; 160],
) -> usize
    requires { (length image.now ≡ blocks * block_size geometry) × (blocks ≤ 32) × (head < blocks) × (width ≤ 32) × (need ≤ 160)
        × (need ≤ length (free_pages geometry (pages_of geometry image.now) head) + width * geometry.pages) × Spare blocks head (take width ring.now)
        × Fits geometry }
    ensures { Lays geometry blocks head width need (pages_of geometry image.now) ring.now places.new result }
{
    let n = put_free(geometry, image, head, need, places);
    put_rest(geometry, ring, blocks, head, width, n, need, places);
    need - n
}

// Are all pages of the block free?
pub fn is_wholly_free(geometry: Geometry, image: &[u8], at: usize) -> bool
    requires { (at * geometry.pages + geometry.pages ≤ length image.now / page_size geometry) × Fits geometry }
    ensures { result ≡ wholly_free geometry (pages_of geometry image.now) at }
{
    let size = geometry.pages * (geometry.area + geometry.spare);
    let a = at * size;
    let e = a + size;
    page::is_free(&image[a..e])
}

// Is the block to be erased: `left` places are still to be reached, and not all its pages are free?
fn is_erased(geometry: Geometry, image: &[u8], at: usize, left: usize) -> bool
    requires { (at * geometry.pages + geometry.pages ≤ length image.now / page_size geometry) × Fits geometry }
    ensures { result ≡ (ltb 0 left && not (wholly_free geometry (pages_of geometry image.now) at)) }
{
    left > 0 && !is_wholly_free(geometry, image, at)
}

// The blocks to erase before `reach` places on the first `width` unused blocks are written: those that they reach and that are not wholly free.
// No heap: the ring has a fixed size, and the promise reads its first `width` blocks.
pub fn lay_erases(
    geometry: Geometry,
    image: &[u8],
    blocks: usize,
    head: usize,
    ring: &[u32; 32],
    width: usize,
    reach: usize,
    erased: &mut [u32; 32],
) -> usize
    requires { (length image.now ≡ blocks * block_size geometry) × (width ≤ 32) × Spare blocks head (take width ring.now) × Fits geometry }
    ensures { (take result erased.new ≡ erases_from geometry (pages_of geometry image.now) reach (take width ring.now)) × (result ≤ width)
        × (length (take result erased.new) ≡ result) }
{
    let mut left = reach;
    let mut n = 0;
    for b in &ring[..width] {
        if is_erased(geometry, image, *b as usize, left) {
            erased[n] = *b;
            n += 1;
        }
        left = left.saturating_sub(geometry.pages);
    }
    n
}
