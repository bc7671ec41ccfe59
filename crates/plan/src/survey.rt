// The blocks that a commit may write: the head block, and the unused blocks in circular order after it.
ghost use Rattle.std.specs.Prelude.{◌≡◌, false, ◌+◌, ◌-◌, ◌*◌, ◌<◌, ◌≤◌, length, take, replicate};
ghost use mathlib.Core.List.{foldl};
ghost use Rattle.lists.specs.Lists.{filter, flat};
ghost use Rattle.chip.specs.Geometry.{Fits, block_size, page_size};
ghost use Rattle.chip.specs.Chip.{pages_of};
ghost use Rattle.views.specs.Stored.{stored_list};
ghost use Rattle.journal.specs.Plan.{count_from, ring as around, head_block};
ghost use Rattle.plan.specs.SurveyCode.{first_of, is_held, is_unmarked, Surveys, mark, later, LooksAtPage, LooksAtAll, Marked};

use chip::geometry::Geometry;
use chip::page;
use pages::unit;
use views::view;

// The head block, how many blocks are unused, and the oldest used block but the head, if there is one.
#[derive(Clone, Copy)]
pub struct Surveyed {
    pub head: usize,
    pub unused: usize,
    pub oldest: Option<usize>,
}

// The last page in order of those seen so far: its commit number, index and place.
#[derive(Clone, Copy)]
struct Newest {
    commit: u32,
    index: u32,
    place: usize,
}

// The last page in order, `z`, or a page on a lower place if it comes behind `z` in order or there is no `z`.
fn later_of(z: Option<Newest>, page: Newest) -> Newest
    ensures { result ≡ later z page }
{
    let Some(last) = z else {
        return page;
    };
    if page.commit > last.commit || page.commit == last.commit && page.index > last.index {
        page
    } else {
        last
    }
}

// The block of this page marked, if there is a mark for it.
fn mark_page(geometry: Geometry, marks: &mut [bool], page: usize)
    requires { (length marks.old ≡ 32) × Fits geometry }
    ensures { marks.new ≡ mark geometry marks.old page }
{
    let b = page / geometry.pages;
    if b < 32 {
        marks[b] = true;
    }
}

// The blocks of the pages of a node's list marked.
fn mark_list(geometry: Geometry, lens: &[u32], slots: &[u32], node: u32, marks: &mut [bool])
    requires { (length lens.now ≡ 256) × (length slots.now ≡ 1024) × (node < 256) × (length marks.old ≡ 32) × Fits geometry }
    ensures { marks.new ≡ foldl (mark geometry) marks.old (stored_list lens.now slots.now node) }
{
    let used = view::used_slots(lens, slots, node);
    let base = 4 * node as usize;
    for i in 0..used {
        mark_page(geometry, marks, slots[base + i] as usize);
    }
}

// The blocks of the pages of all nodes' lists marked.
fn mark_lists(geometry: Geometry, lens: &[u32], slots: &[u32], limit: u32, marks: &mut [bool])
    requires { (length lens.now ≡ 256) × (length slots.now ≡ 1024) × (limit ≤ 256) × (length marks.old ≡ 32) × Fits geometry }
    ensures { marks.new ≡ foldl (mark geometry) marks.old (flat (stored_list lens.now slots.now) (count_from 0 limit)) }
{
    for n in 0..limit {
        mark_list(geometry, lens, slots, n, marks);
    }
}

// The page at place `at` taken into account: its block is marked if it is of the commit.
fn look(
    geometry: Geometry,
    page: &[u8],
    at: usize,
    commit: u32,
    z: Option<Newest>,
    marks: &mut [bool],
) -> Option<Newest>
    requires { (length page.now ≡ page_size geometry) × (length marks.old ≡ 32) × Fits geometry }
    ensures { LooksAtPage geometry commit at page.now z marks.old result marks.new }
{
    if !page::is_live(geometry, page) {
        return z;
    }
    let seen = Newest {
        commit: unit::read_word(page, 0),
        index: u32::from(page[4]),
        place: at,
    };
    if seen.commit == commit {
        mark_page(geometry, marks, at);
    }
    Some(later_of(z, seen))
}

// All pages, the last first: the last in order of the live ones, and the blocks that hold a page of the commit marked.
fn look_all(geometry: Geometry, image: &[u8], commit: u32, marks: &mut [bool]) -> Option<Newest>
    requires { (length marks.old ≡ 32) × Fits geometry }
    ensures { LooksAtAll geometry commit (pages_of geometry image.now) marks.old result marks.new }
{
    let size = geometry.area + geometry.spare;
    let mut z = None;
    for at in (0..image.len() / size).rev() {
        let a = at * size;
        z = look(geometry, &image[a..a + size], at, commit, z, marks);
    }
    z
}

// Every used block marked; the head block.
fn mark_used(
    geometry: Geometry,
    image: &[u8],
    lens: &[u32],
    slots: &[u32],
    limit: u32,
    commit: u32,
    marks: &mut [bool],
) -> usize
    requires { (length lens.now ≡ 256) × (length slots.now ≡ 1024) × (limit ≤ 256) × (marks.old ≡ replicate 32 false) × Fits geometry }
    ensures { (result ≡ head_block geometry (pages_of geometry image.now))
        × Marked geometry limit lens.now slots.now commit (pages_of geometry image.now) marks.new }
{
    mark_lists(geometry, lens, slots, limit, marks);
    match look_all(geometry, image, commit, marks) {
        Some(last) => last.place / geometry.pages,
        None => 0,
    }
}

// The unmarked blocks but the head, in circular order after it, put into the ring; how many there are.
fn list_unused(marks: &[bool], head: usize, blocks: usize, ring: &mut [u32]) -> usize
    requires { (length marks.now ≡ 32) × (length ring.old ≡ 32) × (head < blocks) × (blocks ≤ 32) }
    ensures { (take result ring.new ≡ filter (is_unmarked marks.now) (around blocks head)) × (result < blocks) × (length ring.new ≡ 32) }
{
    let mut n = 0;
    for b in (head + 1..blocks).chain(0..head) {
        if !marks[b] {
            ring[n] = b as u32;
            n += 1;
        }
    }
    n
}

// The first marked block after the head in circular order.
fn oldest_of(marks: &[bool], head: usize, blocks: usize) -> Option<usize>
    requires { (length marks.now ≡ 32) × (head < blocks) × (blocks ≤ 32) }
    ensures { result ≡ first_of (filter (is_held marks.now) (around blocks head)) }
{
    for b in (head + 1..blocks).chain(0..head) {
        if marks[b] {
            return Some(b);
        }
    }
    None
}

// The head block, the oldest block, and the unused blocks in circular order after the head, written to `ring`.
pub fn survey(
    geometry: Geometry,
    image: &[u8],
    lens: &[u32; 256],
    slots: &[u32; 1024],
    limit: u32,
    blocks: usize,
    commit: u32,
    ring: &mut [u32; 32],
) -> Surveyed
    requires { (length image.now ≡ blocks * block_size geometry) × (3 ≤ blocks) × (blocks ≤ 32) × (limit ≤ 256) × Fits geometry }
    ensures { Surveys geometry blocks limit lens.now slots.now commit (pages_of geometry image.now) ring.new result }
{
    let mut marks = [false; 32];
    let head = mark_used(geometry, image, lens, slots, limit, commit, &mut marks);
    let unused = list_unused(&marks, head, blocks, ring);
    let oldest = oldest_of(&marks, head, blocks);
    Surveyed {
        head,
        unused,
        oldest,
    }
}
