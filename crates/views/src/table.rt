// The node table: for each node the pages that hold its units from its last reset on, found by one pass over the standing pages.
ghost use Rattle.std.specs.Prelude.{◌≡◌, ◌&&◌, List, [], ◌∷◌, map, ℕ, ◌+◌, ◌-◌, ◌*◌, ◌<◌, ◌≤◌, length};
ghost use Rattle.lists.specs.Lists.{all, part};
ghost use Rattle.chip.specs.Geometry.{Fits, most_pages};
ghost use Rattle.pages.specs.Units.{half, decodes};
ghost use Rattle.views.specs.Table.{event_at, events_of, is_good, is_sound, joins, listed};
ghost use Rattle.views.specs.PassCode.{Becomes, Empty, Notes, Passes, is_readable, page_at};

use chip::geometry::{CHIP_PAGES, Geometry};
use pages::standing::PLACES;
use pages::unit::{Unit, Update, decode_unit, read_half};

// The list of node `n` made this page alone.
fn begin(lens: &mut [u32], slots: &mut [u32], n: usize, page: u32)
    requires { (length lens.old ≡ 256) × (length slots.old ≡ 1024) × (n < 256) }
    ensures { Becomes n (λ (ps : List ℕ). page ∷ []) lens.old slots.old lens.new slots.new }
{
    slots[4 * n] = page;
    lens[n] = 1;
}

// The page joins the list of node `n` unless it is the newest there already. A list of more than 4 pages has length 5.
fn join(lens: &mut [u32], slots: &mut [u32], n: usize, page: u32)
    requires { (length lens.old ≡ 256) × (length slots.old ≡ 1024) × (n < 256) }
    ensures { Becomes n (joins page) lens.old slots.old lens.new slots.new }
{
    let len = lens[n] as usize;
    if len == 0 {
        begin(lens, slots, n, page);
        return;
    }
    if len < 5 {
        let free = 4 * n + len;
        if slots[free - 1] == page {
            return;
        }
        if len < 4 {
            slots[free] = page;
            lens[n] = (len + 1) as u32;
            return;
        }
        lens[n] = 5;
    }
}

// What a unit on a page does to the list of its node: a reset begins the list anew, another update joins it.
fn note(lens: &mut [u32; 256], slots: &mut [u32; 1024], unit: Unit, page: u32)
    requires { unit.node < 256 }
    ensures { Becomes unit.node (listed unit.update page) lens.old slots.old lens.new slots.new }
{
    let n = unit.node as usize;
    match unit.update {
        Update::Insert(_, _) | Update::Delete(_) => join(lens, slots, n, page),
        Update::Reset(_) => begin(lens, slots, n, page),
    }
}

// The first `count` units of a page noted in order; it stops and answers false at the first 12 bytes that are no unit.
fn note_units(
    lens: &mut [u32; 256],
    slots: &mut [u32; 1024],
    units: &[u8],
    count: usize,
    place: u32,
    limit: u32,
) -> bool
    requires { (12 * count ≤ length units.now) × (limit ≤ 256) }
    ensures { Notes (all is_good (decodes limit count units.now)) (map (event_at place) (decodes limit count units.now))
        lens.old slots.old lens.new slots.new result }
{
    for i in 0..count {
        let Some(u) = decode_unit(&units[12 * i..], limit) else {
            return false;
        };
        note(lens, slots, u, place);
    }
    true
}

// The units of a page's data noted, the page at `place`; as many as its header says.
pub fn note_page(
    lens: &mut [u32; 256],
    slots: &mut [u32; 1024],
    page: &[u8],
    place: u32,
    limit: u32,
) -> bool
    requires { (8 + 12 * half page.now 6 ≤ length page.now) × (limit ≤ 256) }
    ensures { Notes (all is_sound (events_of limit (record { place = place; bytes = page.now })))
        (events_of limit (record { place = place; bytes = page.now }))
        lens.old slots.old lens.new slots.new result }
{
    let count = read_half(page, 6) as usize;
    note_units(lens, slots, &page[8..], count, place, limit)
}

// The units of the page at `place` of an image noted; false where the place is not on the chip or the page claims too many units.
fn note_at(
    geometry: Geometry,
    image: &[u8],
    place: u32,
    limit: u32,
    lens: &mut [u32; 256],
    slots: &mut [u32; 1024],
) -> bool
    requires { (limit ≤ 256) × Fits geometry }
    ensures { Notes (is_readable geometry image.now place && all is_sound (events_of limit (page_at geometry image.now place)))
        (events_of limit (page_at geometry image.now place))
        lens.old slots.old lens.new slots.new result }
{
    let size = geometry.area + geometry.spare;
    let p = place as usize;
    if p >= image.len() / size {
        return false;
    }
    let a = p * size;
    let e = a + geometry.area;
    let units = read_half(&image[a..e], 6) as usize;
    if geometry.units < units {
        return false;
    }
    note_page(lens, slots, &image[a..e], place, limit)
}

// The pages at the places of the keys noted in order; a key's place is its remainder by the places of the largest chip.
fn note_keys(
    geometry: Geometry,
    image: &[u8],
    keys: &[u64],
    limit: u32,
    lens: &mut [u32; 256],
    slots: &mut [u32; 1024],
) -> bool
    requires { (limit ≤ 256) × Fits geometry }
    ensures { Passes geometry image.now keys.now limit
        lens.old slots.old lens.new slots.new result }
{
    for key in keys {
        let place = (*key % PLACES) as u32;
        if !note_at(geometry, image, place, limit, lens, slots) {
            return false;
        }
    }
    true
}

// The pages of the keys from `from` to `to` noted in order; false where one of them cannot be read or holds 12 bytes that are no unit.
pub fn note_all(
    geometry: Geometry,
    image: &[u8],
    order: &[u64; CHIP_PAGES],
    from: usize,
    to: usize,
    limit: u32,
    lens: &mut [u32; 256],
    slots: &mut [u32; 1024],
) -> bool
    requires { (from ≤ to) × (to ≤ most_pages) × (limit ≤ 256) × Fits geometry }
    ensures { Passes geometry image.now (part from (to - from) order.now) limit
        lens.old slots.old lens.new slots.new result }
{
    let keys: &[u64] = &order[..];
    note_keys(geometry, image, &keys[from..to], limit, lens, slots)
}

// Every list made empty.
pub fn clear(lens: &mut [u32; 256])
    ensures { Empty lens.new }
{
    *lens = [0; 256];
}
