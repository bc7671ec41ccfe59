// The data of one page of a commit: the units of its nodes, gathered from the arrays that hold a plan.
ghost use Rattle.std.specs.Prelude.{◌≡◌, ◌+◌, ◌*◌, ◌<◌, ◌≤◌, length, take};
ghost use Rattle.lists.specs.Lists.{part, patch};
ghost use Rattle.chip.specs.Geometry.{Fits};
ghost use Rattle.pages.specs.Data.{laid};
ghost use Rattle.execution.specs.GatherCode.{Built, Gathers, PushesNode};

use chip::geometry::{AREA, Geometry};
use pages::header;

// `size` units from byte `from` on, copied behind the `k` units of `out`.
fn copy_units(units: &[u8], from: usize, size: usize, out: &mut [u8], k: usize)
    requires { (length units.now ≡ 52224) × (from + 12 * size ≤ 52224) × (12 * (k + size) ≤ length out.old) × (length out.old ≤ 2048) }
    ensures { out.new ≡ patch out.old (12 * k) (12 * size) (part from (12 * size) units.now) }
{
    let to = from + 12 * size;
    let a = 12 * k;
    let e = a + 12 * size;
    out[a..e].copy_from_slice(&units[from..to]);
}

// The units of node `n` behind the `k` units of `out`, if it has this page and a page of `room` units has room. Returns the count after it.
fn push_node(
    room: usize,
    targets: &[u32],
    sizes: &[u32],
    units: &[u8],
    n: usize,
    page: u32,
    out: &mut [u8],
    k: usize,
) -> usize
    requires { (length targets.now ≡ 256) × (length sizes.now ≡ 256) × (length units.now ≡ 52224) × (n < 256) × (page < 256)
        × (12 * room ≤ length out.old) × (length out.old ≤ 2048) × (k ≤ room) }
    ensures { PushesNode room targets.now sizes.now units.now page n k out.old out.new result }
{
    let size = sizes[n] as usize;
    if targets[n] != page {
        return k;
    }
    if size > 17 {
        return k;
    }
    if k + size > room {
        return k;
    }
    copy_units(units, 204 * n, size, out, k);
    k + size
}

// The units of the nodes with this page in the order of their numbers, in front of `out`. Returns how many they are.
fn gather(
    room: usize,
    targets: &[u32],
    sizes: &[u32],
    units: &[u8],
    limit: u32,
    page: u32,
    out: &mut [u8],
) -> usize
    requires { (length targets.now ≡ 256) × (length sizes.now ≡ 256) × (length units.now ≡ 52224) × (limit ≤ 256) × (page < 256)
        × (12 * room ≤ length out.old) × (length out.old ≤ 2048) }
    ensures { Gathers room limit targets.now sizes.now units.now page out.new result }
{
    let mut k = 0;
    for n in 0..limit as usize {
        k = push_node(room, targets, sizes, units, n, page, out, k);
    }
    k
}

// A page's data written whole: page `index` of `total` of commit `commit`, with the first `k` units of `units`.
fn lay_units(
    geometry: Geometry,
    page: &mut [u8],
    commit: u32,
    index: u32,
    total: u32,
    k: usize,
    units: &[u8],
)
    requires { (length page.old ≡ geometry.area) × (index < 256) × (total < 256) × (k ≤ geometry.units) × (12 * k ≤ length units.now) × Fits geometry }
    ensures { page.new ≡ laid geometry commit index total k (take (12 * k) units.now) }
{
    let e = 12 * k;
    header::lay_out(geometry, page, commit, index, total, k, &units[0..e]);
}

// The data of page `index` of `total` of commit `commit`: the units of the nodes with this page.
pub fn build_page(
    geometry: Geometry,
    targets: &[u32; 256],
    sizes: &[u32; 256],
    units: &[u8; 52224],
    limit: u32,
    commit: u32,
    index: u32,
    total: u32,
    page: &mut [u8],
)
    requires { (limit ≤ 256) × (index < 256) × (total < 256) × (length page.old ≡ geometry.area) × Fits geometry }
    ensures { Built geometry limit targets.now sizes.now units.now commit index total page.new }
{
    let mut out = [255; AREA];
    let room = geometry.units;
    let k = gather(room, targets, sizes, units, limit, index, &mut out);
    lay_units(geometry, page, commit, index, total, k, &out);
}
