// What an image means, by steps 1 to 6, with the node table and the free numbers read from it.
ghost use Rattle.std.specs.Prelude.{◌≡◌, ◌-◌, ◌/◌, ◌%◌, ◌<◌, ◌≤◌, length};
ghost use Rattle.lists.specs.Lists.{part};
ghost use Rattle.chip.specs.Geometry.{Fits, most_pages, page_size};
ghost use Rattle.store.specs.AdmitCode.{ChipOf};
ghost use Rattle.store.specs.CheckCode.{commit_at, means_by, Numbered, refused_by, JudgesKeys, Checks};

use crate::answer::Refusal;
use chip::geometry::{CHIP_PAGES, Geometry};
use numbers::set;
use pages::standing;
use pages::standing::{COMMIT, Standing, Unsettled};
use tree::check;
use tree::check::Growth;
use views::nodes::Nodes;
use views::read;

// The index of the last key.
const LAST: usize = CHIP_PAGES - 1;

// What an image that passes means: the greatest standing commit number, the commit number of the void pages, where there are any, and
// whether the tree is thin.
#[derive(Clone, Copy)]
pub struct Meaning {
    pub commit: u32,
    pub void: Option<u32>,
    pub thin: bool,
}

// Steps 4 to 6 on the standing pages, whose keys are order[from..to]: a refusal, or whether the tree is thin; the node table is read into `lens` and `slots`, and the numbers that no node has into `free`.
fn judge(
    geometry: Geometry,
    image: &[u8],
    order: &[u64; CHIP_PAGES],
    from: usize,
    to: usize,
    limit: u32,
    lens: &mut [u32; 256],
    slots: &mut [u32; 1024],
    free: &mut [u64; 4],
) -> Result<bool, Refusal>
    requires { (length image.now % page_size geometry ≡ 0) × (length image.now / page_size geometry ≤ most_pages) × (from ≤ to) × (to ≤ most_pages) × (limit ≤ 256) × Fits geometry }
    ensures { JudgesKeys geometry image.now (part from (to - from) order.now) limit lens.new slots.new free.new result }
{
    let well = read::read_nodes(geometry, image, order, from, to, limit, lens, slots);
    if !well {
        return Err(Refusal::Layout);
    }
    let mut seen = [0; 256];
    let nodes = Nodes {
        geometry,
        image,
        lens,
        slots,
        limit,
    };
    let growth = check::check_tree(nodes, &mut seen);
    set::gather(&seen, limit, free);
    match growth {
        Growth::NoTree => Err(Refusal::Shape),
        Growth::Thin => Ok(true),
        Growth::Thick => Ok(false),
    }
}

// The commit number of the page whose key is order[at].
fn commit_at(order: &[u64; CHIP_PAGES], at: usize) -> u32
    requires { (at < most_pages) × (commit_at order.now at < 4294967296) }
    ensures { result ≡ commit_at order.now at }
{
    let key = order[at];
    (key / COMMIT) as u32
}

// The meaning of an image that passes: the last standing page has the greatest standing commit number, the last void page that of all void pages.
fn passed(order: &[u64; CHIP_PAGES], voids: usize, thin: bool) -> Meaning
    requires { Numbered order.now voids }
    ensures { result ≡ means_by order.now voids thin }
{
    let commit = commit_at(order, LAST - voids);
    let void = if voids == 0 {
        None
    } else {
        Some(commit_at(order, LAST))
    };
    Meaning { commit, void, thin }
}

// The refusal of an image by steps 1 to 3.
impl From<Unsettled> for Refusal {
    ghost from_gives = { λ unsettled refusal. refusal ≡ refused_by unsettled };

    fn from(unsettled: Unsettled) -> Refusal {
        match unsettled {
            Unsettled::Blank => Refusal::Blank,
            Unsettled::Layout => Refusal::Layout,
        }
    }
}

// Steps 1 to 6; the node table is read into `lens` and `slots`, and the numbers that no node has into `free`.
pub fn check(
    geometry: Geometry,
    image: &[u8],
    blocks: usize,
    lens: &mut [u32; 256],
    slots: &mut [u32; 1024],
    free: &mut [u64; 4],
) -> Result<Meaning, Refusal>
    requires { ChipOf geometry blocks (length image.now) × Fits geometry }
    ensures { Checks geometry image.now lens.new slots.new free.new result }
{
    let mut order = [0; CHIP_PAGES];
    let limit = (8 * blocks) as u32;
    let Standing { first, voids } = standing::settle(geometry, image, &mut order)?;
    let to = CHIP_PAGES - voids;
    let thin = judge(geometry, image, &order, first, to, limit, lens, slots, free)?;
    Ok(passed(&order, voids, thin))
}
