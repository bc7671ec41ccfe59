// How many units each node has in the buffer, and which nodes have a reset there.
ghost use Rattle.std.specs.Prelude.{◌≡◌, ℕ, ◌<◌, ◌≤◌, length, get_or, replicate};
ghost use Rattle.pages.specs.Units.{decode};
ghost use Rattle.views.specs.Groups.{is_reset};
ghost use Rattle.contents.specs.ContentsCode.{Tallied, counted, noted};

use pages::unit;
use pages::unit::Update;

// Does an update reset its node?
fn is_reset(update: Update) -> bool
    ensures { result ≡ is_reset update }
{
    matches!(update, Update::Reset(_))
}

// The unit that the first 12 bytes are counted for its node, and noted if it is a reset.
fn tally_unit(bytes: &[u8], limit: u32, parts: &mut [u32], resets: &mut [u32])
    requires { (12 ≤ length bytes.now) × (limit ≤ 256) × (length parts.old ≡ 256) × (length resets.old ≡ 256)
        × ((n : ℕ) → get_or parts.old n 0 < 960) }
    ensures { (parts.new ≡ counted (decode limit bytes.now) parts.old)
        × (resets.new ≡ noted (decode limit bytes.now) resets.old) }
{
    let d = unit::decode_unit(bytes, limit);
    let Some(u) = d else {
        return;
    };
    let n = u.node as usize;
    parts[n] += 1;
    if is_reset(u.update) {
        resets[n] = 1;
    }
}

// How many units each node has in the buffer, and which nodes have a reset there: one pass, each unit decoded once.
pub fn tally(
    buffer: &[u8; 11520],
    count: usize,
    limit: u32,
    parts: &mut [u32; 256],
    resets: &mut [u32; 256],
)
    requires { (count ≤ 960) × (limit ≤ 256) × (parts.old ≡ replicate 256 0) × (resets.old ≡ replicate 256 0) }
    ensures { Tallied limit count buffer.now parts.new resets.new }
{
    for bytes in buffer[..12 * count].chunks_exact(12) {
        tally_unit(bytes, limit, parts, resets);
    }
}
