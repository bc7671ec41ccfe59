// What a commit writes of each node in the form that it has, kept at its place.
ghost use Rattle.std.specs.Prelude.{◌≡◌, ℕ, ◌*◌, ◌<◌, ◌≤◌, length};
ghost use Rattle.contents.specs.ContentsCode.{WritesForms, WritesNode, own_in};

use crate::own;

// The size of a node with a page; its buffered units are kept at its place where it is written in these.
fn keep_form(
    buffer: &[u8],
    count: usize,
    limit: u32,
    number: u32,
    targets: &[u32],
    forms: &[u32],
    wholes: &[u32],
    parts: &[u32],
    sizes: &mut [u32],
    units: &mut [u8],
)
    requires { (12 * count ≤ length buffer.now) × (number < 256) × (length targets.now ≡ 256) × (length forms.now ≡ 256)
        × (length wholes.now ≡ 256) × (length parts.now ≡ 256) × (length sizes.old ≡ 256) × (length units.old ≡ 52224) }
    ensures { WritesNode number (own_in limit number count buffer.now)
        targets.now forms.now wholes.now parts.now sizes.old sizes.new units.old units.new }
{
    let n = number as usize;
    // 65535 says no page and 1 a mark: the arrays of a plan hold numbers, as their promises (`target_in`, `is_marked`) read them.
    if targets[n] == 65535 {
        return;
    }
    if forms[n] == 1 {
        sizes[n] = wholes[n];
        return;
    }
    own::keep_own(buffer, count, limit, number, units);
    sizes[n] = parts[n];
}

// What is written of each node with a page, kept at its place, and how many units it is: the node anew, or its buffered units.
pub fn keep_written(
    buffer: &[u8; 11520],
    count: usize,
    limit: u32,
    targets: &[u32; 256],
    forms: &[u32; 256],
    wholes: &[u32; 256],
    parts: &[u32; 256],
    sizes: &mut [u32; 256],
    units: &mut [u8; 52224],
)
    requires { (count ≤ 960) × (limit ≤ 256) }
    ensures { WritesForms limit (λ (n : ℕ). own_in limit n count buffer.now)
        targets.now forms.now wholes.now parts.now sizes.new units.old units.new }
{
    for n in 0..limit {
        keep_form(
            buffer, count, limit, n, targets, forms, wholes, parts, sizes, units,
        );
    }
}
