// What the calls are lent: the first bytes of the image buffer, and the first torn bytes; and the part that they name.
ghost use Rattle.std.specs.Prelude.{◌≡◌, ◌+◌, ◌≤◌, length};
ghost use Rattle.chip.specs.Geometry.{large, geometry_of, block_size};

use crate::output::within;
use chip::geometry;
use chip::geometry::Nand;
use orders::order::Setting;
use orders::{noise, reply, sum};

// The part that format, mount, rebuild and show name; how many bytes are lent of the image buffer, and of the torn bytes.
#[derive(Clone, Copy)]
pub struct Bed {
    pub nand: Nand,
    pub image: usize,
    pub torn: usize,
}

// The bed after a setting, and the bytes of output gathered.
#[derive(Clone, Copy)]
pub struct Made {
    pub bed: Bed,
    pub at: usize,
}

// The bytes of a block of the part.
fn block_size(nand: Nand) -> usize
    ensures { (result ≡ block_size (geometry_of nand)) × (result ≤ block_size large) }
{
    let g = geometry::geometry_of(nand);
    g.pages * (g.area + g.spare)
}

// The most blocks of the part that are lent.
fn most_blocks(nand: Nand) -> u32
    ensures { result ≤ 40 }
{
    match nand {
        Nand::Small => 40,
        Nand::Large => 33,
    }
}

// The small part, a chip of 3 blocks of it and the torn bytes of one page.
pub fn first_bed() -> Bed {
    Bed {
        nand: Nand::Small,
        image: 50688,
        torn: 528,
    }
}

// A number out of range: FF.
fn refused(bed: Bed, out: &mut [u8], at: usize) -> Made
    requires { at + 11 ≤ length out.old }
{
    let end = reply::put_short(out, at, 255);
    Made { bed, at: end }
}

// A setting that is made: 00.
fn accepted(bed: Bed, out: &mut [u8], at: usize) -> Made
    requires { at + 11 ≤ length out.old }
{
    let end = reply::put_short(out, at, 0);
    Made { bed, at: end }
}

// The part that is named from now on.
fn name(bed: Bed, out: &mut [u8], at: usize, nand: Nand) -> Made
    requires { at + 11 ≤ length out.old }
{
    accepted(Bed { nand, ..bed }, out, at)
}

// An image of so many blocks of the part named lent, each byte 255.
fn lend(bed: Bed, image: &mut [u8], out: &mut [u8], at: usize, blocks: u32) -> Made
    requires { at + 11 ≤ length out.old }
{
    let nand = bed.nand;
    if blocks > most_blocks(nand) {
        return refused(bed, out, at);
    }
    image.fill(255);
    let lent = (blocks as usize) * block_size(nand);
    accepted(Bed { image: lent, ..bed }, out, at)
}

// So many bytes of the image lent.
fn cut(bed: Bed, image: &[u8], out: &mut [u8], at: usize, size: u32) -> Made
    requires { at + 11 ≤ length out.old }
{
    let n = size as usize;
    if n > image.len() {
        return refused(bed, out, at);
    }
    accepted(Bed { image: n, ..bed }, out, at)
}

// So many torn bytes lent.
fn lend_torn(bed: Bed, torn: &[u8], out: &mut [u8], at: usize, size: u32) -> Made
    requires { at + 11 ≤ length out.old }
{
    let n = size as usize;
    if n > torn.len() {
        return refused(bed, out, at);
    }
    accepted(Bed { torn: n, ..bed }, out, at)
}

// A byte set among the first `lent`; whether the offset is below that.
fn set(bytes: &mut [u8], lent: usize, offset: u32, byte: u32) -> bool {
    let at = offset as usize;
    if at >= within(lent, bytes) {
        return false;
    }
    bytes[at] = (byte % 256) as u8;
    true
}

// A byte set, with its reply.
fn put(
    bed: Bed,
    bytes: &mut [u8],
    lent: usize,
    out: &mut [u8],
    at: usize,
    offset: u32,
    byte: u32,
) -> Made
    requires { at + 11 ≤ length out.old }
{
    if set(bytes, lent, offset, byte) {
        accepted(bed, out, at)
    } else {
        refused(bed, out, at)
    }
}

// The CRC-32 of the image lent.
fn tell_sum(bed: Bed, image: &[u8], out: &mut [u8], at: usize) -> Made
    requires { at + 11 ≤ length out.old }
{
    let n = within(bed.image, image);
    let s = sum::sum(&image[..n]);
    let end = reply::put_counted(out, at, 0, s);
    Made { bed, at: end }
}

// The image lent filled with noise.
fn make_noise(bed: Bed, image: &mut [u8], out: &mut [u8], at: usize, seed: u32) -> Made
    requires { at + 11 ≤ length out.old }
{
    let n = within(bed.image, image);
    noise::fill(&mut image[..n], seed);
    accepted(bed, out, at)
}

// A setting made, on the buffers that the image and the torn bytes are lent from.
pub fn make(
    bed: Bed,
    image: &mut [u8],
    torn: &mut [u8],
    out: &mut [u8],
    at: usize,
    setting: Setting,
) -> Made
    requires { at + 11 ≤ length out.old }
{
    match setting {
        Setting::Lend(blocks) => lend(bed, image, out, at, blocks),
        Setting::Cut(size) => cut(bed, image, out, at, size),
        Setting::SetImage(offset, byte) => put(bed, image, bed.image, out, at, offset, byte),
        Setting::SetTorn(offset, byte) => put(bed, torn, bed.torn, out, at, offset, byte),
        Setting::LendTorn(size) => lend_torn(bed, torn, out, at, size),
        Setting::Sum => tell_sum(bed, image, out, at),
        Setting::Noise(seed) => make_noise(bed, image, out, at, seed),
        Setting::Name(nand) => name(bed, out, at, nand),
    }
}
