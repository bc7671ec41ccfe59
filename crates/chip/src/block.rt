// One block: erased, and which of its pages are free. Each function gets the part of the image that is the block.
ghost use Rattle.std.specs.Prelude.{◌≡◌, ◌<◌, length, slice_index};
ghost use Rattle.lists.specs.Lists.{count, first, repeat};
ghost use Rattle.chip.specs.declared.operation.Kind.TheVariants as K;
ghost use Rattle.chip.specs.Geometry.{Fits, page_size, block_size};
ghost use Rattle.chip.specs.Page.{is_free, torn_page};
ghost use Rattle.chip.specs.Chip.{pages_of, torn_block, whole_block};
ghost use Rattle.chip.specs.RunCode.{Operated};
ghost use Rattle.chip.specs.SetCode.{set_of};

use crate::geometry::Geometry;
use crate::operation::{Kind, Operation};
use crate::power::{Outcome, Power};
use crate::{operation, page, power};

// Byte `i` of a page whose erase was torn: the torn byte, but 255 for a 0 in the spare area.
fn torn_byte(geometry: Geometry, torn: &[u8], i: usize) -> u8
    requires { (length torn.now ≡ page_size geometry) × (i < page_size geometry) }
    ensures { result ≡ slice_index (torn_page geometry torn.now) i }
{
    let byte = torn[i];
    if geometry.area <= i && byte == 0 {
        255
    } else {
        byte
    }
}

// A page of a block whose erase was torn, written over `page`.
fn put_torn(geometry: Geometry, page: &mut [u8], torn: &[u8])
    requires { (length page.old ≡ page_size geometry) × (length torn.now ≡ page_size geometry) }
    ensures { page.new ≡ torn_page geometry torn.now }
{
    for (i, byte) in page.iter_mut().enumerate() {
        *byte = torn_byte(geometry, torn, i);
    }
}

// Every page of a block whose erase was torn, written over the block.
fn fill_torn(geometry: Geometry, block: &mut [u8], torn: &[u8])
    requires { (length block.old ≡ block_size geometry) × (length torn.now ≡ page_size geometry) × Fits geometry }
    ensures { block.new ≡ repeat geometry.pages (torn_page geometry torn.now) }
{
    let size = geometry.area + geometry.spare;
    // By an index, since what a loop over `chunks_exact_mut` wrote is not known after it.
    for i in 0..geometry.pages {
        let a = i * size;
        let e = a + size;
        put_torn(geometry, &mut block[a..e], torn);
    }
}

// The block erased; where power runs out, untouched if torn byte 0 is 0 and else full of torn pages.
pub fn erase(geometry: Geometry, block: &mut [u8], torn: &[u8], power: Power) -> Operation
    requires { (length block.old ≡ block_size geometry) × (length torn.now ≡ page_size geometry) × Fits geometry }
    ensures { Operated K.Erase power result block.new (whole_block geometry)
        (torn_block geometry torn.now block.old) block.old }
{
    match power::next(power) {
        Outcome::Whole => block.fill(255),
        Outcome::Torn => {
            if torn[0] != 0 {
                fill_torn(geometry, block, torn);
            }
        }
        Outcome::Nothing => {}
    }
    operation::tell(Kind::Erase, power)
}

// The free pages of a block, as a set of page numbers within it.
pub fn free_set(geometry: Geometry, block: &[u8]) -> u64
    requires { (length block.now ≡ block_size geometry) × Fits geometry }
    ensures { result ≡ set_of is_free (pages_of geometry block.now) }
{
    let size = geometry.area + geometry.spare;
    let mut free: u64 = 0;
    for (i, page) in block.chunks_exact(size).enumerate() {
        if page::is_free(page) {
            free |= 1 << i;
        }
    }
    free
}

// How many pages of a block are free, and the first free one; the number of its pages if none is.
#[derive(Clone, Copy)]
pub struct Free {
    pub count: u32,
    pub first: u32,
}

// What a block report tells of the block.
pub fn free_pages(geometry: Geometry, block: &[u8]) -> Free
    requires { (length block.now ≡ block_size geometry) × Fits geometry }
    ensures { (result.count ≡ count is_free (pages_of geometry block.now))
        × (result.first ≡ first is_free (pages_of geometry block.now)) }
{
    let free = free_set(geometry, block);
    let first = if free == 0 {
        geometry.pages as u32
    } else {
        free.trailing_zeros()
    };
    Free {
        count: free.count_ones(),
        first,
    }
}
