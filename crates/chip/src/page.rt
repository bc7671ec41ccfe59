// One page: programmed, marked, tested for being free. Each function gets the part of the image that is the page.
ghost use Rattle.std.specs.Prelude.{◌≡◌, ◌+◌, ◌-◌, ◌≤◌, ◌++◌, length, take, replicate, slice_index};
ghost use Rattle.chip.specs.declared.operation.Kind.TheVariants as K;
ghost use Rattle.chip.specs.Geometry.{Fits, page_size};
ghost use Rattle.chip.specs.Page.{is_free, is_live, marked, programmed};
ghost use Rattle.chip.specs.RunCode.{Operated};

use crate::geometry::Geometry;
use crate::operation::{Kind, Operation};
use crate::power::{Outcome, Power};
use crate::{operation, power};

// The three marks in a page's spare area, each with the spare byte that it is.
#[derive(Clone, Copy)]
pub enum Mark {
    Used = 0,
    Valid = 1,
    Obsolete = 2,
}

// One mark made 0, or torn byte 0 where power runs out.
pub fn set_mark(
    geometry: Geometry,
    page: &mut [u8],
    mark: Mark,
    torn: &[u8],
    power: Power,
) -> Operation
    requires { (length page.old ≡ page_size geometry) × (length torn.now ≡ page_size geometry) × Fits geometry }
    ensures { Operated K.Mark power result page.new (marked geometry mark 0 page.old)
        (marked geometry mark (slice_index torn.now 0) page.old) page.old }
{
    let at = geometry.area + mark as usize;
    match power::next(power) {
        Outcome::Whole => page[at] = 0,
        Outcome::Torn => page[at] = torn[0],
        Outcome::Nothing => {}
    }
    operation::tell(Kind::Mark, power)
}

// The data area made `bytes`, or the first torn bytes where power runs out.
pub fn program(
    geometry: Geometry,
    page: &mut [u8],
    bytes: &[u8],
    torn: &[u8],
    power: Power,
) -> Operation
    requires { (length page.old ≡ page_size geometry) × (length bytes.now ≡ geometry.area) × (length torn.now ≡ page_size geometry) }
    ensures { Operated K.Program power result page.new (programmed geometry bytes.now page.old)
        (programmed geometry (take geometry.area torn.now) page.old) page.old }
{
    let data = &mut page[..geometry.area];
    match power::next(power) {
        Outcome::Whole => data.copy_from_slice(bytes),
        Outcome::Torn => data.copy_from_slice(&torn[..geometry.area]),
        Outcome::Nothing => {}
    }
    operation::tell(Kind::Program, power)
}

// Every byte from `at` on made 255.
pub fn blank_from(page: &mut [u8], at: usize)
    requires { at ≤ length page.old }
    ensures { page.new ≡ take at page.old ++ replicate (length page.old - at) 255 }
{
    page[at..].fill(255);
}

// Are all of these bytes 255? It ends at the first one that is not.
fn all_free(bytes: &[u8]) -> bool
    ensures { result ≡ is_free bytes.now }
{
    bytes.iter().all(|byte| *byte == 255)
}

// Are all bytes of the page 255? It ends at the first byte that is not, and looks at no byte behind it.
// Four bytes a turn: one `all` over the page takes nearly twice as long.
pub fn is_free(page: &[u8]) -> bool
    ensures { result ≡ is_free page.now }
{
    let fours = page.chunks_exact(4);
    let rest = fours.remainder();
    for four in fours {
        if !all_free(four) {
            return false;
        }
    }
    all_free(rest)
}

// Is the page live: valid mark set, obsolete mark not?
pub fn is_live(geometry: Geometry, page: &[u8]) -> bool
    requires { (length page.now ≡ page_size geometry) × Fits geometry }
    ensures { result ≡ is_live geometry page.now }
{
    let area = geometry.area;
    page[area + 1] == 0 && page[area + 2] != 0
}
