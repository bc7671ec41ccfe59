// The tests that come first in every call: 2 off, and 1 size.
ghost use Rattle.std.specs.Prelude.{◌≡◌};
ghost use Rattle.chip.specs.Geometry.{Fits, geometry_of, page_size};
ghost use Rattle.store.specs.AdmitCode.{Admitted, Sized, update_tests, tests_of, answer_for, CommitBegins};
ghost use Rattle.store.specs.Answers.{answer_of};

use crate::answer::Refusal;
use crate::state::{Numbers, UNITS};
use chip::geometry;
use chip::geometry::{Geometry, Nand};

// The most updates that may be pending.
const PENDING: u32 = 16;

// The greatest commit number.
pub const LAST: u32 = 4294967295;

// Bytes of a page of a part, and of a torn slice.
pub fn page_size(nand: Nand) -> usize
    ensures { result ≡ page_size (geometry_of nand) }
{
    let geometry = geometry::geometry_of(nand);
    geometry.area + geometry.spare
}

// The tests 2 and 1 of a call that is lent an image alone, on the state's numbers and the image's length.
pub fn admit(numbers: Numbers, len: usize) -> Result<(), Refusal>
    ensures { Admitted (geometry_of numbers.nand) numbers.on numbers.blocks len result }
{
    if !numbers.on {
        return Err(Refusal::Off);
    }
    let nand = numbers.nand;
    let geometry = geometry::geometry_of(nand);
    if geometry::blocks_of(geometry, len) == Some(numbers.blocks) {
        Ok(())
    } else {
        Err(Refusal::Size)
    }
}

// The tests 2, 1 and 3 of an insert or a delete.
pub fn update_tests(numbers: Numbers, len: usize) -> Result<(), Refusal>
    ensures { answer_of result ≡ answer_for (update_tests (geometry_of numbers.nand) numbers.on numbers.blocks numbers.pending len) }
{
    admit(numbers, len)?;
    if numbers.pending >= PENDING {
        return Err(Refusal::Full);
    }
    Ok(())
}

// The tests 2, 1 and 6 of a commit.
fn commit_tests(numbers: Numbers, len: usize, torn: usize) -> Result<(), Refusal>
    ensures { answer_of result ≡ answer_for (tests_of numbers len torn) }
{
    admit(numbers, len)?;
    let nand = numbers.nand;
    if torn != page_size(nand) {
        return Err(Refusal::Size);
    }
    if numbers.pending == 0 {
        return Ok(());
    }
    if numbers.commit >= LAST {
        Err(Refusal::Last)
    } else {
        Ok(())
    }
}

// Whether a commit, or a forecast of one, goes on to its plan: its tests pass, updates are pending and the buffer holds its units. With nothing pending it
// ends, accepted.
pub fn commit_begins(numbers: Numbers, len: usize, torn: usize) -> Result<bool, Refusal>
    ensures { CommitBegins numbers len torn result }
{
    commit_tests(numbers, len, torn)?;
    if numbers.pending == 0 {
        return Ok(false);
    }
    if numbers.count > UNITS {
        return Err(Refusal::Last);
    }
    Ok(true)
}

// The blocks of an image that a format or a mount is lent with a torn slice; none where one of them has a wrong size.
pub fn sized(geometry: Geometry, len: usize, torn: usize) -> Option<usize>
    requires { Fits geometry }
    ensures { Sized geometry len torn result }
{
    if torn != geometry.area + geometry.spare {
        return None;
    }
    geometry::blocks_of(geometry, len)
}
