// Forecast: what a commit made now would cost. 2; 1; 6 as commit gives them, never 10. State and image are only read.
ghost use Rattle.std.specs.Prelude.{true, List, ℕ, length, Ok};
ghost use Rattle.chip.specs.Geometry.{geometry_of, page_size};
ghost use Rattle.store.specs.AdmitCode.{CommitBegins};
ghost use Rattle.store.specs.Ensured.{Forecasts};
ghost use Rattle.store.specs.Parts.{joined, with_free};

use crate::answer::Refusal;
use crate::state::{Numbers, State};
use crate::{admit, scope, state};
use chip::progress;
use chip::progress::Counts;
use commits::forecast;

// What a commit on a state that the tests pass would cost.
fn forecast_pending<'a>(
    numbers: Numbers,
    lens: &'a [u32; 256],
    slots: &'a [u32; 1024],
    buffer: &'a [u8; 11520],
    image: &[u8],
) -> Result<Counts, Refusal>
    requires { CommitBegins numbers (length image.now) (page_size (geometry_of numbers.nand)) (Ok true) }
    ensures { (free erases : List ℕ)
        → Forecasts (joined (with_free numbers free) buffer.now lens.now slots.now erases) image.now result }
{
    let basis = scope::basis_of(numbers);
    let cost = forecast::forecast(image, lens, slots, buffer, basis);
    let Some(ops) = cost else {
        return Err(Refusal::Last);
    };
    Ok(ops)
}

// Forecast on lent arrays, whatever the free numbers and the erases: it begins as a commit with a torn slice of the right length.
pub fn forecast_lent<'a>(
    numbers: Numbers,
    lens: &'a [u32; 256],
    slots: &'a [u32; 1024],
    buffer: &'a [u8; 11520],
    image: &[u8],
) -> Result<Counts, Refusal>
    ensures { (free erases : List ℕ)
        → Forecasts (joined (with_free numbers free) buffer.now lens.now slots.now erases) image.now result }
{
    let nand = numbers.nand;
    let torn = admit::page_size(nand);
    if admit::commit_begins(numbers, image.len(), torn)? {
        forecast_pending(numbers, lens, slots, buffer, image)
    } else {
        Ok(progress::nothing())
    }
}

// Forecast on a state by value.
pub fn forecast(state: State, image: &[u8]) -> Result<Counts, Refusal>
    ensures { Forecasts state image.now result }
{
    let numbers = state::numbers_of(state);
    forecast_lent(numbers, &state.lens, &state.slots, &state.buffer, image)
}
