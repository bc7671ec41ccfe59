// Insert and delete: the tree step, as units in the reservation buffer.
ghost use Rattle.std.specs.Prelude.{◌≡◌, List, ℕ};
ghost use Rattle.store.specs.Ensured.{Inserts, Deletes};
ghost use Rattle.store.specs.Parts.{joined, parts_of, updated_with};

use crate::answer::Refusal;
use crate::state::{Numbers, State, Updated, UpdatedParts};
use crate::{admit, scope, state};
use tree::{delete, insert};

// The most units that the buffer of a state that calls gave holds before an update: 60 for each of 15.
const UNITS: usize = 900;

// What an update that gives these numbers, or is refused, gives back for `numbers`: a refusal changes none of them.
fn parts_of(numbers: Numbers, given: Result<Numbers, Refusal>) -> UpdatedParts
    ensures { result ≡ parts_of numbers given }
{
    match given {
        Ok(after) => UpdatedParts {
            answer: Ok(()),
            numbers: after,
        },
        Err(refusal) => UpdatedParts {
            answer: Err(refusal),
            numbers,
        },
    }
}

// (key, value) inserted into P: 2, 1, 3; 5 where the tree step needs a number or a level too many.
fn insert_tested<'a>(
    numbers: Numbers,
    lens: &'a [u32; 256],
    slots: &'a [u32; 1024],
    buffer: &mut [u8; 11520],
    image: &[u8],
    key: u32,
    value: u32,
) -> Result<Numbers, Refusal>
    ensures { (erases : List ℕ) → Inserts key value (joined numbers buffer.old lens.now slots.now erases)
        image.now (updated_with (parts_of numbers result) buffer.new lens.now slots.now erases) }
{
    admit::update_tests(numbers, image.len())?;
    if numbers.count > UNITS {
        return Err(Refusal::Nodes);
    }
    let nodes = scope::nodes_of(numbers, image, lens, slots);
    let mut free = numbers.free;
    let Some(used) = insert::insert(nodes, buffer, numbers.count, &mut free, key, value) else {
        return Err(Refusal::Nodes);
    };
    let mut n = numbers;
    n.count = used;
    n.free = free;
    n.pending = numbers.pending + 1;
    Ok(n)
}

// The entry of `key` taken out of P: 2, 1, 3; 4 where it is absent.
fn delete_tested<'a>(
    numbers: Numbers,
    lens: &'a [u32; 256],
    slots: &'a [u32; 1024],
    buffer: &mut [u8; 11520],
    image: &[u8],
    key: u32,
) -> Result<Numbers, Refusal>
    ensures { (erases : List ℕ) → Deletes key (joined numbers buffer.old lens.now slots.now erases)
        image.now (updated_with (parts_of numbers result) buffer.new lens.now slots.now erases) }
{
    admit::update_tests(numbers, image.len())?;
    if numbers.count > UNITS {
        return Err(Refusal::Absent);
    }
    let nodes = scope::nodes_of(numbers, image, lens, slots);
    let mut free = numbers.free;
    let Some(count) = delete::delete(nodes, buffer, numbers.count, &mut free, key) else {
        return Err(Refusal::Absent);
    };
    let mut n = numbers;
    n.count = count;
    n.free = free;
    n.pending = numbers.pending + 1;
    Ok(n)
}

// Insert on lent arrays: 2, 1, 3, 5. A refusal leaves every byte of the buffer.
pub fn insert_lent<'a>(
    numbers: Numbers,
    lens: &'a [u32; 256],
    slots: &'a [u32; 1024],
    buffer: &mut [u8; 11520],
    image: &[u8],
    key: u32,
    value: u32,
) -> UpdatedParts
    ensures { (erases : List ℕ) → Inserts key value (joined numbers buffer.old lens.now slots.now erases)
        image.now (updated_with result buffer.new lens.now slots.now erases) }
{
    let given = insert_tested(numbers, lens, slots, buffer, image, key, value);
    parts_of(numbers, given)
}

// Delete on lent arrays: 2, 1, 3, 4. A refusal leaves every byte of the buffer.
pub fn delete_lent<'a>(
    numbers: Numbers,
    lens: &'a [u32; 256],
    slots: &'a [u32; 1024],
    buffer: &mut [u8; 11520],
    image: &[u8],
    key: u32,
) -> UpdatedParts
    ensures { (erases : List ℕ) → Deletes key (joined numbers buffer.old lens.now slots.now erases)
        image.now (updated_with result buffer.new lens.now slots.now erases) }
{
    let given = delete_tested(numbers, lens, slots, buffer, image, key);
    parts_of(numbers, given)
}

// Insert on a state by value.
pub fn insert(state: State, image: &[u8], key: u32, value: u32) -> Updated
    ensures { Inserts key value state image.now result }
{
    let numbers = state::numbers_of(state);
    let mut buffer = state.buffer;
    let r = insert_lent(
        numbers,
        &state.lens,
        &state.slots,
        &mut buffer,
        image,
        key,
        value,
    );
    state::with_buffer(state, buffer, r)
}

// Delete on a state by value.
pub fn delete(state: State, image: &[u8], key: u32) -> Updated
    ensures { Deletes key state image.now result }
{
    let numbers = state::numbers_of(state);
    let mut buffer = state.buffer;
    let r = delete_lent(numbers, &state.lens, &state.slots, &mut buffer, image, key);
    state::with_buffer(state, buffer, r)
}
