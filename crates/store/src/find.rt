// Look up: the value of a key in P, and the pages read for it.
ghost use Rattle.std.specs.Prelude.{List, ℕ};
ghost use Rattle.store.specs.Ensured.{Looks};
ghost use Rattle.store.specs.Parts.{joined, with_free};

use crate::answer::{Look, Refusal};
use crate::state::{Numbers, State};
use crate::{admit, scope, state};
use tree::find;

// Look up on lent arrays: the value of `key`, or none where it is absent, with the pages read on the way to its leaf.
pub fn look_up_lent<'a>(
    numbers: Numbers,
    lens: &'a [u32; 256],
    slots: &'a [u32; 1024],
    buffer: &'a [u8; 11520],
    image: &[u8],
    key: u32,
) -> Result<Look, Refusal>
    ensures { (free erases : List ℕ) → Looks key (joined (with_free numbers free) buffer.now lens.now slots.now erases) image.now result }
{
    admit::admit(numbers, image.len())?;
    let nodes = scope::nodes_of(numbers, image, lens, slots);
    let looked = find::find(nodes, buffer, numbers.count, key);
    let value = looked.hit;
    let pages = looked.pages;
    Ok(Look { value, pages })
}

// Look up on a state by value.
pub fn look_up(state: State, image: &[u8], key: u32) -> Result<Look, Refusal>
    ensures { Looks key state image.now result }
{
    let numbers = state::numbers_of(state);
    look_up_lent(
        numbers,
        &state.lens,
        &state.slots,
        &state.buffer,
        image,
        key,
    )
}
