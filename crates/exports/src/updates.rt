// Insert and delete.
ghost use Rattle.std.specs.Prelude.{◌≡◌};
ghost use Rattle.store.specs.Answers.{refusal_number};
ghost use Rattle.exports.specs.Words.{words_of};
ghost use Rattle.exports.specs.Calls.{InsertsTold, DeletesTold};

use crate::words;
use store::state::UpdatedParts;
use store::{answer, update};

// What an update gave back: its numbers and its free numbers written to the caller's, and its refusal, 0 for none.
fn give(updated: UpdatedParts, numbers: &mut [u32; 6], free: &mut [u64; 4]) -> u32
    ensures { (result ≡ refusal_number updated.answer) × (numbers.new ≡ words_of updated.numbers) × (free.new ≡ updated.numbers.free) }
{
    let after = updated.numbers;
    let left = after.free;
    *free = left;
    words::save(after, numbers);
    answer::number(updated.answer)
}

// Insert: the refusal; accepted, the numbers, the free node numbers and the buffer have the update.
#[unsafe(no_mangle)]
pub extern "C" fn vehinoke_insert<'a>(
    numbers: &mut [u32; 6],
    free: &mut [u64; 4],
    lens: &'a [u32; 256],
    slots: &'a [u32; 1024],
    buffer: &mut [u8; 11520],
    image: &[u8],
    key: u32,
    value: u32,
) -> u32
    ensures { InsertsTold key value numbers.old free.old buffer.old lens.now slots.now image.now
        result numbers.new free.new buffer.new }
{
    let n = words::load_free(numbers, free);
    let u = update::insert_lent(n, lens, slots, buffer, image, key, value);
    give(u, numbers, free)
}

// Delete: the refusal; accepted, the numbers, the free node numbers and the buffer have the update.
#[unsafe(no_mangle)]
pub extern "C" fn vehinoke_delete<'a>(
    numbers: &mut [u32; 6],
    free: &mut [u64; 4],
    lens: &'a [u32; 256],
    slots: &'a [u32; 1024],
    buffer: &mut [u8; 11520],
    image: &[u8],
    key: u32,
) -> u32
    ensures { DeletesTold key numbers.old free.old buffer.old lens.now slots.now image.now
        result numbers.new free.new buffer.new }
{
    let n = words::load_free(numbers, free);
    let u = update::delete_lent(n, lens, slots, buffer, image, key);
    give(u, numbers, free)
}
