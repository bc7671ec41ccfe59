// Format, mount, rebuild and commit.
ghost use Rattle.std.specs.Prelude.{◌≡◌, [], ◌∷◌};
ghost use Rattle.exports.specs.Calls.{Tells, FormatsTold, MountsTold, RebuildsTold, CommitsTold};

use crate::words;
use store::answer::Refusal;
use store::state::WroteParts;
use store::{answer, commit, format, mount, rebuild};

// What a call gave back: its numbers and its counts of operations written to the caller's words, and its refusal, 0 for none.
fn give(wrote: WroteParts, numbers: &mut [u32; 6], ops: &mut [u32; 3]) -> u32
    ensures { Tells wrote result ops.new numbers.new }
{
    let after = wrote.numbers;
    words::save(after, numbers);
    let done = wrote.ops;
    *ops = [done.programs, done.marks, done.erases];
    answer::number(wrote.answer)
}

// What a call gave back, its free numbers too: written to the caller's words, and its refusal, 0 for none.
fn give_free(
    wrote: WroteParts,
    numbers: &mut [u32; 6],
    free: &mut [u64; 4],
    ops: &mut [u32; 3],
) -> u32
    ensures { Tells wrote result ops.new numbers.new × (free.new ≡ wrote.numbers.free) }
{
    let after = wrote.numbers;
    let left = after.free;
    *free = left;
    give(wrote, numbers, ops)
}

// The refusal of a number that names no part, with no operation told.
fn no_part(ops: &mut [u32; 3]) -> u32
    ensures { (result ≡ 1) × (ops.new ≡ 0 ∷ 0 ∷ 0 ∷ []) }
{
    *ops = [0, 0, 0];
    u32::from(Refusal::Size)
}

// Format as the part named, 0 small and 1 large; with any other number it is refused with 1 and changes nothing. The refusal, and in `ops` the
// operations done: data programs, marks set, erases.
#[unsafe(no_mangle)]
pub extern "C" fn vehinoke_format(
    numbers: &mut [u32; 6],
    free: &mut [u64; 4],
    lens: &mut [u32; 256],
    slots: &mut [u32; 1024],
    erases: &mut [u64; 32],
    image: &mut [u8],
    torn: &[u8],
    part: u32,
    allowance: u32,
    ops: &mut [u32; 3],
) -> u32
    ensures { FormatsTold part allowance torn.now numbers.old free.old lens.old slots.old erases.old image.old
        result ops.new numbers.new free.new lens.new slots.new erases.new image.new }
{
    if 1 < part {
        return no_part(ops);
    }
    let nand = words::part_in(part);
    let n = words::load_free(numbers, free);
    let w = format::format_lent(n, nand, lens, slots, erases, image, torn, allowance);
    give_free(w, numbers, free, ops)
}

// Mount as the part named, by the same numbers: the refusal, and in `ops` the operations done: data programs, marks set, erases.
#[unsafe(no_mangle)]
pub extern "C" fn vehinoke_mount(
    numbers: &mut [u32; 6],
    free: &mut [u64; 4],
    lens: &mut [u32; 256],
    slots: &mut [u32; 1024],
    erases: &mut [u64; 32],
    image: &mut [u8],
    torn: &[u8],
    part: u32,
    allowance: u32,
    ops: &mut [u32; 3],
) -> u32
    ensures { MountsTold part allowance torn.now numbers.old free.old lens.old slots.old erases.old image.old
        result ops.new numbers.new free.new lens.new slots.new erases.new image.new }
{
    if 1 < part {
        return no_part(ops);
    }
    let nand = words::part_in(part);
    let n = words::load_free(numbers, free);
    let w = mount::mount_lent(n, nand, lens, slots, erases, image, torn, allowance);
    give_free(w, numbers, free, ops)
}

// Rebuild as the part named, by the same numbers: the refusal, and in `ops` the operations done: data programs, marks set, erases.
#[unsafe(no_mangle)]
pub extern "C" fn vehinoke_rebuild(
    numbers: &mut [u32; 6],
    free: &mut [u64; 4],
    lens: &mut [u32; 256],
    slots: &mut [u32; 1024],
    erases: &mut [u64; 32],
    image: &mut [u8],
    torn: &[u8],
    part: u32,
    allowance: u32,
    ops: &mut [u32; 3],
) -> u32
    ensures { RebuildsTold part allowance torn.now numbers.old free.old lens.old slots.old erases.old image.old
        result ops.new numbers.new free.new lens.new slots.new erases.new image.new }
{
    if 1 < part {
        return no_part(ops);
    }
    let nand = words::part_in(part);
    let n = words::load_free(numbers, free);
    let w = rebuild::rebuild_lent(n, nand, lens, slots, erases, image, torn, allowance);
    give_free(w, numbers, free, ops)
}

// Commit, whatever the free node numbers, which stay: the refusal, and in `ops` the operations done: data programs, marks set, erases.
#[unsafe(no_mangle)]
pub extern "C" fn vehinoke_commit(
    numbers: &mut [u32; 6],
    lens: &mut [u32; 256],
    slots: &mut [u32; 1024],
    erases: &mut [u64; 32],
    buffer: &[u8; 11520],
    image: &mut [u8],
    torn: &[u8],
    allowance: u32,
    ops: &mut [u32; 3],
) -> u32
    ensures { CommitsTold allowance torn.now numbers.old buffer.now lens.old slots.old erases.old image.old
        result ops.new numbers.new lens.new slots.new erases.new image.new }
{
    let n = words::load(numbers);
    let w = commit::commit_lent(n, lens, slots, erases, buffer, image, torn, allowance);
    give(w, numbers, ops)
}
