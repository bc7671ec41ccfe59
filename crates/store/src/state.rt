// The state that each call gets by value and gives back.
ghost use Rattle.std.specs.Prelude.{◌≡◌};
ghost use Rattle.store.specs.State.{initial};
ghost use Rattle.store.specs.Parts.{numbers_of, numbers_off, joined, updated_with, wrote_with};

use crate::answer::Refusal;
use chip::geometry::Nand;
use chip::progress::Counts;

// The most units that the buffer holds.
pub const UNITS: usize = 960;

// On or off, the part, the number of blocks (B), the greatest commit number (G), the pending updates, the free node numbers as a set, the units of the
// reservation buffer with their count, the node table: for each node the length of its list and its pages, and for each block its erases
// since the last finished mount or format.
#[derive(Clone, Copy)]
pub struct State {
    pub on: bool,
    pub nand: Nand,
    pub blocks: usize,
    pub commit: u32,
    pub pending: u32,
    pub free: [u64; 4],
    pub count: usize,
    pub buffer: [u8; 11520],
    pub lens: [u32; 256],
    pub slots: [u32; 1024],
    pub erases: [u64; 32],
}

// A state but for its large arrays, for a caller that lends those.
#[derive(Clone, Copy)]
pub struct Numbers {
    pub on: bool,
    pub nand: Nand,
    pub blocks: usize,
    pub commit: u32,
    pub pending: u32,
    pub free: [u64; 4],
    pub count: usize,
}

// What format, mount and commit give back: the answer, the operations done by kind, the state.
#[derive(Clone, Copy)]
pub struct Wrote {
    pub answer: Result<(), Refusal>,
    pub ops: Counts,
    pub state: State,
}

// What insert and delete give back: the answer and the state.
#[derive(Clone, Copy)]
pub struct Updated {
    pub answer: Result<(), Refusal>,
    pub state: State,
}

// What insert and delete on lent arrays give back: the answer and the numbers.
#[derive(Clone, Copy)]
pub struct UpdatedParts {
    pub answer: Result<(), Refusal>,
    pub numbers: Numbers,
}

// What format, mount and commit on lent arrays give back: the answer, the operations done by kind, the numbers.
#[derive(Clone, Copy)]
pub struct WroteParts {
    pub answer: Result<(), Refusal>,
    pub ops: Counts,
    pub numbers: Numbers,
}

// A state that is off, to begin with.
pub fn initial() -> State
    ensures { result ≡ initial }
{
    State {
        on: false,
        nand: Nand::Small,
        blocks: 0,
        commit: 0,
        pending: 0,
        free: [0; 4],
        count: 0,
        buffer: [0; 11520],
        lens: [0; 256],
        slots: [0; 1024],
        erases: [0; 32],
    }
}

// The numbers of a state that is off and else the same.
pub fn turned_off(numbers: Numbers) -> Numbers
    ensures { result ≡ numbers_off numbers }
{
    let mut n = numbers;
    n.on = false;
    n
}

// The numbers of a state.
pub fn numbers_of(state: State) -> Numbers
    ensures { result ≡ numbers_of state }
{
    let nand = state.nand;
    let free = state.free;
    Numbers {
        on: state.on,
        nand,
        blocks: state.blocks,
        commit: state.commit,
        pending: state.pending,
        free,
        count: state.count,
    }
}

// The state of these numbers and these arrays.
fn join(
    numbers: Numbers,
    buffer: [u8; 11520],
    lens: [u32; 256],
    slots: [u32; 1024],
    erases: [u64; 32],
) -> State
    ensures { result ≡ joined numbers buffer lens slots erases }
{
    let nand = numbers.nand;
    let free = numbers.free;
    State {
        on: numbers.on,
        nand,
        blocks: numbers.blocks,
        commit: numbers.commit,
        pending: numbers.pending,
        free,
        count: numbers.count,
        buffer,
        lens,
        slots,
        erases,
    }
}

// What an update gives back for the state, with the buffer that it leaves.
pub fn with_buffer(state: State, buffer: [u8; 11520], parts: UpdatedParts) -> Updated
    ensures { result ≡ updated_with parts buffer state.lens state.slots state.erases }
{
    let answer = parts.answer;
    let numbers = parts.numbers;
    let lens = state.lens;
    let slots = state.slots;
    let erases = state.erases;
    let s = join(numbers, buffer, lens, slots, erases);
    Updated { answer, state: s }
}

// What format, mount or commit gives back for the state, with the node table and the erases that it leaves.
pub fn with_table(
    state: State,
    lens: [u32; 256],
    slots: [u32; 1024],
    erases: [u64; 32],
    parts: WroteParts,
) -> Wrote
    ensures { result ≡ wrote_with parts state.buffer lens slots erases }
{
    let answer = parts.answer;
    let ops = parts.ops;
    let numbers = parts.numbers;
    let buffer = state.buffer;
    let s = join(numbers, buffer, lens, slots, erases);
    Wrote {
        answer,
        ops,
        state: s,
    }
}
