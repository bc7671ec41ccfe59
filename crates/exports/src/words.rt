// The numbers of a state as the caller keeps them, in six words: on (1, else off), blocks, commit, pending, count, part (1 large, else small);
// and the free node numbers in four words of 64 bits.
ghost use Rattle.std.specs.Prelude.{◌≡◌, ◌%◌, replicate};
ghost use Rattle.exports.specs.Words.{Loads, words_of, part_in, part_word};

use chip::geometry::Nand;
use store::state::Numbers;

// A number at the width of a word, modulo 2 to the power 32. Kept: the C interface counts in words of 32 bits.
fn narrow(x: usize) -> u32
    ensures { result ≡ x % 4294967296 }
{
    (x % 4294967296) as u32
}

// The part of a word: 1 is the large part, any other number the small part. No From: in the C interface a part is a word.
pub fn part_in(word: u32) -> Nand
    ensures { result ≡ part_in word }
{
    if word == 1 { Nand::Large } else { Nand::Small }
}

// A part as a word, as the C interface has it.
fn part_word(nand: Nand) -> u32
    ensures { result ≡ part_word nand }
{
    match nand {
        Nand::Small => 0,
        Nand::Large => 1,
    }
}

// The numbers that the words hold, with no free node number.
pub fn load(words: &[u32; 6]) -> Numbers
    ensures { Loads words.now (replicate 4 0) result }
{
    let nand = part_in(words[5]);
    Numbers {
        on: words[0] == 1,
        nand,
        blocks: words[1] as usize,
        commit: words[2],
        pending: words[3],
        free: [0; 4],
        count: words[4] as usize,
    }
}

// The numbers that the words hold, with the free node numbers lent.
pub fn load_free(words: &[u32; 6], free: &[u64; 4]) -> Numbers
    ensures { Loads words.now free.now result }
{
    let set = *free;
    let mut n = load(words);
    n.free = set;
    n
}

// The numbers but for the free ones written to the words; one above 32 bits, which no call gives, is taken modulo 2 to the power 32.
pub fn save(numbers: Numbers, words: &mut [u32; 6])
    ensures { words.new ≡ words_of numbers }
{
    let on = u32::from(numbers.on);
    let blocks = narrow(numbers.blocks);
    let count = narrow(numbers.count);
    let nand = numbers.nand;
    let part = part_word(nand);
    *words = [on, blocks, numbers.commit, numbers.pending, count, part];
}
