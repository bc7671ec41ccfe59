// The set of the free numbers: the least one, how many there are, one put in and one taken out.
ghost use Rattle.std.specs.Prelude.{◌≡◌, true, false};
ghost use Rattle.numbers.specs.NumberSet.{words_of, Counts, IsLeast, Changes, uncounted};

// How many numbers the set has.
pub fn count(set: &[u64; 4]) -> u32
    ensures { Counts set.now result }
{
    set[0].count_ones() + set[1].count_ones() + set[2].count_ones() + set[3].count_ones()
}

// The least number of the set, if it has one.
pub fn least(set: &[u64; 4]) -> Option<u32>
    ensures { IsLeast set.now result }
{
    for (w, word) in set.iter().enumerate() {
        if *word != 0 {
            return Some((64 * w) as u32 + word.trailing_zeros());
        }
    }
    None
}

// The set with number `n`; a number past 255 changes nothing.
pub fn put_in(set: &mut [u64; 4], n: u32)
    ensures { Changes true n set.old set.new }
{
    if n < 256 {
        set[(n / 64) as usize] |= 1 << (n % 64);
    }
}

// The set without number `n`; a number past 255 changes nothing.
pub fn take_out(set: &mut [u64; 4], n: u32)
    ensures { Changes false n set.old set.new }
{
    if n < 256 {
        set[(n / 64) as usize] &= !(1 << (n % 64));
    }
}

// The numbers below `limit` whose count is 0.
pub fn gather(counts: &[u32; 256], limit: u32, set: &mut [u64; 4])
    ensures { set.new ≡ words_of (uncounted limit counts.now) }
{
    *set = [0; 4];
    for n in 0..limit.min(256) {
        if counts[n as usize] == 0 {
            put_in(set, n);
        }
    }
}
