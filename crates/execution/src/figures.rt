// The erases of each block, after those of a commit.
ghost use Rattle.std.specs.Prelude.{◌≡◌, ◌+◌, ◌%◌, ◌^◌, ◌<◌, ◌≤◌, map, length, take, slice_index, slice_set};
ghost use Rattle.lists.specs.Lists.{All};
ghost use Rattle.chip.specs.Chip.{Op};
ghost use Rattle.chip.specs.Erases.{figures_after};

// One more erase of block `b`. Figures wrap at 2^64, which no number of commits reaches.
fn count_erase(erases: &mut [u64], b: usize)
    requires { b < length erases.old }
    ensures { erases.new ≡ slice_set erases.old b ((slice_index erases.old b + 1) % 2 ^ 64) }
{
    erases[b] = erases[b].wrapping_add(1);
}

// The first `count` blocks of the list of a plan, each erased once more.
pub fn count_erases(erases: &mut [u64; 32], erased: &[u32; 32], count: usize)
    requires { (count ≤ 32) × All (◌< 32) (take count erased.now) }
    ensures { erases.new ≡ figures_after (map Op.erase (take count erased.now)) erases.old }
{
    for b in &erased[..count] {
        count_erase(erases, *b as usize);
    }
}
