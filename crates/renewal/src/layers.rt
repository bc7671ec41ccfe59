// A tree laid anew from its records, level by level: node 0 the root, then the leaves, then the interior nodes.
ghost use Rattle.std.specs.Prelude.{◌≡◌, cond, ℕ, ◌+◌, ◌-◌, ◌^◌, ◌<◌, ◌≤◌, eqb, length, get_or, set};
ghost use Rattle.views.specs.NodeCode.{entries_in};
ghost use Rattle.tree.specs.Tree.{Table};
ghost use Rattle.tree.specs.Rebuild.{nodes_for};
ghost use Rattle.renewal.specs.LayersCode.{nodes_above, Listed, PutsLevel, PutsLevels, LaysTree};

use crate::nodes;

// The least key under a node whose entries begin at `from`: 0 for the first one.
fn low_key(keys: &[u32], from: usize) -> u32
    requires { from < length keys.now }
    ensures { result ≡ cond (eqb from 0) 0 (get_or keys.now from 0) }
{
    if from == 0 { 0 } else { keys[from] }
}

// The entry of node `number`, whose own entries begin at `from`, put at index `i`.
fn put_above(
    keys: &[u32],
    from: usize,
    number: usize,
    i: usize,
    lows: &mut [u32],
    numbers: &mut [u32],
)
    requires { (from < length keys.now) × (number < 256) × (i < length lows.old) × (i < length numbers.old) }
    ensures { (lows.new ≡ set lows.old i (cond (eqb from 0) 0 (get_or keys.now from 0)))
        × (numbers.new ≡ set numbers.old i number) }
{
    lows[i] = low_key(keys, from);
    numbers[i] = number as u32;
}

// More than 16 entries put in nodes of `level` from number `first` on, and the entries for these nodes in two arrays. Returns how many they are.
// No heap: `lows` and `numbers` have a fixed size, and the next level reads them as keys and values.
fn put_level(
    keys: &[u32],
    values: &[u32],
    count: usize,
    level: u32,
    first: usize,
    lows: &mut [u32],
    numbers: &mut [u32],
    sizes: &mut [u32],
    units: &mut [u8],
) -> usize
    requires { (16 < count) × (count ≤ length keys.now) × (count ≤ length values.now) × (count ≤ 4096) × (first + nodes_for count ≤ 256)
        × (length lows.old ≡ 256) × (length numbers.old ≡ 256) × (length sizes.old ≡ 256) × (length units.old ≡ 52224) }
    ensures { PutsLevel level first count (entries_in count keys.now values.now)
        sizes.old units.old sizes.new units.new lows.new numbers.new result }
{
    let nodes = count.div_ceil(16);
    let mut from = 0;
    for i in 0..nodes {
        let q = (count - from) / (nodes - i);
        nodes::put_node(keys, values, from, q, level, first + i, sizes, units);
        put_above(keys, from, first + i, i, lows, numbers);
        from += q;
    }
    nodes
}

// The entries put as node 0, or as nodes of `level` from number `first` on with the levels above them, the root at most of level 2. Returns the number after them.
fn put_levels(
    keys: &[u32],
    values: &[u32],
    count: usize,
    level: u32,
    first: usize,
    sizes: &mut [u32],
    units: &mut [u8],
) -> usize
    requires { (level ≤ 2) × (count ≤ 16 ^ (3 - level)) × (count ≤ length keys.now) × (count ≤ length values.now) × (1 ≤ first)
        × (first + nodes_above (2 - level) count ≤ 256) × (length sizes.old ≡ 256) × (length units.old ≡ 52224) }
    ensures { PutsLevels (2 - level) level first (entries_in count keys.now values.now)
        sizes.old units.old sizes.new units.new result }
{
    if count <= 16 {
        nodes::put_node(keys, values, 0, count, level, 0, sizes, units);
        return first;
    }
    let mut lows = [0; 256];
    let mut numbers = [0; 256];
    let nodes = put_level(
        keys,
        values,
        count,
        level,
        first,
        &mut lows,
        &mut numbers,
        sizes,
        units,
    );
    put_levels(
        &lows,
        &numbers,
        nodes,
        level + 1,
        first + nodes,
        sizes,
        units,
    )
}

// The tree of the records, and every other number that has a list freed. Returns how many nodes there are.
// No heap: keys and values stand in two arrays of fixed size, as the contract reads them.
pub fn lay_tree(
    keys: &[u32; 4096],
    values: &[u32; 4096],
    count: usize,
    lens: &[u32; 256],
    slots: &[u32; 1024],
    limit: u32,
    sizes: &mut [u32; 256],
    units: &mut [u8; 52224],
) -> usize
    requires { (count ≤ 4096) × (limit ≤ 256) × (1 + nodes_for count + nodes_for (nodes_for count) ≤ 256) }
    ensures { (t : Table) → Listed limit t lens.now slots.now
        → LaysTree limit t (entries_in count keys.now values.now) sizes.new units.new result }
{
    nodes::vacate(lens, slots, limit, sizes, units);
    put_levels(keys, values, count, 0, 1, sizes, units)
}
