// A node: its level and its entries in key order, with room for one entry more than a view holds.
ghost use Rattle.std.specs.Prelude.{◌≡◌, [], ◌+◌, ◌-◌, ◌<◌, ◌≤◌, length, take};
ghost use Rattle.views.specs.Nodes.{insert_entry, delete_entry};
ghost use Rattle.views.specs.NodeCode.{entries_in, entries_of, rank, Pushed, Pulled, HoldsEntries, Shows};

// The entries are the first `len` keys, each with the value at its index: memory is fixed, and the two arrays are lent (docs/DECISIONS.md 45).
#[derive(Clone, Copy)]
pub struct Node {
    pub level: u32,
    pub len: usize,
    pub keys: [u32; 17],
    pub values: [u32; 17],
}

// The first index whose key is not below `key`, or the length.
fn position(keys: &[u32], len: usize, key: u32) -> usize
    requires { len ≤ length keys.now }
    ensures { (result ≡ rank key (take len keys.now)) × (result ≤ len) }
{
    for i in 0..len {
        if key <= keys[i] {
            return i;
        }
    }
    len
}

// `x` at `p`, and what stood from there on among the first `len` one place further.
fn insert_at(a: &mut [u32], len: usize, p: usize, x: u32)
    requires { (p ≤ len) × (len < length a.old) }
    ensures { Pushed len p x a.old a.new }
{
    a.copy_within(p..len, p + 1);
    a[p] = x;
}

// Without what stands at `p`: what follows among the first `len` moves down.
fn remove_at(a: &mut [u32], len: usize, p: usize)
    requires { (p < len) × (len ≤ length a.old) }
    ensures { Pulled len p a.old a.new }
{
    a.copy_within(p + 1..len, p);
}

// An entry more, at `p`. Returns how many there are then.
fn gain(keys: &mut [u32], values: &mut [u32], len: usize, p: usize, key: u32, value: u32) -> usize
    requires { (length keys.old ≡ 17) × (length values.old ≡ 17) × (len ≤ 16) × (p ≤ len) }
    ensures { Pushed len p key keys.old keys.new × Pushed len p value values.old values.new × (result ≡ len + 1) }
{
    insert_at(keys, len, p, key);
    insert_at(values, len, p, value);
    len + 1
}

// The entry at `p` taken out. Returns how many are left.
fn lose(keys: &mut [u32], values: &mut [u32], len: usize, p: usize) -> usize
    requires { (length keys.old ≡ 17) × (length values.old ≡ 17) × (len ≤ 17) × (p < len) }
    ensures { Pulled len p keys.old keys.new × Pulled len p values.old values.new × (result ≡ len - 1) }
{
    remove_at(keys, len, p);
    remove_at(values, len, p);
    len - 1
}

// `key` with `value` among the first `len` entries, in the place of an equal key if there is one. Returns how many there are then.
pub fn put(keys: &mut [u32], values: &mut [u32], len: usize, key: u32, value: u32) -> usize
    requires { (length keys.old ≡ 17) × (length values.old ≡ 17) × (len ≤ 16) }
    ensures { HoldsEntries result keys.new values.new (insert_entry key value (entries_in len keys.old values.old)) }
{
    let p = position(keys, len, key);
    if p < len && keys[p] == key {
        values[p] = value;
        len
    } else {
        gain(keys, values, len, p, key, value)
    }
}

// The first `len` entries without `key`, if it is there. Returns how many are left.
pub fn take_out(keys: &mut [u32], values: &mut [u32], len: usize, key: u32) -> usize
    requires { (length keys.old ≡ 17) × (length values.old ≡ 17) × (len ≤ 17) }
    ensures { HoldsEntries result keys.new values.new (delete_entry key (entries_in len keys.old values.old)) × (result ≤ len) }
{
    let p = position(keys, len, key);
    if p < len && keys[p] == key {
        lose(keys, values, len, p)
    } else {
        len
    }
}

// A node with `key` and `value`, in the place of an equal key if there is one.
pub fn insert(n: Node, key: u32, value: u32) -> Node
    requires { n.len ≤ 16 }
    ensures { Shows result n.level (insert_entry key value (entries_of n)) }
{
    let mut keys = n.keys;
    let mut values = n.values;
    let len = put(&mut keys, &mut values, n.len, key, value);
    Node {
        level: n.level,
        len,
        keys,
        values,
    }
}

// No entries, at `level`.
pub fn reset(level: u32) -> Node
    ensures { Shows result level [] × (result.len ≡ 0) }
{
    Node {
        level,
        len: 0,
        keys: [0; 17],
        values: [0; 17],
    }
}
