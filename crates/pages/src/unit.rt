// Units: the records that a page holds, 12 bytes each.
ghost use Rattle.std.specs.Prelude.{◌≡◌, ◌<◌, ◌≤◌, ◌+◌, length};
ghost use Rattle.lists.specs.Lists.{patch};
ghost use Rattle.pages.specs.Units.{half, word, is_reset_value, decode_kind, decode, bytes_of, encode};

// What a unit does to its node.
#[derive(Clone, Copy)]
pub enum Update {
    Insert(u32, u32),
    Delete(u32),
    Reset(u32),
}

// An update with the node that it is for.
#[derive(Clone, Copy)]
pub struct Unit {
    pub node: u32,
    pub update: Update,
}

// The little-endian number of the two bytes that start at `at`.
pub fn read_half(b: &[u8], at: usize) -> u32
    requires { at + 2 ≤ length b.now }
    ensures { (result ≡ half b.now at) × (result < 65536) }
{
    u32::from(u16::from_le_bytes([b[at], b[at + 1]]))
}

// The little-endian number of the four bytes that start at `at`.
pub fn read_word(b: &[u8], at: usize) -> u32
    requires { at + 4 ≤ length b.now }
    ensures { result ≡ word b.now at }
{
    u32::from_le_bytes([b[at], b[at + 1], b[at + 2], b[at + 3]])
}

// Is this the value of a reset: a level, 0 to 3, or 255, which frees the node?
pub fn is_reset_value(value: u32) -> bool
    ensures { result ≡ is_reset_value value }
{
    value <= 3 || value == 255
}

// The unit of a node, a kind, a key and a value, where they obey the layout.
fn decode_kind(node: u32, kind: u8, key: u32, value: u32) -> Option<Unit>
    ensures { result ≡ decode_kind node kind key value }
{
    let update = match kind {
        1 => Update::Insert(key, value),
        2 if value == 0 => Update::Delete(key),
        3 if key == 0 && is_reset_value(value) => Update::Reset(value),
        _ => return None,
    };
    Some(Unit { node, update })
}

// The unit that the first 12 bytes are, where they obey the layout and the node number is below `limit`.
pub fn decode_unit(bytes: &[u8], limit: u32) -> Option<Unit>
    requires { 12 ≤ length bytes.now }
    ensures { result ≡ decode limit bytes.now }
{
    if bytes[1] != 0 {
        return None;
    }
    let node = read_half(bytes, 2);
    if node < limit {
        let key = read_word(bytes, 4);
        let value = read_word(bytes, 8);
        decode_kind(node, bytes[0], key, value)
    } else {
        None
    }
}

// The 12 bytes of a kind, a node, a key and a value.
fn fill(kind: u8, node: u32, key: u32, value: u32) -> [u8; 12]
    requires { node < 65536 }
    ensures { result ≡ bytes_of kind node key value }
{
    let [n0, n1, _, _] = node.to_le_bytes();
    let [k0, k1, k2, k3] = key.to_le_bytes();
    let [v0, v1, v2, v3] = value.to_le_bytes();
    [kind, 0, n0, n1, k0, k1, k2, k3, v0, v1, v2, v3]
}

// The 12 bytes of a unit.
pub fn encode_unit(unit: Unit) -> [u8; 12]
    requires { unit.node < 65536 }
    ensures { result ≡ encode unit }
{
    let node = unit.node;
    let update = unit.update;
    match update {
        Update::Insert(key, value) => fill(1, node, key, value),
        Update::Delete(key) => fill(2, node, key, 0),
        Update::Reset(level) => fill(3, node, 0, level),
    }
}

// The 12 bytes of a unit written at `at`.
pub fn put_unit(out: &mut [u8], at: usize, unit: Unit)
    requires { (at + 12 ≤ length out.old) × (unit.node < 65536) }
    ensures { out.new ≡ patch out.old at 12 (encode unit) }
{
    let bytes = encode_unit(unit);
    out[at..at + 12].copy_from_slice(&bytes);
}
