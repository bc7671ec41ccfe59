// The units that a node has in the buffer, kept at its place.
ghost use Rattle.std.specs.Prelude.{◌≡◌, [], ◌*◌, ◌-◌, ◌<◌, ◌≤◌, length, take};
ghost use Rattle.pages.specs.Units.{decode};
ghost use Rattle.contents.specs.ContentsCode.{Appends, Keeps, picked, with_update, own_in};

use pages::unit;
use pages::unit::{Unit, put_unit};

// The unit that the first 12 bytes are, where it is one of node `number`; of other nodes' units only the node number is read.
fn own_unit(bytes: &[u8], number: u32, limit: u32) -> Option<Unit>
    requires { 12 ≤ length bytes.now }
    ensures { result ≡ picked number (decode limit bytes.now) }
{
    if unit::read_half(bytes, 2) == number {
        return unit::decode_unit(bytes, limit);
    }
    None
}

// A unit of node `number` kept behind the `k` that are there, if the 12 bytes are one and there is room. Returns the count after it.
fn keep_one(bytes: &[u8], number: u32, limit: u32, units: &mut [u8], k: u32) -> u32
    requires { (12 ≤ length bytes.now) × (number < 256) × (length units.old ≡ 52224) × (k ≤ 17) }
    ensures { Appends number k (take (17 - k) (with_update (picked number (decode limit bytes.now)) [])) units.old units.new result }
{
    let d = own_unit(bytes, number, limit);
    let Some(u) = d else {
        return k;
    };
    if k >= 17 {
        return k;
    }
    let at = 17 * (number as usize) + (k as usize);
    put_unit(units, 12 * at, u);
    k + 1
}

// The buffered units of node `number` kept at its place, the first 17 of them. Returns how many there are.
pub fn keep_own(buffer: &[u8], count: usize, limit: u32, number: u32, units: &mut [u8]) -> u32
    requires { (12 * count ≤ length buffer.now) × (number < 256) × (length units.old ≡ 52224) }
    ensures { Keeps number (take 17 (own_in limit number count buffer.now)) units.old units.new result }
{
    let mut k: u32 = 0;
    for bytes in buffer[..12 * count].chunks_exact(12) {
        k = keep_one(bytes, number, limit, units, k);
    }
    k
}
