// The reservation buffer: units that no page holds yet, one after the other, with their count beside them.
ghost use Rattle.std.specs.Prelude.{◌≡◌, ◌*◌, ◌<◌, length};
ghost use Rattle.lists.specs.Lists.{patch};
ghost use Rattle.pages.specs.Units.{encode};

use pages::unit::{Unit, put_unit};

// A unit behind the `count` units that the buffer holds. No heap: the buffer has a fixed size, and its count goes beside it.
pub fn push_unit(buffer: &mut [u8; 11520], count: usize, unit: Unit)
    requires { (count < 960) × (unit.node < 65536) }
    ensures { (buffer.new ≡ patch buffer.old (12 * count) 12 (encode unit))
        × (length buffer.old ≡ 11520) }
{
    put_unit(buffer, 12 * count, unit);
}
