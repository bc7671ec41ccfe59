// The CRC-32 of bytes, bit by bit.
ghost use Rattle.std.specs.Prelude.{◌≡◌};
ghost use Rattle.orders.specs.Sums.{bit_step, byte_step, sum_of};

// The remainder after one bit, the lowest.
fn bit_step(c: u32) -> u32
    ensures { result ≡ bit_step c }
{
    if c % 2 == 1 {
        c / 2 ^ 0xEDB8_8320
    } else {
        c / 2
    }
}

// The remainder after the 8 bits of a byte.
fn byte_step(c: u32, byte: u8) -> u32
    ensures { result ≡ byte_step c byte }
{
    let mut x = c ^ u32::from(byte);
    for _ in 0..8u32 {
        x = bit_step(x);
    }
    x
}

// The CRC-32 of bytes.
pub fn sum(s: &[u8]) -> u32
    ensures { result ≡ sum_of s.now }
{
    s.iter().fold(u32::MAX, |c, byte| byte_step(c, *byte)) ^ u32::MAX
}
