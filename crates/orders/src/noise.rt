// Noise, the same from the same seed.
ghost use Rattle.std.specs.Prelude.{◌≡◌, length};
ghost use Rattle.orders.specs.Noises.{next_number, noise_byte, noise_of};

// The number after x.
fn next_number(x: u32) -> u32
    ensures { result ≡ next_number x }
{
    x.wrapping_mul(1664525).wrapping_add(1013904223)
}

// The byte that a number gives: its bits 16 to 23.
fn noise_byte(x: u32) -> u8
    ensures { result ≡ noise_byte x }
{
    (x / 65536 % 256) as u8
}

// The bytes filled with the noise of a seed.
pub fn fill(s: &mut [u8], seed: u32)
    ensures { s.new ≡ noise_of seed (length s.old) }
{
    let mut x = seed;
    for byte in s.iter_mut() {
        x = next_number(x);
        *byte = noise_byte(x);
    }
}
