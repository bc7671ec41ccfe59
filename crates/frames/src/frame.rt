// A line taken as the frame of a call.
ghost use Rattle.std.specs.Prelude.{◌≡◌, ◌<◌, ◌≤◌, length, MatchOption};
ghost use Rattle.frames.specs.Frames.{digit_of, is_digit, all_digits, number_in, fields_of, framed};
ghost use Rattle.frames.specs.LineCode.{Frames};

use crate::line::Line;
use chip::geometry::Nand;
use store::step::Call;

// The numbers of a frame, by its length: a kind; a kind and a byte; a kind and a number; a kind, a number and a byte; a kind and two numbers.
#[derive(Clone, Copy)]
pub enum Fields {
    Bare(u32),
    Named(u32, u32),
    Single(u32, u32),
    Marked(u32, u32, u32),
    Double(u32, u32, u32),
}

// The number of a digit, none for a byte that is no digit.
pub fn digit(byte: u8) -> Option<u32>
    ensures { MatchOption result (digit_of byte ≡ 16) (λ d. (d ≡ digit_of byte) × (d < 16)) }
{
    match byte {
        b'0'..=b'9' => Some((byte - b'0') as u32),
        b'A'..=b'F' => Some((byte - b'A' + 10) as u32),
        _ => None,
    }
}

// Whether a byte is a digit.
fn is_digit(byte: u8) -> bool
    ensures { result ≡ is_digit byte }
{
    digit(byte).is_some()
}

// Whether all bytes are digits.
pub fn all_digits(s: &[u8]) -> bool
    ensures { result ≡ all_digits s.now }
{
    s.iter().all(|byte| is_digit(*byte))
}

// The number of at most 8 digits, none where a byte is no digit.
pub fn value_of(s: &[u8]) -> Option<u32>
    requires { length s.now ≤ 8 }
    ensures { result ≡ number_in s.now }
{
    let mut v = 0;
    for byte in s {
        v = 16 * v + digit(*byte)?;
    }
    Some(v)
}

// The numbers of a line of these bytes, none where it is no frame of any kind.
pub fn fields_of(s: &[u8]) -> Option<Fields>
    ensures { result ≡ fields_of s.now }
{
    let kind = value_of(s.get(..2)?)?;
    match s.len() {
        2 => Some(Fields::Bare(kind)),
        4 => Some(Fields::Named(kind, value_of(&s[2..])?)),
        10 => Some(Fields::Single(kind, value_of(&s[2..])?)),
        12 => Some(Fields::Marked(kind, value_of(&s[2..10])?, value_of(&s[10..])?)),
        18 => Some(Fields::Double(kind, value_of(&s[2..10])?, value_of(&s[10..])?)),
        _ => None,
    }
}

// The call of a frame.
fn call_of(fields: Fields) -> Option<Call>
    ensures { result ≡ framed fields }
{
    match fields {
        Fields::Bare(0) => Some(Call::Format(Nand::Small, u32::MAX)),
        Fields::Single(2, key) => Some(Call::Delete(key)),
        Fields::Single(3, key) => Some(Call::LookUp(key)),
        Fields::Single(4, allowance) => Some(Call::Commit(allowance)),
        Fields::Single(5, allowance) => Some(Call::Mount(Nand::Small, allowance)),
        Fields::Double(1, key, value) => Some(Call::Insert(key, value)),
        _ => None,
    }
}

// The call of the frame that a line is, none where it is no frame.
pub fn frame_of(line: Line) -> Option<Call>
    ensures { Frames line result }
{
    call_of(fields_of(line.bytes()?)?)
}
