// The lines that the bench program prints.
ghost use Rattle.std.specs.Prelude.{◌≡◌, ◌++◌, ◌<◌, ◌≤◌, length};
ghost use Rattle.frames.specs.Frames.{digit_text, hex_text, answer_text, bad_text};
ghost use Rattle.frames.specs.LineCode.{TextSays};

use crate::output::Text;
use store::answer::Refusal;

// The digit of a number below 16.
pub fn digit_text(d: u32) -> u8
    requires { d < 16 }
    ensures { result ≡ digit_text d }
{
    if d < 10 {
        b'0' + d as u8
    } else {
        b'A' + (d - 10) as u8
    }
}

// The lowest digits of a number, as many as there are bytes, the most significant first.
pub fn put_hex(out: &mut [u8], n: u32)
    requires { length out.old ≤ 8 }
    ensures { out.new ≡ hex_text n (length out.old) }
{
    let digits = out.len();
    for (i, byte) in out.iter_mut().enumerate() {
        *byte = digit_text((n >> (4 * (digits - 1 - i))) % 16);
    }
}

// Two digits of a number.
fn short_text(n: u32) -> Text
    ensures { TextSays result (hex_text n 2) }
{
    let mut bytes = [b'\n'; 11];
    put_hex(&mut bytes[..2], n);
    Text { len: 3, bytes }
}

// The text of a value found.
fn found_text(v: u32) -> Text
    ensures { TextSays result (hex_text 0 2 ++ hex_text v 8) }
{
    let mut bytes = [b'\n'; 11];
    put_hex(&mut bytes[..2], 0);
    put_hex(&mut bytes[2..10], v);
    Text { len: 11, bytes }
}

// The text of an answer.
pub fn answer_text(answer: Result<Option<u32>, Refusal>) -> Text
    ensures { TextSays result (answer_text answer) }
{
    match answer {
        Ok(told) => match told {
            Some(value) => found_text(value),
            None => short_text(0),
        },
        Err(refusal) => short_text(u32::from(refusal)),
    }
}

// The text for a line that is no frame.
pub fn bad_text() -> Text
    ensures { TextSays result bad_text }
{
    Text {
        len: 3,
        bytes: [b'F', b'F', b'\n', 0, 0, 0, 0, 0, 0, 0, 0],
    }
}
