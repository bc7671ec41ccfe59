// The lines that the probe writes, gathered in a buffer: each function writes behind the first `at` bytes of it, and gives the number of
// bytes gathered then.
ghost use Rattle.std.specs.Prelude.{◌≡◌, [], ◌∷◌, ◌+◌, ◌*◌, ◌≤◌, length};
ghost use Rattle.frames.specs.Frames.{hex_text};
ghost use Rattle.orders.specs.Replies.{short_line, counted_line, counts_line, found_line, look_line, report_line, bytes_text, shown_line};
ghost use Rattle.orders.specs.ReplyCode.{Adds};

use chip::progress::Counts;
use frames::text;
use store::answer::{Look, Refusal, Report};

// The lowest `digits` digits of a number.
fn put_number(out: &mut [u8], at: usize, n: u32, digits: usize) -> usize
    requires { (at + digits ≤ length out.old) × (digits ≤ 8) }
    ensures { Adds out.old at (hex_text n digits) out.new result }
{
    let end = at + digits;
    text::put_hex(&mut out[at..end], n);
    end
}

// A number of 64 bits in 16 digits.
fn put_wide(out: &mut [u8], at: usize, n: u64) -> usize
    requires { at + 16 ≤ length out.old }
    ensures { Adds out.old at (hex_text n 16) out.new result }
{
    let high = (n / 4294967296) as u32;
    let low = (n % 4294967296) as u32;
    let a = put_number(out, at, high, 8);
    put_number(out, a, low, 8)
}

// A line feed.
fn put_feed(out: &mut [u8], at: usize) -> usize
    requires { at + 1 ≤ length out.old }
    ensures { Adds out.old at (10 ∷ []) out.new result }
{
    out[at] = b'\n';
    at + 1
}

// A refusal alone, or FF for a line that is no frame.
pub fn put_short(out: &mut [u8], at: usize, refusal: u32) -> usize
    requires { at + 3 ≤ length out.old }
    ensures { Adds out.old at (short_line refusal) out.new result }
{
    let a = put_number(out, at, refusal, 2);
    put_feed(out, a)
}

// A refusal and a number of 8 digits.
pub fn put_counted(out: &mut [u8], at: usize, refusal: u32, n: u32) -> usize
    requires { at + 11 ≤ length out.old }
    ensures { Adds out.old at (counted_line refusal n) out.new result }
{
    let a = put_number(out, at, refusal, 2);
    let b = put_number(out, a, n, 8);
    put_feed(out, b)
}

// A refusal and the operations done by kind: data programs, marks set, erases.
pub fn put_counts(out: &mut [u8], at: usize, refusal: u32, ops: Counts) -> usize
    requires { at + 27 ≤ length out.old }
    ensures { Adds out.old at (counts_line refusal ops) out.new result }
{
    let a = put_number(out, at, refusal, 2);
    let b = put_number(out, a, ops.programs, 8);
    let c = put_number(out, b, ops.marks, 8);
    let d = put_number(out, c, ops.erases, 8);
    put_feed(out, d)
}

// A value found and the pages read.
fn put_found(out: &mut [u8], at: usize, value: u32, pages: u32) -> usize
    requires { at + 13 ≤ length out.old }
    ensures { Adds out.old at (found_line value pages) out.new result }
{
    let a = put_number(out, at, 0, 2);
    let b = put_number(out, a, value, 8);
    put_short(out, b, pages)
}

// What a look up answers.
pub fn put_look(out: &mut [u8], at: usize, look: Result<Look, Refusal>) -> usize
    requires { at + 13 ≤ length out.old }
    ensures { Adds out.old at (look_line look) out.new result }
{
    match look {
        Ok(l) => match l.value {
            Some(value) => put_found(out, at, value, l.pages),
            None => {
                let a = put_number(out, at, u32::from(Refusal::Absent), 2);
                put_short(out, a, l.pages)
            }
        },
        Err(refusal) => put_short(out, at, u32::from(refusal)),
    }
}

// What a block report answers.
pub fn put_report(out: &mut [u8], at: usize, report: Result<Report, Refusal>) -> usize
    requires { at + 23 ≤ length out.old }
    ensures { Adds out.old at (report_line report) out.new result }
{
    match report {
        Ok(r) => {
            let a = put_number(out, at, 0, 2);
            let b = put_number(out, a, r.free, 2);
            let c = put_number(out, b, r.first, 2);
            let d = put_wide(out, c, r.erases);
            put_feed(out, d)
        }
        Err(refusal) => put_short(out, at, u32::from(refusal)),
    }
}

// Bytes, two digits each.
fn put_bytes(out: &mut [u8], at: usize, bytes: &[u8]) -> usize
    requires { at + 2 * length bytes.now ≤ length out.old }
    ensures { Adds out.old at (bytes_text bytes.now) out.new result }
{
    let mut end = at;
    for byte in bytes {
        end = put_number(out, end, u32::from(*byte), 2);
    }
    end
}

// The bytes of a part that is shown.
pub fn put_shown(out: &mut [u8], at: usize, bytes: &[u8]) -> usize
    requires { at + 2 * length bytes.now + 3 ≤ length out.old }
    ensures { Adds out.old at (shown_line bytes.now) out.new result }
{
    let a = put_number(out, at, 0, 2);
    let b = put_bytes(out, a, bytes);
    put_feed(out, b)
}
