// The bench program: a store that starts off, on a chip of 3 blocks of the small part, each byte 255, with torn bytes of 90. It reads frames of hexadecimal
// from standard input, one a line, and answers each by a line.
#![tactic(auto)]

ghost use Rattle.std.specs.Prelude.{IfOk, OnErr};
ghost use Rattle.bench.specs.Input.{EndsLine, EndsUntold, TakesIn, TakesFirst, TakesSome, TakesPart};

use frames::line::Line;
use frames::output::Text;
use frames::{frame, text};
use std::io;
use std::io::{Read, Write};
use store::state::State;
use store::{state, step};

// The state, and the line that is begun.
#[derive(Drop)]
struct Bench {
    state: State,
    line: Line,
}

// A line written.
fn print<W: Write>(writer: &mut W, t: Text) -> io::Result<()> {
    writer.write_all(t.as_bytes())
}

// A line that has ended: its frame is called, and its answer written. The call is made, also where the answer cannot be written.
fn answer_line<W: Write>(
    writer: &mut W,
    state: State,
    image: &mut [u8],
    torn: &[u8],
    line: Line,
) -> io::Result<State>
    ensures ok { IfOk result (λ s. EndsLine torn.now line state image.old s image.new) }
    ensures err { OnErr result (EndsUntold torn.now line state image.old image.new) }
{
    let Some(call) = frame::frame_of(line) else {
        print(writer, text::bad_text())?;
        return Ok(state);
    };
    let r = step::step(state, image, torn, call);
    let answer = r.answer;
    print(writer, text::answer_text(answer))?;
    Ok(r.state)
}

// The bytes of one read: a line feed ends a line. Where a write fails, the bytes behind that line are left.
fn take_bytes<W: Write>(
    writer: &mut W,
    bench: &mut Bench,
    image: &mut [u8],
    torn: &[u8],
    bytes: &[u8],
) -> io::Result<()>
    ensures ok { IfOk result (λ _. TakesIn torn.now bytes.now bench.old.line bench.old.state image.old bench.new.line bench.new.state image.new) }
    ensures err { OnErr result (TakesFirst torn.now bytes.now bench.old.line bench.old.state image.old image.new) }
{
    for byte in bytes {
        if *byte == b'\n' {
            bench.state = answer_line(writer, bench.state, image, torn, bench.line)?;
            bench.line = Line::new();
        } else {
            bench.line.push(*byte);
        }
    }
    Ok(())
}

// One read into a buffer: how many bytes it gave.
fn read_into<R: Read, W: Write>(
    reader: &mut R,
    writer: &mut W,
    bench: &mut Bench,
    image: &mut [u8],
    torn: &[u8],
    buffer: &mut [u8],
) -> io::Result<usize>
    ensures ok { IfOk result (λ _. TakesSome torn.now bench.old.line bench.old.state image.old bench.new.line bench.new.state image.new) }
    ensures err { OnErr result (TakesPart torn.now bench.old.line bench.old.state image.old image.new) }
{
    let n = reader.read(buffer)?;
    take_bytes(writer, bench, image, torn, &buffer[..n])?;
    Ok(n)
}

// One read, as much as a buffer holds.
fn turn<R: Read, W: Write>(
    reader: &mut R,
    writer: &mut W,
    bench: &mut Bench,
    image: &mut [u8],
    torn: &[u8],
) -> io::Result<usize>
    ensures ok { IfOk result (λ _. TakesSome torn.now bench.old.line bench.old.state image.old bench.new.line bench.new.state image.new) }
    ensures err { OnErr result (TakesPart torn.now bench.old.line bench.old.state image.old image.new) }
{
    let mut buffer = [0u8; 4096];
    read_into(reader, writer, bench, image, torn, &mut buffer)
}

// The input read in turns, to its end.
fn take_all<R: Read, W: Write>(
    reader: &mut R,
    writer: &mut W,
    bench: &mut Bench,
    image: &mut [u8],
    torn: &[u8],
) -> io::Result<()>
    ensures ok { IfOk result (λ _. TakesSome torn.now bench.old.line bench.old.state image.old bench.new.line bench.new.state image.new) }
    ensures err { OnErr result (TakesPart torn.now bench.old.line bench.old.state image.old image.new) }
{
    for _ in 0..u64::MAX {
        if turn(reader, writer, bench, image, torn)? == 0 {
            break;
        }
    }
    Ok(())
}

// All of the input; a last line without a line feed is a line too.
fn run<R: Read, W: Write>(
    reader: &mut R,
    writer: &mut W,
    image: &mut [u8],
    torn: &[u8],
) -> io::Result<()> {
    let mut bench = Bench {
        state: state::initial(),
        line: Line::new(),
    };
    take_all(reader, writer, &mut bench, image, torn)?;
    if !bench.line.is_empty() {
        answer_line(writer, bench.state, image, torn, bench.line)?;
    }
    Ok(())
}

fn main(rt: HostRuntime) -> io::Result<()> {
    let mut image = [255u8; 50688];
    let torn = [90u8; 528];
    let mut reader = rt.stdin();
    let mut writer = rt.stdout();
    run(&mut reader, &mut writer, &mut image, &torn)
}
