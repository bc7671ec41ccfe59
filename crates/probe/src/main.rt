// The probe program, for tests: a store that starts off, on a chip of 3 blocks of the small part, each byte 255, with torn bytes of 90. It reads
// frames of hexadecimal from standard input, one a line, and answers each by a line.
#![tactic(auto)]

ghost use Rattle.std.specs.Prelude.{◌≡◌, ◌<◌, length, IfOk, OnErr};
ghost use Rattle.probe.specs.Makes.{rig, CarriesOut, CarriesLine, CarriesIn, CarriesFirst, CarriesSome, CarriesPart};

mod bed;
mod calls;
mod output;

use crate::bed::Bed;
use crate::output::within;
use frames::line::Line;
use orders::order::Order;
use orders::{order, reply};
use std::io;
use std::io::{Read, Write};
use store::state;
use store::state::State;

// The state, what the calls are lent, and the bytes of output gathered.
#[derive(Clone, Copy)]
struct Probe {
    state: State,
    bed: Bed,
    at: usize,
}

// The probe, and the line that is begun.
#[derive(Drop)]
struct Reading {
    probe: Probe,
    line: Line,
}

// An order carried out, and its reply gathered. Where room for the reply cannot be made, it is not begun.
fn carry_out<W: Write>(
    writer: &mut W,
    probe: Probe,
    image: &mut [u8],
    torn: &mut [u8],
    out: &mut [u8],
    given: Option<Order>,
) -> io::Result<Probe>
    requires { length out.old ≡ 65536 }
    ensures ok { IfOk result (λ p. CarriesOut given (rig probe.bed torn.old probe.state image.old)
        (rig p.bed torn.new p.state image.new)) }
    ensures err { OnErr result (image.new ≡ image.old) }
    ensures err_torn { OnErr result (torn.new ≡ torn.old) }
    ensures err_full { OnErr result (60000 < probe.at) }
{
    let state = probe.state;
    let lent = probe.bed;
    let nand = lent.nand;
    let at = output::room(writer, out, probe.at)?;
    match given {
        None => {
            let end = reply::put_short(out, at, 255);
            Ok(Probe {
                state,
                bed: lent,
                at: end,
            })
        }
        Some(Order::Calls(call)) => {
            let n = within(lent.image, image);
            let t = within(lent.torn, torn);
            let told = calls::call(state, nand, &mut image[..n], &torn[..t], out, at, call);
            let after = told.state;
            Ok(Probe {
                state: after,
                bed: lent,
                at: told.at,
            })
        }
        Some(Order::Sets(setting)) => {
            let made = bed::make(lent, image, torn, out, at, setting);
            let bed = made.bed;
            let at = made.at;
            Ok(Probe { state, bed, at })
        }
    }
}

// A line that has ended.
fn answer_line<W: Write>(
    writer: &mut W,
    probe: Probe,
    image: &mut [u8],
    torn: &mut [u8],
    out: &mut [u8],
    l: Line,
) -> io::Result<Probe>
    requires { length out.old ≡ 65536 }
    ensures ok { IfOk result (λ p. CarriesLine l (rig probe.bed torn.old probe.state image.old)
        (rig p.bed torn.new p.state image.new)) }
    ensures err { OnErr result (image.new ≡ image.old) }
    ensures err_torn { OnErr result (torn.new ≡ torn.old) }
    ensures err_full { OnErr result (60000 < probe.at) }
{
    let given = order::order_of(l);
    carry_out(writer, probe, image, torn, out, given)
}

// The bytes of one read: a line feed ends a line. Where a write fails, that line and the bytes behind it are left.
fn take_bytes<W: Write>(
    writer: &mut W,
    reading: &mut Reading,
    image: &mut [u8],
    torn: &mut [u8],
    out: &mut [u8],
    bytes: &[u8],
) -> io::Result<()>
    requires { length out.old ≡ 65536 }
    ensures ok { IfOk result (λ _. CarriesIn bytes.now reading.old.line (rig reading.old.probe.bed torn.old reading.old.probe.state image.old)
        reading.new.line (rig reading.new.probe.bed torn.new reading.new.probe.state image.new)) }
    ensures err { OnErr result (CarriesFirst bytes.now reading.old.line (rig reading.old.probe.bed torn.old reading.old.probe.state image.old)
        torn.new image.new) }
{
    for byte in bytes {
        if *byte == b'\n' {
            reading.probe = answer_line(writer, reading.probe, image, torn, out, reading.line)?;
            reading.line = Line::new();
        } else {
            reading.line.push(*byte);
        }
    }
    Ok(())
}

// One read into a buffer: how many bytes it gave.
fn read_into<R: Read, W: Write>(
    reader: &mut R,
    writer: &mut W,
    reading: &mut Reading,
    image: &mut [u8],
    torn: &mut [u8],
    out: &mut [u8],
    buffer: &mut [u8],
) -> io::Result<usize>
    requires { length out.old ≡ 65536 }
    ensures ok { IfOk result (λ _. CarriesSome reading.old.line (rig reading.old.probe.bed torn.old reading.old.probe.state image.old)
        reading.new.line (rig reading.new.probe.bed torn.new reading.new.probe.state image.new)) }
    ensures err { OnErr result (CarriesPart reading.old.line (rig reading.old.probe.bed torn.old reading.old.probe.state image.old)
        torn.new image.new) }
{
    let n = reader.read(buffer)?;
    take_bytes(writer, reading, image, torn, out, &buffer[..n])?;
    Ok(n)
}

// One read, as much as a buffer holds.
fn turn<R: Read, W: Write>(
    reader: &mut R,
    writer: &mut W,
    reading: &mut Reading,
    image: &mut [u8],
    torn: &mut [u8],
    out: &mut [u8],
) -> io::Result<usize>
    requires { length out.old ≡ 65536 }
    ensures ok { IfOk result (λ _. CarriesSome reading.old.line (rig reading.old.probe.bed torn.old reading.old.probe.state image.old)
        reading.new.line (rig reading.new.probe.bed torn.new reading.new.probe.state image.new)) }
    ensures err { OnErr result (CarriesPart reading.old.line (rig reading.old.probe.bed torn.old reading.old.probe.state image.old)
        torn.new image.new) }
{
    let mut buffer = [0u8; 4096];
    read_into(reader, writer, reading, image, torn, out, &mut buffer)
}

// The probe before the first line.
fn begun() -> Reading {
    Reading {
        probe: Probe {
            state: state::initial(),
            bed: bed::first_bed(),
            at: 0,
        },
        line: Line::new(),
    }
}

// The end of the input: a last line without a line feed is a line too, and what is gathered is written.
fn finish<W: Write>(
    writer: &mut W,
    reading: Reading,
    image: &mut [u8],
    torn: &mut [u8],
    out: &mut [u8],
) -> io::Result<()>
    requires { length out.old ≡ 65536 }
{
    let before = reading.probe;
    let last = reading.line;
    if last.is_empty() {
        return output::flush(writer, out, before.at);
    }
    let after = answer_line(writer, before, image, torn, out, last)?;
    output::flush(writer, out, after.at)
}

// The input read in turns, to its end.
fn take_all<R: Read, W: Write>(
    reader: &mut R,
    writer: &mut W,
    reading: &mut Reading,
    image: &mut [u8],
    torn: &mut [u8],
    out: &mut [u8],
) -> io::Result<()>
    requires { length out.old ≡ 65536 }
    ensures ok { IfOk result (λ _. CarriesSome reading.old.line (rig reading.old.probe.bed torn.old reading.old.probe.state image.old)
        reading.new.line (rig reading.new.probe.bed torn.new reading.new.probe.state image.new)) }
    ensures err { OnErr result (CarriesPart reading.old.line (rig reading.old.probe.bed torn.old reading.old.probe.state image.old)
        torn.new image.new) }
{
    for _ in 0..u64::MAX {
        if turn(reader, writer, reading, image, torn, out)? == 0 {
            break;
        }
    }
    Ok(())
}

// All of the input.
fn run<R: Read, W: Write>(
    reader: &mut R,
    writer: &mut W,
    image: &mut [u8; 4460544],
    torn: &mut [u8; 2200],
    out: &mut [u8; 65536],
) -> io::Result<()> {
    let mut reading = begun();
    take_all(reader, writer, &mut reading, image, torn, out)?;
    finish(writer, reading, image, torn, out)
}

// The buffers: an image of 33 large blocks, torn bytes of a little more than a large page, and the output.
fn main(rt: HostRuntime) -> io::Result<()> {
    let mut image = [255u8; 4460544];
    let mut torn = [90u8; 2200];
    let mut out = [0u8; 65536];
    let mut reader = rt.stdin();
    let mut writer = rt.stdout();
    run(&mut reader, &mut writer, &mut image, &mut torn, &mut out)
}
