// The cases of the first demand and of the large part, each as a call: a line for each with the refusal in two digits, and behind it what the call tells.
#![tactic(auto)]

ghost use Rattle.std.specs.Prelude.{◌≤◌};

use chip::geometry::Nand;
use chip::progress::Counts;
use orders::noise;
use std::io;
use store::answer::Refusal;
use store::state::State;
use store::{answer, find, format, mount, report, state, update};

// The refusal in two digits, and a number that the call tells.
fn tell(rt: &impl Print, refusal: u32, told: u32) -> io::Result<()> {
    println!(rt; "{refusal:02} {told}")
}

// The refusal, and the operations that the call tells by kind.
fn tell_counts(rt: &impl Print, refusal: u32, ops: Counts) -> io::Result<()> {
    println!(rt;
        "{refusal:02} {} {} {}",
        ops.programs, ops.marks, ops.erases
    )
}

// A look up: the refusal, and the pages read.
fn look(rt: &impl Print, state: State, image: &[u8], key: u32) -> io::Result<()> {
    match find::look_up(state, image, key) {
        Ok(l) => match l.value {
            Some(value) => {
                tell(rt, 0, l.pages)?;
                tell(rt, 0, value)
            }
            None => tell(rt, u32::from(Refusal::Absent), l.pages),
        },
        Err(refusal) => tell(rt, u32::from(refusal), 0),
    }
}

// A block report: the refusal; the free pages, the first of them and the erases of the block.
fn free(rt: &impl Print, state: State, image: &[u8], block: u32) -> io::Result<()> {
    match report::block_report(state, image, block) {
        Ok(r) => println!(rt; "00 {} {} {}", r.free, r.first, r.erases),
        Err(refusal) => tell(rt, u32::from(refusal), 0),
    }
}

// An insert that keeps the state it gives.
fn insert(rt: &impl Print, state: State, image: &[u8], key: u32) -> io::Result<State> {
    let r = update::insert(state, image, key, 1000 + key % 1000);
    tell(rt, answer::number(r.answer), 0)?;
    Ok(r.state)
}

// A delete that keeps the state it gives.
fn delete(rt: &impl Print, state: State, image: &[u8], key: u32) -> io::Result<State> {
    let r = update::delete(state, image, key);
    tell(rt, answer::number(r.answer), 0)?;
    Ok(r.state)
}

// A format, with the operations that it tells.
fn format_chip(
    rt: &impl Print,
    state: State,
    nand: Nand,
    image: &mut [u8],
    torn: &[u8],
    allowance: u32,
) -> io::Result<State> {
    let r = format::format(state, nand, image, torn, allowance);
    tell_counts(rt, answer::number(r.answer), r.ops)?;
    Ok(r.state)
}

// A mount, with the operations that it tells.
fn mount_chip(
    rt: &impl Print,
    state: State,
    nand: Nand,
    image: &mut [u8],
    torn: &[u8],
    allowance: u32,
) -> io::Result<State> {
    let r = mount::mount(state, nand, image, torn, allowance);
    tell_counts(rt, answer::number(r.answer), r.ops)?;
    Ok(r.state)
}

// A store that is off.
fn off(rt: &impl Print, image: &[u8]) -> io::Result<()> {
    println!(rt; "off")?;
    let s = state::initial();
    look(rt, s, image, 7)?;
    free(rt, s, image, 0)?;
    let t = insert(rt, s, image, 7)?;
    delete(rt, t, image, 7)?;
    Ok(())
}

// A format and a mount where the image or the torn slice has a wrong size.
fn size(rt: &impl Print, image: &mut [u8], torn: &[u8]) -> io::Result<()> {
    let s = state::initial();
    let a = format_chip(rt, s, Nand::Small, image, torn, 2000)?;
    mount_chip(rt, a, Nand::Small, image, torn, 255)?;
    Ok(())
}

// The same on an image of so many bytes, each 255.
fn size_of<const N: usize>(rt: &impl Print, torn: &[u8]) -> io::Result<()>
    requires { N ≤ 557568 }
{
    let mut image = [255u8; N];
    size(rt, &mut image, torn)
}

// Images of 33 blocks, of 2 blocks and of a byte too few, and a torn slice of a byte too few.
fn sizes(rt: &impl Print) -> io::Result<()> {
    println!(rt; "size")?;
    let torn = [90u8; 528];
    let short = [90u8; 527];
    size_of::<557568>(rt, &torn)?;
    size_of::<33792>(rt, &torn)?;
    size_of::<50687>(rt, &torn)?;
    size_of::<50688>(rt, &short)
}

// One byte of the image.
fn put(image: &mut [u8], at: usize, byte: u8) {
    if let Some(place) = image.get_mut(at) {
        *place = byte;
    }
}

// Images of noise, without and with a page that is live.
fn noises(rt: &impl Print, image: &mut [u8], torn: &[u8]) -> io::Result<()> {
    println!(rt; "noise")?;
    let s = state::initial();
    noise::fill(image, 1);
    let a = mount_chip(rt, s, Nand::Small, image, torn, 255)?;
    put(image, 513, 0);
    put(image, 514, 255);
    mount_chip(rt, a, Nand::Small, image, torn, 255)?;
    Ok(())
}

// Power for no operation, and for one too few; then the format whole.
fn powers(rt: &impl Print, image: &mut [u8], torn: &[u8]) -> io::Result<State> {
    println!(rt; "power")?;
    let s = state::initial();
    let a = format_chip(rt, s, Nand::Small, image, torn, 0)?;
    look(rt, a, image, 7)?;
    let b = format_chip(rt, a, Nand::Small, image, torn, 5)?;
    let c = format_chip(rt, b, Nand::Small, image, torn, 6)?;
    mount_chip(rt, c, Nand::Small, image, torn, 0)
}

// An absent key, and a key that is there.
fn keys(rt: &impl Print, state: State, image: &[u8]) -> io::Result<State> {
    println!(rt; "absent")?;
    look(rt, state, image, 7)?;
    let a = delete(rt, state, image, 7)?;
    let b = insert(rt, a, image, 7)?;
    look(rt, b, image, 7)?;
    free(rt, b, image, 0)?;
    free(rt, b, image, 3)?;
    delete(rt, b, image, 7)
}

// A full buffer: the seventeenth update.
fn full(rt: &impl Print, state: State, image: &[u8]) -> io::Result<State> {
    println!(rt; "full")?;
    let mut s = state;
    for key in 1..16 {
        s = insert(rt, s, image, key)?;
    }
    let t = insert(rt, s, image, 16)?;
    delete(rt, t, image, 1)
}

// A chip of 3 large blocks: a format that names the other part, one that names its own, and what it leaves in block 0.
fn larges(rt: &impl Print) -> io::Result<()> {
    println!(rt; "large")?;
    let mut image = [255u8; 405504];
    let torn = [90u8; 2112];
    let s = state::initial();
    let a = format_chip(rt, s, Nand::Small, &mut image, &torn, 4000)?;
    let b = format_chip(rt, a, Nand::Large, &mut image, &torn, 4000)?;
    free(rt, b, &image, 0)
}

fn main(rt: HostRuntime) -> io::Result<()> {
    let mut image = [255u8; 50688];
    let torn = [90u8; 528];
    off(&rt, &image)?;
    sizes(&rt)?;
    noises(&rt, &mut image, &torn)?;
    let a = powers(&rt, &mut image, &torn)?;
    let b = keys(&rt, a, &image)?;
    let c = full(&rt, b, &image)?;
    println!(rt; "mount")?;
    let d = mount_chip(&rt, c, Nand::Small, &mut image, &torn, 255)?;
    look(&rt, d, &image, 1)?;
    larges(&rt)
}
