// Look up and block report.
ghost use Rattle.std.specs.Prelude.{◌≡◌};
ghost use Rattle.exports.specs.Told.{look_told, report_told};
ghost use Rattle.exports.specs.Calls.{LooksTold, ReportsTold};

use crate::words;
use store::answer::{Look, Refusal, Report};
use store::{find, report};

// What a look up tells: its refusal, 0 for none, and two numbers, 0 where there are none. No Result: the C interface tells numbers.
#[derive(Clone, Copy)]
struct Told {
    refusal: u32,
    first: u32,
    second: u32,
}

// What a block report tells: its refusal, 0 for none, and three numbers, 0 where there are none, as the C interface tells them.
#[derive(Clone, Copy)]
struct Reported {
    refusal: u32,
    free: u64,
    first: u64,
    erases: u64,
}

// A refusal, 0 for none, and two numbers.
fn tells(refusal: u32, first: u32, second: u32) -> Told
    ensures { result ≡ record { refusal = refusal; first = first; second = second } }
{
    Told {
        refusal,
        first,
        second,
    }
}

// A look up's answer in numbers: the value found and the pages read.
fn look_told(look: Result<Look, Refusal>) -> Told
    ensures { result ≡ look_told look }
{
    match look {
        Ok(l) => match l.value {
            Some(value) => tells(0, value, l.pages),
            None => tells(u32::from(Refusal::Absent), 0, l.pages),
        },
        Err(refusal) => tells(u32::from(refusal), 0, 0),
    }
}

// A block report's answer in numbers: how many pages are free, the first free one and the erases of the block.
fn report_told(report: Result<Report, Refusal>) -> Reported
    ensures { result ≡ report_told report }
{
    match report {
        Ok(r) => Reported {
            refusal: 0,
            free: u64::from(r.free),
            first: u64::from(r.first),
            erases: r.erases,
        },
        Err(refusal) => Reported {
            refusal: u32::from(refusal),
            free: 0,
            first: 0,
            erases: 0,
        },
    }
}

// Look up, whatever the free node numbers: the refusal, and in `told` the value found and the pages read.
#[unsafe(no_mangle)]
pub extern "C" fn vehinoke_look_up<'a>(
    numbers: &[u32; 6],
    lens: &'a [u32; 256],
    slots: &'a [u32; 1024],
    buffer: &'a [u8; 11520],
    image: &[u8],
    key: u32,
    told: &mut [u32; 2],
) -> u32
    ensures { LooksTold key numbers.now buffer.now lens.now slots.now image.now result told.new }
{
    let n = words::load(numbers);
    let t = look_told(find::look_up_lent(n, lens, slots, buffer, image, key));
    *told = [t.first, t.second];
    t.refusal
}

// Block report: the refusal, and in `told` how many pages of the block are free, the first free one and the erases of the block.
#[unsafe(no_mangle)]
pub extern "C" fn vehinoke_block_report(
    numbers: &[u32; 6],
    erases: &[u64; 32],
    image: &[u8],
    block: u32,
    told: &mut [u64; 3],
) -> u32
    ensures { ReportsTold block numbers.now erases.now image.now result told.new }
{
    let n = words::load(numbers);
    let t = report_told(report::block_report_lent(n, erases, image, block));
    *told = [t.free, t.first, t.erases];
    t.refusal
}
