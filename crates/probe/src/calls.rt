// The store's calls, each with its reply.
ghost use Rattle.std.specs.Prelude.{◌+◌, ◌≤◌, length, ◌≡◌};
ghost use Rattle.probe.specs.Makes.{Makes};

use chip::geometry::Nand;
use chip::progress;
use chip::progress::Counts;
use orders::order::Call;
use orders::reply;
use store::answer::{Look, Refusal, Report};
use store::state::{State, Updated, Wrote};
use store::{answer, commit, find, forecast, format, mount, rebuild, report, show, update};

// The state after a call, and the bytes of output gathered.
#[derive(Clone, Copy)]
pub struct Told {
    pub state: State,
    pub at: usize,
}

// What format, commit, mount and rebuild tell.
fn tell_wrote(w: Wrote, out: &mut [u8], at: usize) -> Told
    requires { at + 4083 ≤ length out.old }
    ensures { result.state ≡ w.state }
{
    let ops = w.ops;
    let state = w.state;
    let number = answer::number(w.answer);
    let end = reply::put_counts(out, at, number, ops);
    Told { state, at: end }
}

// What insert and delete tell.
fn tell_updated(u: Updated, out: &mut [u8], at: usize) -> Told
    requires { at + 4083 ≤ length out.old }
    ensures { result.state ≡ u.state }
{
    let state = u.state;
    let number = answer::number(u.answer);
    let end = reply::put_short(out, at, number);
    Told { state, at: end }
}

// What a look up tells.
fn tell_look(state: State, look: Result<Look, Refusal>, out: &mut [u8], at: usize) -> Told
    requires { at + 4083 ≤ length out.old }
    ensures { result.state ≡ state }
{
    let end = reply::put_look(out, at, look);
    Told { state, at: end }
}

// What a block report tells.
fn tell_report(state: State, told: Result<Report, Refusal>, out: &mut [u8], at: usize) -> Told
    requires { at + 4083 ≤ length out.old }
    ensures { result.state ≡ state }
{
    let end = reply::put_report(out, at, told);
    Told { state, at: end }
}

// What a forecast tells: the operations foretold, by kind; none with a refusal.
fn tell_forecast(state: State, told: Result<Counts, Refusal>, out: &mut [u8], at: usize) -> Told
    requires { at + 4083 ≤ length out.old }
    ensures { result.state ≡ state }
{
    let end = match told {
        Ok(ops) => reply::put_counts(out, at, 0, ops),
        Err(refusal) => reply::put_counts(out, at, u32::from(refusal), progress::nothing()),
    };
    Told { state, at: end }
}

// What show tells: the units of a page are at most 2,040 bytes.
fn tell_shown(nand: Nand, image: &[u8], page: u32, out: &mut [u8], at: usize) -> usize
    requires { at + 4083 ≤ length out.old }
{
    let mut refusal: u32 = 0;
    let shown = show::show(nand, image, page, &mut refusal);
    if refusal != 0 {
        return reply::put_short(out, at, refusal);
    }
    reply::put_shown(out, at, shown)
}

// A call of the store, on the image and the torn bytes lent, that names the part where it names one.
pub fn call(
    state: State,
    nand: Nand,
    image: &mut [u8],
    torn: &[u8],
    out: &mut [u8],
    at: usize,
    call: Call,
) -> Told
    requires { at + 4083 ≤ length out.old }
    ensures { Makes nand call torn.now state image.old result.state image.new }
{
    match call {
        Call::Format(n) => tell_wrote(format::format(state, nand, image, torn, n), out, at),
        Call::Insert(key, value) => tell_updated(update::insert(state, image, key, value), out, at),
        Call::Delete(key) => tell_updated(update::delete(state, image, key), out, at),
        Call::LookUp(key) => tell_look(state, find::look_up(state, image, key), out, at),
        Call::Commit(n) => tell_wrote(commit::commit(state, image, torn, n), out, at),
        Call::Mount(n) => tell_wrote(mount::mount(state, nand, image, torn, n), out, at),
        Call::Rebuild(n) => tell_wrote(rebuild::rebuild(state, nand, image, torn, n), out, at),
        Call::Report(block) => tell_report(
            state,
            report::block_report(state, image, block),
            out,
            at,
        ),
        Call::Show(page) => {
            let end = tell_shown(nand, image, page, out, at);
            Told { state, at: end }
        }
        Call::Forecast => tell_forecast(state, forecast::forecast(state, image), out, at),
    }
}
