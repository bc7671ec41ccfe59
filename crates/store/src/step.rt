// One call of any kind: what a list of calls is made of.
ghost use Rattle.std.specs.Prelude.{◌≡◌};
ghost use Rattle.store.specs.Step.{told, found, of_wrote, of_updated, of_look, of_forecast, StepsBy};

use crate::answer::{Look, Refusal};
use crate::state::{State, Updated, Wrote};
use crate::{commit, find, forecast, format, mount, update};
use chip::geometry::Nand;
use chip::progress;
use chip::progress::Counts;

// A call with its numbers: an allowance; a key and a value; a key. A format and a mount name the part.
#[derive(Clone, Copy)]
pub enum Call {
    Format(Nand, u32),
    Insert(u32, u32),
    Delete(u32),
    LookUp(u32),
    Forecast,
    Commit(u32),
    Mount(Nand, u32),
}

// What a call gives back: the answer, with the value that a look up found, the operations told (by a forecast: foretold), the state.
#[derive(Clone, Copy)]
pub struct Stepped {
    pub answer: Result<Option<u32>, Refusal>,
    pub ops: Counts,
    pub state: State,
}

// An answer without a value.
fn told(answer: Result<(), Refusal>) -> Result<Option<u32>, Refusal>
    ensures { result ≡ told answer }
{
    answer?;
    Ok(None)
}

// What format, commit and mount give back.
fn wrote(w: Wrote) -> Stepped
    ensures { result ≡ of_wrote w }
{
    let answer = told(w.answer);
    let ops = w.ops;
    let state = w.state;
    Stepped { answer, ops, state }
}

// What insert and delete give back.
fn updated(u: Updated) -> Stepped
    ensures { result ≡ of_updated u }
{
    let answer = told(u.answer);
    let state = u.state;
    let ops = progress::nothing();
    Stepped { answer, ops, state }
}

// The value that a look up found, or its refusal, 4 where the key is absent.
fn found(look: Result<Look, Refusal>) -> Result<Option<u32>, Refusal>
    ensures { result ≡ found look }
{
    match look?.value {
        Some(value) => Ok(Some(value)),
        None => Err(Refusal::Absent),
    }
}

// What a look up gives back: the state is as it was.
fn looked(look: Result<Look, Refusal>, state: State) -> Stepped
    ensures { result ≡ of_look look state }
{
    let answer = found(look);
    let ops = progress::nothing();
    Stepped { answer, ops, state }
}

// What a forecast gives back: the state is as it was.
fn foreseen(forecast: Result<Counts, Refusal>, state: State) -> Stepped
    ensures { result ≡ of_forecast forecast state }
{
    match forecast {
        Ok(ops) => Stepped {
            answer: Ok(None),
            ops,
            state,
        },
        Err(refusal) => Stepped {
            answer: Err(refusal),
            ops: progress::nothing(),
            state,
        },
    }
}

// A call on a lent image: what it ensures is its whole contract.
pub fn step(state: State, image: &mut [u8], torn: &[u8], call: Call) -> Stepped
    ensures { StepsBy call torn.now state image.old result image.new }
{
    match call {
        Call::Format(nand, allowance) => wrote(format::format(state, nand, image, torn, allowance)),
        Call::Insert(key, value) => updated(update::insert(state, image, key, value)),
        Call::Delete(key) => updated(update::delete(state, image, key)),
        Call::LookUp(key) => looked(find::look_up(state, image, key), state),
        Call::Forecast => foreseen(forecast::forecast(state, image), state),
        Call::Commit(allowance) => wrote(commit::commit(state, image, torn, allowance)),
        Call::Mount(nand, allowance) => wrote(mount::mount(state, nand, image, torn, allowance)),
    }
}
