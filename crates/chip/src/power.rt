// Power: how many operations it still allows.
ghost use Rattle.std.specs.Prelude.{◌≡◌};
ghost use Rattle.chip.specs.Power.{spend, outcome, is_gone};

// `Left(n)`: n operations are done whole and the next is torn. `Gone`: nothing is done any more.
// No Option: the words are those of the definitions (docs/DECISIONS.md, 3), and None would not say that power is gone.
#[derive(Clone, Copy)]
pub enum Power {
    Left(u32),
    Gone,
}

// What becomes of the next operation.
#[derive(Clone, Copy)]
pub enum Outcome {
    Whole,
    Torn,
    Nothing,
}

// The power after one operation.
pub fn spent(power: Power) -> Power
    ensures { result ≡ spend power }
{
    match power {
        Power::Left(0) | Power::Gone => Power::Gone,
        Power::Left(n) => Power::Left(n - 1),
    }
}

// What becomes of an operation under this power.
pub fn next(power: Power) -> Outcome
    ensures { result ≡ outcome power }
{
    match power {
        Power::Left(0) => Outcome::Torn,
        Power::Left(_) => Outcome::Whole,
        Power::Gone => Outcome::Nothing,
    }
}

// Was there too little power?
pub fn gone(power: Power) -> bool
    ensures { result ≡ is_gone power }
{
    matches!(power, Power::Gone)
}
