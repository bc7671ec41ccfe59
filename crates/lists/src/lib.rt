// Definitions and laws on lists: specs/ and proofs/ hold them, and every other crate cites them.
#![tactic(auto)]

ghost use Rattle.std.specs.Prelude.{◌≡◌};

// A crate has at least one function: this one gives back its argument.
pub fn same(x: u32) -> u32
    ensures { result ≡ x }
{
    x
}
