// The crate is its laws, in specs/. A library needs a function: this one returns its argument.
#![tactic(auto)]

ghost use Rattle.std.specs.Prelude.{◌≡◌};

pub fn keep(x: usize) -> usize
    ensures { result ≡ x }
{
    x
}
