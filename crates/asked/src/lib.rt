// The codes of a step: RULES 01, refusals 6 and 7.
#![tactic(auto)]

ghost use Rattle.std.specs.Prelude.{◌≡◌};
ghost use Rattle.tree.specs.Axis.{axis_ok};
ghost use Rattle.tree.specs.Test.{test_ok};
ghost use Rattle.tree.specs.Refusal.{ask_check};

use tree::{Ask, Refusal};

// Whether the axis code is known.
#[tactic(auto, using(std::proofs::lemmas::Bool::Decides::nat_tests), unfolding(tree::specs::Axis::axis_ok))]
fn axis_ok(axis: usize) -> bool
    ensures { result ≡ axis_ok axis }
{
    match axis {
        1..=11 => true,
        _ => false,
    }
}

// Whether the test code is known and the name fits it.
fn test_ok(test: usize, name: usize) -> bool
    ensures { result ≡ test_ok test name }
{
    match test {
        2 | 6 => name != 0,
        0..=7 => name == 0,
        _ => false,
    }
}

// Refusal 6 or 7, or that the codes are right.
pub fn check_ask(ask: Ask) -> Result<(), Refusal>
    ensures { result ≡ ask_check ask }
{
    if !axis_ok(ask.axis) {
        return Err(Refusal::BadAxis);
    }
    if !test_ok(ask.test, ask.name) {
        return Err(Refusal::BadTest);
    }
    Ok(())
}
