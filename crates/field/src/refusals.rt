//! The tests of a first code byte and of weights.
ghost use Rattle.std.specs.Prelude.{◌≡◌};
ghost use Rattle.refusal.specs.Replies.{fault_in};
ghost use Rattle.field.specs.Answers.{weight_ok, weights_ok, weights_fault};

use crate::field;
use refusal::Refusal;

// A weight is an element other than 0.
#[tactic(auto, unfolding(crate::specs::Answers::weight_ok))]
fn weight_ok(q: u8, h: u8) -> bool
    ensures { result ≡ weight_ok q h }
{
    h != 0 && h < q
}

// No test ends the loop: it is then taken for many weights at a time.
fn weights_ok(q: u8, weights: &[u8]) -> bool
    ensures { result ≡ weights_ok q weights.now }
{
    let mut ok = true;
    for &h in weights {
        ok &= weight_ok(q, h);
    }
    ok
}

/// The refusal of first byte and weights, in this order: 6, the first byte; 9, degree not 2 to 32; 11, a weight 0 or no element.
#[tactic(auto, unfolding(crate::specs::Answers::weights_fault))]
pub fn validate_weights(first: u8, weights: &[u8]) -> Result<(), Refusal>
    ensures { fault_in result ≡ weights_fault first weights.now }
{
    if !rules::accepted(first) {
        return Err(Refusal::FirstByte);
    }
    if !(2..=sizes::MOST_DEGREE).contains(&weights.len()) {
        return Err(Refusal::Degree);
    }
    if !weights_ok(field::size(rules::power(first)), weights) {
        return Err(Refusal::Weight);
    }
    Ok(())
}
