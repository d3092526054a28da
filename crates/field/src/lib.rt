//! The field of 2 ^ p elements: the product of two, the products of weights with every symbol, and the tests of a first code byte and
//! weights.
#![tactic(auto)]

mod field;
mod products;
mod refusals;
mod table;

ghost use Rattle.std.specs.Prelude.{◌≡◌};
ghost use Rattle.refusal.specs.Replies.{reply_of};
ghost use Rattle.field.specs.Answers.{product_reply, rows_leave};

pub use crate::refusals::validate_weights;
use refusal::Refusal;

/// The product of two elements of the field of 2 ^ p. Refused: 6, p not 2 to 6; 11, a or b no element.
#[tactic(auto, unfolding(crate::specs::Answers::product_reply))]
pub fn product(p: u8, a: u8, b: u8) -> Result<u8, Refusal>
    ensures { reply_of result ≡ product_reply p a b }
{
    if !(2..=6).contains(&p) {
        return Err(Refusal::FirstByte);
    }
    let q = field::size(p);
    if q <= a || q <= b {
        return Err(Refusal::Weight);
    }
    Ok(field::times(p, a, b))
}

/// The products of each weight with every symbol, 2 ^ p bytes a weight, end to end. Nothing changes where p is not 2 to 6, where there
/// are more than 32 weights, where a weight is no element, or where out has another length than these products.
#[tactic(auto, unfolding(crate::specs::Answers::rows_leave))]
pub fn rows(p: u8, weights: &[u8], out: &mut [u8])
    ensures { out.new ≡ rows_leave p weights.now out.old }
{
    if products::rows_fit(p, weights, out.len()) {
        products::fill(p, weights, out);
    }
}
