//! The hard decision of a column of costs: "the smallest symbol of cost 0", with its margin. Without a cost of 0 it is the number of costs,
//! with margin 0. The search yields by `break`.
#![tactic(auto)]

pub mod answers;
mod cost;
mod margin;

ghost use Rattle.std.specs.Prelude.{map};
ghost use Rattle.decision.specs.Answers.{Decides};

use crate::answers::Decision;
pub use crate::cost::Cost;
use crate::margin::margin_at;

/// Of costs of one byte, as a frame and a check have them, or of two, as the machine has them.
pub fn decide<C: Cost>(costs: &[C]) -> Decision
    ensures { Decides (map C.value costs.now) result }
{
    let mut x = 0;
    // By loop, its place counted by hand: it yields by break, which a for does not.
    loop {
        if x == costs.len() {
            break Decision {
                symbol: x,
                margin: 0,
            };
        }
        if costs[x].is_zero() {
            break Decision {
                symbol: x,
                margin: margin_at(costs, x),
            };
        }
        x += 1;
    }
}
