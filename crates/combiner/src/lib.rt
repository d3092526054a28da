//! Two frames of the same symbols as one.
#![tactic(auto)]

mod columns;
mod combining;

ghost use Rattle.std.specs.Prelude.{◌≡◌};
ghost use Rattle.refusal.specs.Replies.{reply_of};
ghost use Rattle.machine.specs.Combining.{combining as combining_of};

use refusal::Refusal;

/// Combines two frames that are accepted under one code line: at each column and symbol the two costs are added, the column's least is
/// subtracted, and what is above 255 becomes 255. The answer is N times q; what stands after these bytes stays. Refused: the code line's 5
/// to 11; 12 and 13 for the first frame, cost count and a column without a cost of 0; 23, either in the second; 2, output buffer too short.
pub fn combine(code: &[u8], first: &[u8], second: &[u8], out: &mut [u8]) -> Result<usize, Refusal>
    ensures reply { reply_of result
        ≡ (combining_of code.now first.now second.now out.old).reply }
    ensures out_then { out.new
        ≡ (combining_of code.now first.now second.now out.old).out }
{
    let numbers = codeline::code_line(code)?;
    combining::under_code(numbers, first, second, out)
}
