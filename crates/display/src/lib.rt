//! The display's view of a stored record. The bench's view is the expansion.
#![tactic(auto)]

mod showing;

ghost use Rattle.std.specs.Prelude.{◌≡◌};
ghost use Rattle.refusal.specs.Replies.{reply_of};
ghost use Rattle.display.specs.Answers.{display_reply, display_leaves};

use refusal::Refusal;

/// Which symbol each column was urged towards: from the first code byte, d weights and a record, d bytes, each the column's shift divided
/// by its weight. Costs and pairs do not enter it. Refused as an expansion is: 6, the first byte; 9, degree not 2 to 32; 11, a weight 0 or
/// no element; 16, the record's form; 2, buffer too short.
pub fn display(first: u8, weights: &[u8], bytes: &[u8], out: &mut [u8]) -> Result<usize, Refusal>
    ensures reply { reply_of result ≡ display_reply first weights.now bytes.now out.old }
    ensures out_then { out.new ≡ display_leaves first weights.now bytes.now out.old }
{
    showing::validate(first, weights, bytes, out.len())?;
    let d = weights.len();
    showing::show(rules::power(first), weights, bytes, &mut out[..d]);
    Ok(d)
}
