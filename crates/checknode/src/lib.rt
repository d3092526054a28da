//! One check: the packed record of a check's messages, alone and beside the messages.
#![tactic(auto)]

pub mod accepted;
mod lines;
mod record;
mod refusals;
mod send;

ghost use Rattle.std.specs.Prelude.{◌≡◌};
ghost use Rattle.refusal.specs.Replies.{reply_of};
ghost use Rattle.checknode.specs.Answers.{check_reply, check_leaves, messages_reply, messages_leaves, messages_sent};

use accepted::Check;
use refusal::Refusal;
pub use refusals::validate_check;

/// The record of a check: from the first code byte, d weights and d times q costs, column by column, d + (1 + 2k)(q - 1) bytes. Refused as
/// `validate_check` says.
pub fn check(first: u8, weights: &[u8], costs: &[u8], out: &mut [u8]) -> Result<usize, Refusal>
    ensures reply { reply_of result ≡ check_reply first weights.now costs.now out.old }
    ensures out_then { out.new ≡ check_leaves first weights.now costs.now out.old }
{
    validate_check(first, weights, costs, out.len())?;
    let check = Check {
        first,
        weights,
        costs,
    };
    let n = record::record_bytes(first, weights.len());
    record::record(&check, &mut out[..n]);
    Ok(n)
}

/// The record of a check and, in a second buffer, its sent costs: d times q bytes, column by column, each column by x. Refused as a check
/// is; last 2, the second buffer too short. The answer is how many bytes the record has, as of a check.
pub fn messages(
    first: u8,
    weights: &[u8],
    costs: &[u8],
    out: &mut [u8],
    sent: &mut [u8],
) -> Result<usize, Refusal>
    ensures reply { reply_of result ≡ messages_reply first weights.now costs.now out.old sent.old }
    ensures out_then { out.new ≡ messages_leaves first weights.now costs.now out.old sent.old }
    ensures sent_then { sent.new ≡ messages_sent first weights.now costs.now out.old sent.old }
{
    validate_check(first, weights, costs, out.len())?;
    let m = weights.len() * rules::size(first);
    if sent.len() < m {
        return Err(Refusal::OutputTooShort);
    }
    let check = Check {
        first,
        weights,
        costs,
    };
    let n = record::record_bytes(first, weights.len());
    record::messages(&check, &mut out[..n], &mut sent[..m]);
    Ok(n)
}
