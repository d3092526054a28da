//! The expansion of a packed record: what a check sends, by symbols.
#![tactic(auto)]

mod expansion;
pub mod form;

ghost use Rattle.std.specs.Prelude.{◌≡◌};
ghost use Rattle.refusal.specs.Replies.{reply_of};
ghost use Rattle.expansion.specs.Answers.{expand_reply, expand_leaves};

use refusal::Refusal;

/// The expansion of a record: from the first code byte, d weights and a record, d times q bytes, column by column, each column by x.
/// Refused: 6, the first byte; 9, degree not 2 to 32; 11, a weight 0 or no element; 16, the record's form; 2, buffer too short.
pub fn expand(first: u8, weights: &[u8], bytes: &[u8], out: &mut [u8]) -> Result<usize, Refusal>
    ensures reply { reply_of result ≡ expand_reply first weights.now bytes.now out.old }
    ensures out_then { out.new ≡ expand_leaves first weights.now bytes.now out.old }
{
    field::validate_weights(first, weights)?;
    let q = rules::size(first);
    if !form::record_ok(first, bytes, weights.len()) {
        return Err(Refusal::RecordForm);
    }
    let n = weights.len() * q;
    if out.len() < n {
        return Err(Refusal::OutputTooShort);
    }
    expansion::expand_in(first, q, weights, bytes, &mut out[..n]);
    Ok(n)
}
