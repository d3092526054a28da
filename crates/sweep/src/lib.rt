//! One check by two sweeps over its columns, beside `check`: the same record, by an engine that can be followed on paper.
#![tactic(auto)]

mod cells;
mod columns;
mod group;
mod join;
mod record;
mod step;

ghost use Rattle.std.specs.Prelude.{◌≡◌};
ghost use Rattle.refusal.specs.Replies.{reply_of};
ghost use Rattle.checknode.specs.Answers.{check_reply, check_leaves};

use checknode::accepted::Check;
use refusal::Refusal;

/// The record of a check, as `check` writes it, by two sweeps; refused as `check` is.
pub fn sweep(first: u8, weights: &[u8], costs: &[u8], out: &mut [u8]) -> Result<usize, Refusal>
    ensures reply { reply_of result ≡ check_reply first weights.now costs.now out.old }
    ensures out_then { out.new ≡ check_leaves first weights.now costs.now out.old }
{
    checknode::validate_check(first, weights, costs, out.len())?;
    let n = weights.len() + rules::groups(first);
    let check = Check {
        first,
        weights,
        costs,
    };
    record::record_in(&check, &mut out[..n]);
    Ok(n)
}
