//! The record of an accepted check, and its sent costs. Lines and tables are worked out in what is left of 255: a choice starts with
//! 255, and each deviation takes its cost off, so that two costs are never added.
//! All room is lent slice by slice, each with its length: of a part of a struct's field only the length is known.
ghost use Rattle.std.specs.Prelude.{◌≡◌, ◌*◌, ◌≤◌, max, length};
ghost use Rattle.trellis.specs.Lists.{tab, blocks};
ghost use Rattle.trellis.specs.Record.{record_length};
ghost use Rattle.trellis.specs.Rules.{rule_for, power_of, size_of};
ghost use Rattle.trellis.specs.Sizes.{most_degree, most_expansion};
ghost use Rattle.field.specs.Answers.{row_of};
ghost use Rattle.checknode.specs.inner.Asks.{shifts_of};
ghost use Rattle.checknode.specs.inner.Lines.{PartsRoom, Rests};
ghost use Rattle.checknode.specs.inner.Checks.{record_for, all_sent_in};

use crate::accepted::Check;
use crate::{lines, send};

// Room for eight lines of sixteen places, which is most of what small fields ask for.
const TINY: usize = 128;

/// The length of a record of degree d.
pub fn record_bytes(first: u8, d: usize) -> usize
    requires { d ≤ most_degree }
    ensures { result ≡ record_length (rule_for first) d }
{
    d + rules::groups(first)
}

// The places of a line: the field's rows, and sixteen at least.
fn side(check: &Check<'_>) -> usize
    ensures { result ≡ max 16 (size_of check.now.first) }
{
    rules::size(check.first).max(16)
}

// Rests of the sent costs, and shifts, from the products, in room of the caller's; that for the lines comes cleared.
fn rests_with(check: &Check<'_>, rows: &[u8], lines: &mut [u8], rests: &mut [u8], shifts: &mut [u8])
    requires rows_value { rows.now ≡ blocks (row_of (power_of check.now.first) check.now.weights.now) (length check.now.weights.now) }
    requires lines_len { length lines.old ≡ length check.now.weights.now * max 16 (size_of check.now.first) }
    requires lines_value { lines.old ≡ tab (λ a. 0) (length lines.old) }
    requires rests_len { length rests.old ≡ length check.now.weights.now * max 16 (size_of check.now.first) }
    requires shifts_len { length shifts.old ≡ length check.now.weights.now }
    ensures rests_then { Rests check.now.first check.now.weights.now check.now.costs.now rests.new }
    ensures shifts_then { shifts.new ≡ shifts_of (power_of check.now.first) check.now.weights.now check.now.costs.now }
{
    let sum = lines::lines(check, side(check), rows, lines, shifts);
    lines::shift_all(shifts, sum);
    tables::sent(
        rules::rule_of(check.first),
        check.weights.len(),
        lines,
        rests,
    );
}

// The record: the shifts, then the groups. Products and rests are left in their room; that for the lines comes cleared.
fn record_with(
    check: &Check<'_>,
    rows: &mut [u8],
    lines: &mut [u8],
    rests: &mut [u8],
    out: &mut [u8],
)
    requires parts { PartsRoom check.now.first (length check.now.weights.now) rows.old lines.old rests.old }
    requires out_len { length out.old ≡ record_length (rule_for check.now.first) (length check.now.weights.now) }
    ensures rows_then { rows.new ≡ blocks (row_of (power_of check.now.first) check.now.weights.now) (length check.now.weights.now) }
    ensures rests_then { Rests check.now.first check.now.weights.now check.now.costs.now rests.new }
    ensures out_then { out.new ≡ record_for check.now }
{
    let d = check.weights.len();
    field::rows(rules::power(check.first), check.weights, rows);
    rests_with(check, rows, lines, rests, &mut out[..d]);
    groups::groups(rules::rule_of(check.first), d, rests, &mut out[d..]);
}

// The record, with fresh room of ROOM bytes for products, lines and rests each.
fn record_in<const ROOM: usize>(check: &Check<'_>, out: &mut [u8])
    requires room { (length check.now.weights.now * max 16 (size_of check.now.first) ≤ ROOM) × (ROOM ≤ most_expansion) }
    requires out_len { length out.old ≡ record_length (rule_for check.now.first) (length check.now.weights.now) }
    ensures { out.new ≡ record_for check.now }
{
    let d = check.weights.len();
    let a = d * rules::size(check.first);
    let b = d * side(check);
    let mut rows = [0u8; ROOM];
    let mut lines = [0u8; ROOM];
    let mut rests = [0u8; ROOM];
    record_with(check, &mut rows[..a], &mut lines[..b], &mut rests[..b], out);
}

/// The record, in the least room that is enough.
pub fn record(check: &Check<'_>, out: &mut [u8])
    requires out_len { length out.old ≡ record_length (rule_for check.now.first) (length check.now.weights.now) }
    ensures { out.new ≡ record_for check.now }
{
    let n = check.weights.len() * side(check);
    if n <= TINY {
        record_in::<TINY>(check, out);
    } else if n <= sizes::SMALL_EXPANSION {
        record_in::<{ sizes::SMALL_EXPANSION }>(check, out);
    } else {
        record_in::<{ sizes::MOST_EXPANSION }>(check, out);
    }
}

// The record and the sent costs, in room of the caller's.
fn messages_with(
    check: &Check<'_>,
    rows: &mut [u8],
    lines: &mut [u8],
    rests: &mut [u8],
    out: &mut [u8],
    sent: &mut [u8],
)
    requires parts { PartsRoom check.now.first (length check.now.weights.now) rows.old lines.old rests.old }
    requires out_len { length out.old ≡ record_length (rule_for check.now.first) (length check.now.weights.now) }
    requires sent_len { length sent.old ≡ length check.now.weights.now * size_of check.now.first }
    ensures out_then { out.new ≡ record_for check.now }
    ensures sent_then { sent.new ≡ all_sent_in check.now }
{
    record_with(check, rows, lines, rests, out);
    let d = check.weights.len();
    let q = rules::size(check.first);
    send::columns(q, side(check), rows, &out[..d], rests, sent);
}

// The record and the sent costs, with fresh room of ROOM bytes for products, lines and rests each. Beside record_in: without sent costs
// there is no room to hand down.
fn messages_in<const ROOM: usize>(check: &Check<'_>, out: &mut [u8], sent: &mut [u8])
    requires room { (length check.now.weights.now * max 16 (size_of check.now.first) ≤ ROOM) × (ROOM ≤ most_expansion) }
    requires out_len { length out.old ≡ record_length (rule_for check.now.first) (length check.now.weights.now) }
    requires sent_len { length sent.old ≡ length check.now.weights.now * size_of check.now.first }
    ensures out_then { out.new ≡ record_for check.now }
    ensures sent_then { sent.new ≡ all_sent_in check.now }
{
    let d = check.weights.len();
    let a = d * rules::size(check.first);
    let b = d * side(check);
    let mut rows = [0u8; ROOM];
    let mut lines = [0u8; ROOM];
    let mut rests = [0u8; ROOM];
    messages_with(
        check,
        &mut rows[..a],
        &mut lines[..b],
        &mut rests[..b],
        out,
        sent,
    );
}

/// The record and the sent costs, in the least room that is enough. Beside record, as messages_in beside record_in.
pub fn messages(check: &Check<'_>, out: &mut [u8], sent: &mut [u8])
    requires out_len { length out.old ≡ record_length (rule_for check.now.first) (length check.now.weights.now) }
    requires sent_len { length sent.old ≡ length check.now.weights.now * size_of check.now.first }
    ensures out_then { out.new ≡ record_for check.now }
    ensures sent_then { sent.new ≡ all_sent_in check.now }
{
    let n = check.weights.len() * side(check);
    if n <= TINY {
        messages_in::<TINY>(check, out, sent);
    } else if n <= sizes::SMALL_EXPANSION {
        messages_in::<{ sizes::SMALL_EXPANSION }>(check, out, sent);
    } else {
        messages_in::<{ sizes::MOST_EXPANSION }>(check, out, sent);
    }
}
