//! One update of a check: Q from the costs and the old record, the new record, and the costs again.
//
// `start` is a bool, as the machine has it, not an Option of the record: the record's bytes are written in the same call.
ghost use Rattle.std.specs.Prelude.{◌≡◌};
ghost use Rattle.trellis.specs.Check.{all_sent};
ghost use Rattle.trellis.specs.Record.{record_of};
ghost use Rattle.trellis.specs.Rules.{rule_for, size_of, columns_of};
ghost use Rattle.machine.specs.Lent.{costs_lent, record_lent};
ghost use Rattle.machine.specs.inner.Tables.{edges_of};
ghost use Rattle.layered.specs.inner.Updates.{old_costs, RecallRoom, SendRoom, UpdateRoom};

use crate::column;
use codeline::answers::Numbers;

// What the old record sent, before scaling; "0 if none".
fn recall(first: u8, start: bool, weights: &[u8], bytes: &[u8], out: &mut [u8])
    requires { RecallRoom first start weights.now bytes.now out.old }
    ensures { out.new ≡ old_costs first start weights.now bytes.now }
{
    if start {
        out.fill(0);
        return;
    }
    expansion::expand(first, weights, bytes, out).unwrap();
}

// The record of the check with these costs, and its sent costs.
fn send(first: u8, weights: &[u8], costs: &[u8], bytes: &mut [u8], out: &mut [u8])
    requires { SendRoom first weights.now costs.now bytes.old out.old }
    ensures bytes_then { bytes.new
        ≡ record_of (rule_for first) (columns_of (size_of first) weights.now costs.now) }
    ensures out_then { out.new
        ≡ all_sent (rule_for first) (columns_of (size_of first) weights.now costs.now) }
{
    checknode::messages(first, weights, costs, bytes, out).unwrap();
}

/// "This is one update of the check", whose record stands in `bytes`; `arrived` and `sent` are room to work in.
pub fn update(
    numbers: Numbers,
    start: bool,
    columns: &[u16],
    weights: &[u8],
    costs: &mut [u16],
    bytes: &mut [u8],
    arrived: &mut [u8],
    sent: &mut [u8],
)
    requires { UpdateRoom numbers.first numbers.scale start
        columns.now weights.now costs.old bytes.old arrived.old sent.old }
    ensures costs_then { costs.new
        ≡ costs_lent (rule_for numbers.first) numbers.scale start
        (edges_of columns.now weights.now) bytes.old costs.old }
    ensures bytes_then { bytes.new
        ≡ record_lent (rule_for numbers.first) numbers.scale start
        (edges_of columns.now weights.now) bytes.old costs.old }
{
    let q = rules::size(numbers.first);
    let g = u16::from(numbers.scale);
    recall(numbers.first, start, weights, bytes, sent);
    column::gather(costs, columns, sent, g, q, arrived);
    send(numbers.first, weights, arrived, bytes, sent);
    column::scatter(arrived, sent, columns, g, q, costs);
}
