//! The record of an accepted check: the shifts, both sweeps, the sent costs, and from these the bytes of each a. All room is lent slice by
//! slice, each with its length: of a part of a struct's field only the length is known.
ghost use Rattle.std.specs.Prelude.{◌≡◌, ◌*◌, ◌≤◌, ◌<◌, length, get_or};
ghost use Rattle.trellis.specs.Lists.{tab};
ghost use Rattle.trellis.specs.Field.{xor};
ghost use Rattle.trellis.specs.Record.{record_length};
ghost use Rattle.trellis.specs.Rules.{power_of, size_of, rule_for};
ghost use Rattle.engine.specs.inner.Terms.{term_of, sum_to};
ghost use Rattle.checknode.specs.inner.Asks.{shifts_of};
ghost use Rattle.checknode.specs.inner.Checks.{record_for};
ghost use Rattle.sweep.specs.Kept.{cell_count, KeptCells};
ghost use Rattle.sweep.specs.inner.Cells.{terms_of, Swept};

use crate::columns::Direction;
use crate::{cells, columns, group, join};
use checknode::accepted::Check;

// Costs of one column, for each count of deviations and each partial sum, and of a sweep over all columns.
const MOST_CELLS: usize = (sizes::MOST_DEVIATIONS + 1) * sizes::MOST_SIZE;

const MOST_SWEEP: usize = sizes::MOST_DEGREE * MOST_CELLS;

// h times z of column n.
fn term(check: &Check<'_>, n: usize) -> u8
    requires n_in_bounds { n < length check.now.weights.now }
    ensures { result ≡ term_of (power_of check.now.first) check.now.weights.now check.now.costs.now n }
{
    let q = rules::size(check.first);
    let at = n * q;
    let z = decision::decide(&check.costs[at..at + q]).symbol;
    // `as`: a symbol is below 64, and a conversion that can fail is no plainer.
    columns::times(rules::power(check.first), check.weights[n], z as u8)
}

// Each h times z. Answers their sum.
fn terms(check: &Check<'_>, out: &mut [u8]) -> u8
    requires out_len { length out.old ≡ length check.now.weights.now }
    ensures sum { result ≡ sum_to (term_of (power_of check.now.first) check.now.weights.now check.now.costs.now) (length check.now.weights.now) }
    ensures out_then { out.new ≡ terms_of (power_of check.now.first) check.now.weights.now check.now.costs.now }
{
    let mut sum = 0;
    for (n, x) in out.iter_mut().enumerate() {
        let s = term(check, n);
        *x = s;
        sum ^= s;
    }
    sum
}

// The shifts, from each h times z and their sum. Written here too: a sweep shares with `check` the tests alone, so that one can test the
// other.
fn shift_all(out: &mut [u8], sum: u8)
    ensures { out.new ≡ tab (λ i. xor sum (get_or out.old i 0)) (length out.old) }
{
    for x in out.iter_mut() {
        *x ^= sum;
    }
}

fn shifts(check: &Check<'_>, out: &mut [u8])
    requires out_len { length out.old ≡ length check.now.weights.now }
    ensures { out.new ≡ shifts_of (power_of check.now.first) check.now.weights.now check.now.costs.now }
{
    let sum = terms(check, out);
    shift_all(out, sum);
}

// Both sweeps. "Each kept cost is proved to be that least, with a mark where no choice exists": the last promise.
fn sweeps(check: &Check<'_>, cells: &mut [u16], before: &mut [u16], after: &mut [u16])
    requires cells_len { length cells.old ≡ cell_count check.now.first }
    requires before_len { length before.old ≡ length check.now.weights.now * cell_count check.now.first }
    requires after_len { length after.old ≡ length check.now.weights.now * cell_count check.now.first }
    ensures swept { Swept check.now.first check.now.weights.now check.now.costs.now before.new after.new }
    ensures kept { KeptCells check.now.first check.now.weights.now check.now.costs.now before.new after.new }
{
    columns::fill(check, Direction::Forward, cells, before);
    columns::fill(check, Direction::Backward, cells, after);
}

// The record, from both sweeps.
fn record_from(check: &Check<'_>, before: &[u16], after: &[u16], sent: &mut [u8], out: &mut [u8])
    requires swept { Swept check.now.first check.now.weights.now check.now.costs.now before.now after.now }
    requires sent_len { length sent.old ≡ length check.now.weights.now * size_of check.now.first }
    requires out_len { length out.old ≡ record_length (rule_for check.now.first) (length check.now.weights.now) }
    ensures { out.new ≡ record_for check.now }
{
    let d = check.weights.len();
    let rule = rules::rule_of(check.first);
    let q = rules::size(check.first);
    let k = usize::from(rule.k);
    shifts(check, &mut out[..d]);
    join::sent_all(before, after, &out[..d], q, k, rule.greatest, sent);
    group::groups(sent, q, d, k, &mut out[d..]);
}

// The record of an accepted check, in room of the caller's.
fn record_with(
    check: &Check<'_>,
    cells: &mut [u16],
    before: &mut [u16],
    after: &mut [u16],
    sent: &mut [u8],
    out: &mut [u8],
)
    requires cells_len { length cells.old ≡ cell_count check.now.first }
    requires before_len { length before.old ≡ length check.now.weights.now * cell_count check.now.first }
    requires after_len { length after.old ≡ length check.now.weights.now * cell_count check.now.first }
    requires sent_len { length sent.old ≡ length check.now.weights.now * size_of check.now.first }
    requires out_len { length out.old ≡ record_length (rule_for check.now.first) (length check.now.weights.now) }
    ensures { out.new ≡ record_for check.now }
{
    sweeps(check, cells, before, after);
    record_from(check, before, after, sent, out);
}

/// The record, with the room that it takes.
pub fn record_in(check: &Check<'_>, out: &mut [u8])
    requires out_len { length out.old ≡ record_length (rule_for check.now.first) (length check.now.weights.now) }
    ensures { out.new ≡ record_for check.now }
{
    let w = cells::cell_count(check.first);
    let n = check.weights.len() * w;
    let m = check.weights.len() * rules::size(check.first);
    let mut cells = [0u16; MOST_CELLS];
    let mut before = [0u16; MOST_SWEEP];
    let mut after = [0u16; MOST_SWEEP];
    let mut sent = [0u8; sizes::MOST_EXPANSION];
    record_with(
        check,
        &mut cells[..w],
        &mut before[..n],
        &mut after[..n],
        &mut sent[..m],
        out,
    );
}
