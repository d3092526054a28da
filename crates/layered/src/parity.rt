//! The decisions with their margins, and whether they satisfy every check.
ghost use Rattle.std.specs.Prelude.{◌≡◌, ◌+◌, ◌*◌, ◌^◌, ◌≤◌, ◌<◌, length};
ghost use Rattle.trellis.specs.Lists.{tab};
ghost use Rattle.trellis.specs.Check.{decide as decide_of};
ghost use Rattle.trellis.specs.Field.{product};
ghost use Rattle.trellis.specs.Rules.{power_of};
ghost use Rattle.trellis.specs.Sizes.{most_size};
ghost use Rattle.machine.specs.inner.Tables.{term};
ghost use Rattle.machine.specs.CodeLine.{column_of};
ghost use Rattle.machine.specs.Machine.{settled as settled_of, symbols as symbols_of};
ghost use Rattle.codeline.specs.Codes.{lent_code};
ghost use Rattle.machine.specs.inner.Tables.{EdgeRoom};
ghost use Rattle.layered.specs.inner.Parity.{all_hold, ParityRoom, FromTo, FirstNot, SettledRoom};

use codeline::code::Code;
use decision::answers::Decision;

/// The decision of column c of q costs.
pub fn decided(costs: &[u16], q: usize, c: usize) -> Decision
    requires { c * q + q ≤ length costs.now }
    ensures symbol { (result.symbol ≡ (decide_of (column_of q costs.now c)).symbol) × (result.symbol ≤ q) }
    ensures margin { result.margin ≡ (decide_of (column_of q costs.now c)).margin }
{
    let at = c * q;
    decision::decide(&costs[at..at + q])
}

// The symbol of each column.
fn decisions(costs: &[u16], q: usize, symbols: &mut [u8])
    requires { (length symbols.old * q ≤ length costs.now) × (q ≤ most_size) }
    ensures { symbols.new
        ≡ tab (λ c. (decide_of (column_of q costs.now c)).symbol) (length symbols.old) }
{
    for (c, x) in symbols.iter_mut().enumerate() {
        // By `as`: a symbol is below 64, and a conversion that can fail is no plainer.
        *x = decided(costs, q, c).symbol as u8;
    }
}

/// The margin of each column.
pub fn margins(costs: &[u16], q: usize, margins: &mut [u16])
    requires { length margins.old * q ≤ length costs.now }
    ensures { margins.new
        ≡ tab (λ c. (decide_of (column_of q costs.now c)).margin) (length margins.old) }
{
    for (c, x) in margins.iter_mut().enumerate() {
        *x = decided(costs, q, c).margin;
    }
}

/// The symbol and the margin of each column: one decision gives both.
pub fn symbols_and_margins(costs: &[u16], q: usize, symbols: &mut [u8], margins: &mut [u16])
    requires room { (length symbols.old * q ≤ length costs.now) × (q ≤ most_size) }
    requires beside { length margins.old ≡ length symbols.old }
    ensures symbols_then { symbols.new
        ≡ tab (λ c. (decide_of (column_of q costs.now c)).symbol) (length symbols.old) }
    ensures margins_then { margins.new
        ≡ tab (λ c. (decide_of (column_of q costs.now c)).margin) (length margins.old) }
{
    for (c, x) in symbols.iter_mut().enumerate() {
        let decision = decided(costs, q, c);
        // By `as`: a symbol is below 64, and a conversion that can fail is no plainer.
        *x = decision.symbol as u8;
        margins[c] = decision.margin;
    }
}

// A product of two elements, which is not refused. In sweep too: what the field opens is total, and at each call the proof would stand once more.
fn times(p: u8, a: u8, b: u8) -> u8
    requires { (2 ≤ p) × ((p ≤ 6) × ((a < 2 ^ p) × (b < 2 ^ p))) }
    ensures { result ≡ product p a b }
{
    field::product(p, a, b).unwrap()
}

// What one edge adds to its check's sum. Beside the encoder's: of the crates that read a code none below both has the product.
fn term_at(code: &Code<'_>, symbols: &[u8], edge: usize) -> u8
    requires { EdgeRoom (power_of code.now.numbers.first) code.now.columns.now code.now.weights.now symbols.now edge }
    ensures { result ≡ term (power_of code.now.numbers.first) code.now.columns.now code.now.weights.now symbols.now edge }
{
    let c = usize::from(code.columns[edge]);
    times(
        rules::power(code.numbers.first),
        code.weights[edge],
        symbols[c],
    )
}

/// A check by its number, with its first edge in the tables.
#[derive(Clone, Copy, Debug, PartialEq, Eq)]
pub struct CheckAt {
    pub check: usize,
    pub edge: usize,
}

impl CheckAt {
    /// The first check.
    pub const FIRST: CheckAt = CheckAt { check: 0, edge: 0 };
}

/// The first check from `from` on and before `to` that the symbols do not satisfy, "the sum of h_n times x_n is 0". Both loops are left
/// at once, by the label.
pub fn unsatisfied(code: &Code<'_>, from: CheckAt, to: usize, symbols: &[u8]) -> Option<CheckAt>
    requires { ParityRoom code.now symbols.now × FromTo code.now from to }
    ensures { FirstNot (lent_code code.now) code.now.degrees.now symbols.now from.check to result }
{
    let mut m = from.check;
    let mut at = from.edge;
    'checks: loop {
        if m == to {
            break 'checks None;
        }
        let d = usize::from(code.degrees[m]);
        let mut sum = 0u8;
        let mut n = 0;
        // No `for`, here or above: the label leaves both with a value, and `for` yields none by `break`.
        loop {
            if n == d {
                if sum != 0 {
                    break 'checks Some(CheckAt { check: m, edge: at });
                }
                break;
            }
            sum ^= term_at(code, symbols, at + n);
            n += 1;
        }
        at += d;
        m += 1;
    }
}

/// Whether the symbols satisfy every check.
pub fn holds(code: &Code<'_>, symbols: &[u8]) -> bool
    requires { ParityRoom code.now symbols.now }
    ensures { result ≡ all_hold (lent_code code.now) symbols.now }
{
    let count = usize::from(code.numbers.checks);
    unsatisfied(code, CheckAt::FIRST, count, symbols).is_none()
}

/// The decisions into the symbol buffer, and whether they satisfy every check.
pub fn settled(code: &Code<'_>, costs: &[u16], symbols: &mut [u8]) -> bool
    requires { SettledRoom code.now costs.now symbols.old }
    ensures test { result ≡ settled_of (lent_code code.now) costs.now }
    ensures symbols_then { symbols.new ≡ symbols_of (lent_code code.now) costs.now }
{
    decisions(costs, rules::size(code.numbers.first), symbols);
    holds(code, symbols)
}
