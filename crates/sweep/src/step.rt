//! One column more: the costs kept over some columns become those over these and one more.
ghost use Rattle.std.specs.Prelude.{◌≡◌, cond, ◌+◌, ◌*◌, ◌≤◌, ◌<◌, eqb, length, get_or, set};
ghost use Rattle.trellis.specs.Lists.{tab};
ghost use Rattle.trellis.specs.Field.{xor};
ghost use Rattle.trellis.specs.Sweep.{mark};
ghost use Rattle.sweep.specs.inner.Cells.{Sums, Steps, move_cost, deviation_at, layers, count_cells, step_cells};

use crate::cells;

/// A column as a sweep takes it: the products of its weight with each symbol, the cost of a deviation to each, its decision's product,
/// and which join the rule has: a bool, as there.
#[derive(Clone, Copy, Debug, PartialEq, Eq)]
pub struct Column<'a> {
    pub products: &'a [u8],
    pub moves: &'a [u16],
    pub decided: usize,
    pub greatest: bool,
    ghost steps: { Steps products.now moves.now },
    ghost element: { decided < length products.now },
}

// The cheapest deviation of the column that leads to sum t, from the costs of one deviation fewer.
fn deviation_at(column: &Column<'_>, low: &[u16], t: usize) -> u32
    requires low_len { (length low.now ≡ length column.now.products.now) × (t < length column.now.products.now) }
    ensures { (result ≡ deviation_at column.now.greatest column.now.products.now column.now.moves.now low.now t) × (result ≤ 1024) }
{
    let mut e = 1024u32;
    // By index: the definition counts the symbols, and a zip would have to be counted beside.
    for (x, &s) in column.products.iter().enumerate() {
        e = e.min(cells::join_of(column.greatest, column.moves[x], low[t ^ usize::from(s)]));
    }
    e
}

// One count: the column keeps its decision, or it is one of the deviations.
fn layer(column: &Column<'_>, low: &[u16], same: &[u16], out: &mut [u16])
    requires low_len { (length low.now ≡ length column.now.products.now) × (length same.now ≡ length column.now.products.now) }
    requires out_len { length out.old ≡ length column.now.products.now }
    ensures { out.new ≡ layers column.now.greatest column.now.products.now column.now.moves.now low.now same.now column.now.decided }
{
    for (t, cost) in out.iter_mut().enumerate() {
        let stays = u32::from(same[t ^ column.decided]);
        // `as`: at most the mark, and a conversion that can fail is no plainer.
        *cost = stays.min(deviation_at(column, low, t)) as u16;
    }
}

// No deviation: the column keeps its decision.
#[tactic(auto, unfolding(trellis::specs::Field::xor))]
fn kept(same: &[u16], s: usize, out: &mut [u16])
    requires sums { Sums (length same.now) }
    requires out_len { (length out.old ≡ length same.now) × (s < length same.now) }
    ensures { out.new ≡ tab (λ t. get_or same.now (xor t s) 0) (length same.now) }
{
    for (t, cost) in out.iter_mut().enumerate() {
        *cost = same[t ^ s];
    }
}

// The cost of a deviation to x, the mark where x is the decision.
fn move_cost(x: usize, z: usize, cost: u8) -> u16
    ensures { result ≡ cond (eqb x z) 1024 cost }
{
    if x == z { 1024 } else { u16::from(cost) }
}

/// The costs of the column's deviations.
pub fn move_costs(costs: &[u8], z: usize, out: &mut [u16])
    requires { length costs.now ≡ length out.old }
    ensures { out.new ≡ tab (move_cost costs.now z) (length out.old) }
{
    // By index: of a zip over a slice that is written only the length is known.
    for (x, cost) in out.iter_mut().enumerate() {
        *cost = move_cost(x, z, costs[x]);
    }
}

// The costs of j deviations.
fn count(column: &Column<'_>, cells: &[u16], j: usize, out: &mut [u16])
    requires cells_len { j * length column.now.products.now + length column.now.products.now ≤ length cells.now }
    requires out_len { length out.old ≡ length column.now.products.now }
    ensures { out.new ≡ count_cells column.now.greatest (length column.now.products.now) column.now.products.now column.now.moves.now cells.now column.now.decided j }
{
    let q = column.products.len();
    // No count is below 0.
    if j == 0 {
        kept(&cells[..q], column.decided, out);
        return;
    }
    let b = j * q;
    layer(column, &cells[b - q..b], &cells[b..b + q], out);
}

/// The costs of each count up to k.
pub fn step(column: &Column<'_>, cells: &[u16], k: usize, out: &mut [u16])
    requires k_few { k ≤ 3 }
    requires cells_len { (length cells.now ≡ (k + 1) * length column.now.products.now) × (length out.old ≡ (k + 1) * length column.now.products.now) }
    ensures { out.new ≡ step_cells column.now.greatest (length column.now.products.now) k column.now.products.now column.now.moves.now cells.now column.now.decided }
{
    let q = column.products.len();
    // Cut by hand: of the chunks of a slice that is written only the length is known.
    // To k + 1: of ..=k the last turn is an end of its own, which takes a second proof.
    for j in 0..k + 1 {
        let b = j * q;
        count(column, cells, j, &mut out[b..b + q]);
    }
}

/// No column yet: one choice, with no deviation, sum 0 and cost 0.
pub fn begin(out: &mut [u16])
    requires { 0 < length out.old }
    ensures { out.new ≡ set (tab (λ i. mark) (length out.old)) 0 0 }
{
    out.fill(1024);
    out[0] = 0;
}
