//! A sweep over the columns, from the first to the last or from the last to the first.
ghost use Rattle.std.specs.Prelude.{◌≡◌, ◌*◌, ◌^◌, ◌≤◌, ◌<◌, length};
ghost use Rattle.trellis.specs.Lists.{tab};
ghost use Rattle.trellis.specs.Field.{product};
ghost use Rattle.trellis.specs.Check.{first_zero};
ghost use Rattle.trellis.specs.Rules.{power_of, size_of};
ghost use Rattle.trellis.specs.Sizes.{most_size};
ghost use Rattle.checknode.specs.inner.Asks.{Times};
ghost use Rattle.sweep.specs.Kept.{cell_count};
ghost use Rattle.sweep.specs.inner.Cells.{move_cost, Sized, step_for, step_column, order_of, is_back, table_of};

use crate::step::Column;
use crate::{cells, step};
use checknode::accepted::Check;

/// A product of two elements, which is not refused. In encoder too: at each call the proof that it is not would stand once more.
pub fn times(p: u8, a: u8, b: u8) -> u8
    requires { (2 ≤ p) × ((p ≤ 6) × ((a < 2 ^ p) × (b < 2 ^ p))) }
    ensures { result ≡ product p a b }
{
    field::product(p, a, b).unwrap()
}

// The products of one weight with every symbol.
fn products(p: u8, h: u8, row: &mut [u8])
    requires times { Times p h }
    requires row_len { (length row.old ≡ 2 ^ p) × (length row.old ≤ most_size) }
    ensures { row.new ≡ tab (product p h) (2 ^ p) }
{
    for (x, product) in row.iter_mut().enumerate() {
        // `as`: a symbol is below 64, and a conversion that can fail is no plainer.
        *product = times(p, h, x as u8);
    }
}

// One column's products and the costs of its deviations. Answers h times z.
fn column(p: u8, h: u8, costs: &[u8], row: &mut [u8], moves: &mut [u16]) -> u8
    requires times { Times p h }
    requires sized { Sized (2 ^ p) costs.now row.old moves.old }
    ensures term { result ≡ product p h (first_zero costs.now) }
    ensures row_then { row.new ≡ tab (product p h) (2 ^ p) }
    ensures moves_then { moves.new ≡ tab (move_cost costs.now (first_zero costs.now)) (2 ^ p) }
{
    products(p, h, row);
    let z = decision::decide(costs).symbol;
    step::move_costs(costs, z, moves);
    row[z]
}

// One column more: from the cells over some columns those over these and this one. Four slices: of a part of a struct's field only the
// length is known.
fn advance(
    first: u8,
    h: u8,
    costs: &[u8],
    row: &mut [u8],
    moves: &mut [u16],
    cells: &[u16],
    out: &mut [u16],
)
    requires times { Times (power_of first) h }
    requires sized { Sized (size_of first) costs.now row.old moves.old }
    requires cells_len { (length cells.now ≡ cell_count first) × (length out.old ≡ cell_count first) }
    ensures { out.new ≡ step_for first h costs.now cells.now }
{
    let rule = rules::rule_of(first);
    let decided = usize::from(column(rule.p, h, costs, row, moves));
    let taken = Column {
        products: row,
        moves,
        decided,
        greatest: rule.greatest,
    };
    step::step(&taken, cells, usize::from(rule.k), out);
}

// One column more, by its number.
fn turn(check: &Check<'_>, n: usize, cells: &[u16], out: &mut [u16])
    requires n_in_bounds { n < length check.now.weights.now }
    requires cells_len { (length cells.now ≡ cell_count check.now.first) × (length out.old ≡ cell_count check.now.first) }
    ensures { out.new ≡ step_column check.now.first check.now.weights.now check.now.costs.now n cells.now }
{
    let q = rules::size(check.first);
    let at = n * q;
    let mut row = [0u8; sizes::MOST_SIZE];
    let mut moves = [0u16; sizes::MOST_SIZE];
    advance(
        check.first,
        check.weights[n],
        &check.costs[at..at + q],
        &mut row[..q],
        &mut moves[..q],
        cells,
        out,
    );
}

/// From the first column on, or from the last.
#[derive(Clone, Copy, Debug, PartialEq, Eq)]
pub enum Direction {
    Forward,
    Backward,
}

// The column of turn i.
fn order(direction: Direction, d: usize, i: usize) -> usize
    requires { i < d }
    ensures { (result ≡ order_of (is_back direction) d i) × (result < d) }
{
    match direction {
        Direction::Forward => i,
        Direction::Backward => d - 1 - i,
    }
}

/// A sweep: part 0 of the table is kept over no column, and each part after it over one column more. The last column of the order is left
/// out, for no column comes after it. A part is copied before the next is worked out: one slice cannot be read and written at once.
pub fn fill(check: &Check<'_>, direction: Direction, cells: &mut [u16], table: &mut [u16])
    requires cells_len { (length cells.old ≡ cell_count check.now.first) × (length table.old ≡ length check.now.weights.now * cell_count check.now.first) }
    ensures { table.new ≡ table_of check.now.first (is_back direction) check.now.weights.now check.now.costs.now }
{
    let d = check.weights.len();
    let w = cells::cell_count(check.first);
    step::begin(&mut table[..w]);
    // Cut by hand: of the chunks of a slice that is written only the length is known.
    for i in 1..d {
        let b = i * w;
        slices::copy(&table[b - w..b], cells);
        turn(
            check,
            order(direction, d, i - 1),
            cells,
            &mut table[b..b + w],
        );
    }
}
