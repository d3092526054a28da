//! The engine of one check: tables of rests over the columns before and after each one, sixteen rows at a time.
#![tactic(auto)]

mod block;
mod grow;
mod join;
mod layout;
mod rows;

ghost use Rattle.std.specs.Prelude.{◌≡◌, is_some, IfSome};
ghost use Rattle.tables.specs.Calls.{in_range, ShapeFor, sent_leaves};

pub use crate::layout::Shape;
use rules::Rule;

/// Whether p is 2 to 6, k 2 to 3 and d 2 to 32.
#[tactic(auto, unfolding(crate::specs::Calls::in_range))]
pub fn fits(rule: Rule, d: usize) -> bool
    ensures { result ≡ in_range rule.p rule.k d }
{
    (2..=6).contains(&rule.p) && (2..=3).contains(&rule.k) && (2..=sizes::MOST_DEGREE).contains(&d)
}

/// The shape of the tables over d columns, where these fit: at least sixteen rows, for that many are taken at a time.
pub fn shape_of(rule: Rule, d: usize) -> Option<Shape>
    ensures fits { is_some result ≡ in_range rule.p rule.k d }
    ensures shape { IfSome result (ShapeFor rule.p rule.k rule.greatest) }
{
    if !fits(rule, d) {
        return None;
    }
    // Not by the size in rules, which is that of a first byte.
    let q = 1usize << rule.p;
    Some(Shape {
        q,
        l: q.max(16),
        k: usize::from(rule.k),
        greatest: rule.greatest,
    })
}

/// The rests of the costs sent to d columns, from the columns' lines: line n and row n start at n times the rows of a table, which are 2
/// ^ p and at least 16. A line has in row a the rest of the symbol whose weighted difference from the decision is a, and 0 in rows from
/// 2 ^ p on. Nothing changes where p is not 2 to 6, k not 2 to 3, d not 2 to 32, or a slice too short.
pub fn sent(rule: Rule, d: usize, lines: &[u8], out: &mut [u8])
    ensures { out.new ≡ sent_leaves rule.p rule.k rule.greatest d lines.now out.old }
{
    let Some(shape) = shape_of(rule, d) else {
        return;
    };
    let n = d * shape.l;
    if lines.len() < n || out.len() < n {
        return;
    }
    rows::rows(shape, d, &lines[..n], &mut out[..n]);
}
