//! The groups of a record, from the rests of the costs sent: for each a the extra column and the columns whose rest is below the best.
#![tactic(auto)]

mod list;

ghost use Rattle.std.specs.Prelude.{◌≡◌};
ghost use Rattle.groups.specs.Calls.{groups_leave};

use rules::Rule;

/// The groups of a record from the rests that `sent` writes: for each a from 1 to 2 ^ p - 1, E, then k pairs of column and cost. Nothing
/// changes where p is not 2 to 6, k not 2 to 3, d not 2 to 32, or a slice too short.
pub fn groups(rule: Rule, d: usize, sent: &[u8], out: &mut [u8])
    ensures { out.new ≡ groups_leave rule.p rule.k d sent.now out.old }
{
    let Some(shape) = tables::shape_of(rule, d) else {
        return;
    };
    let n = d * shape.l;
    if sent.len() < n {
        return;
    }
    let m = (shape.q - 1) * (shape.k * 2 + 1);
    if out.len() < m {
        return;
    }
    list::groups_in(shape, d, &sent[..n], &mut out[..m]);
}
