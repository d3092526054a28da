//! The margin of a decision: the least cost of the other symbols.
ghost use Rattle.std.specs.Prelude.{◌≡◌, ◌<◌, map, eqb, length};
ghost use Rattle.trellis.specs.Lists.{pick};
ghost use Rattle.trellis.specs.Check.{first_zero, margin_of};
ghost use Rattle.trellis.specs.inner.Margins.{least_but};
ghost use Rattle.decision.specs.inner.Bounds.{BoundedBut};

use crate::cost::Cost;

// The cost of symbol x; where x is z, no cost is greater.
fn but<C: Cost>(cost: C, x: usize, z: usize) -> C
    ensures { C.value result ≡ pick (eqb x z) C.bound (C.value cost) }
{
    if x == z { C::MOST } else { cost }
}

// The least cost of the symbols other than z.
#[tactic(auto, unfolding(trellis::specs::inner::Margins::least_but))]
fn least_but<C: Cost>(costs: &[C], z: usize) -> C
    ensures least { C.value result ≡ least_but C.bound (map C.value costs.now) z (length costs.now) }
    ensures bounded { BoundedBut C.bound (map C.value costs.now) z (length costs.now) }
{
    let mut least = C::MOST;
    for (x, &cost) in costs.iter().enumerate() {
        least = least.lesser(but(cost, x, z));
    }
    least
}

/// What the other symbols cost above symbol z, the first of cost 0; nothing where there is no other.
pub fn margin_at<C: Cost>(costs: &[C], z: usize) -> u16
    requires zero { z ≡ first_zero (map C.value costs.now) }
    requires inside { z < length costs.now }
    ensures { result ≡ margin_of (map C.value costs.now) }
{
    if costs.len() < 2 {
        return 0;
    }
    least_but(costs, z).widened()
}
