//! The tests of columns of costs: a cost of 0 in each, and no cost above 510.
ghost use Rattle.std.specs.Prelude.{◌≡◌, ◌+◌, ◌*◌, ◌≤◌, map, leb, length};
ghost use Rattle.std.specs.List.{list_all, range_with_len};
ghost use Rattle.machine.specs.CodeLine.{zero_in};

use decision::Cost;

// Whether column c of q costs has a cost of 0, in a frame or in a cost buffer.
#[tactic(auto, using(crate::proofs::Frames::zero_told))]
fn zero_at<C: Cost>(costs: &[C], q: usize, c: usize) -> bool
    requires { c * q + q ≤ length costs.now }
    ensures { result ≡ zero_in q (map C.value costs.now) c }
{
    let at = c * q;
    decision::decide(&costs[at..at + q]).symbol < q
}

/// Whether each of the n columns has.
pub fn zeros<C: Cost>(costs: &[C], q: usize, n: usize) -> bool
    requires { n * q ≤ length costs.now }
    ensures { result ≡ list_all (zero_in q (map C.value costs.now)) (range_with_len 0 n) }
{
    (0..n).all(|c| zero_at(costs, q, c))
}

/// Whether no cost is above 510.
pub fn low_costs(costs: &[u16]) -> bool
    ensures { result ≡ list_all (λ cost. leb cost 510) costs.now }
{
    costs.iter().all(|&cost| cost <= 510)
}
