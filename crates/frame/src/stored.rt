//! Lent costs and records from which an iteration goes on: the costs of a column, and the form of each record.
ghost use Rattle.std.specs.Prelude.{◌≡◌, ◌≤◌, length};
ghost use Rattle.trellis.specs.Lists.{all_to};
ghost use Rattle.frame.specs.Answers.{costs_in, formed_at, records_in};

use crate::columns;
use expansion::form;

/// n columns of q costs, without "a cost above 510, or a column without a 0".
#[tactic(auto, using(crate::proofs::Resuming::low_are, crate::proofs::Frames::zeros_are), unfolding(crate::specs::Answers::costs_in))]
pub fn costs_ok(costs: &[u16], q: usize, n: usize) -> bool
    requires { (n ≤ 65535) × (q ≤ 32768) }
    ensures { result ≡ costs_in q n costs.now }
{
    let w = n * q;
    w <= costs.len() && columns::low_costs(&costs[..w]) && columns::zeros(costs, q, n)
}

// Whether the records of the checks are of accepted form; one that the store does not hold whole is not.
#[tactic(auto, using(crate::proofs::Resuming::groups_small, crate::proofs::Resuming::rest_all, crate::proofs::Resuming::rest_more, crate::proofs::Resuming::form_short, crate::proofs::Resuming::form_more, crate::proofs::Resuming::form_fails))]
fn store_ok(first: u8, degrees: &[u8], store: &[u8]) -> bool
    ensures { result ≡ all_to (formed_at first degrees.now store.now) (length degrees.now) }
{
    let groups = rules::groups(first);
    let mut rest = store;
    for &degree in degrees {
        let d = usize::from(degree);
        let Some((record, behind)) = rest.split_at_checked(d + groups) else {
            return false;
        };
        if !form::record_ok(first, record, d) {
            return false;
        }
        rest = behind;
    }
    true
}

/// At t = 0 there is no record to test.
#[tactic(auto, unfolding(crate::specs::Answers::records_in))]
pub fn records_ok(first: u8, t: u8, degrees: &[u8], store: &[u8]) -> bool
    ensures { result ≡ records_in first degrees.now (length degrees.now) t store.now }
{
    t == 0 || store_ok(first, degrees, store)
}
