//! What a code line says to whoever lends the buffers.
ghost use Rattle.std.specs.Prelude.{◌≡◌, ◌+◌, ◌-◌, ◌*◌, ◌/◌, ◌≤◌};
ghost use Rattle.trellis.specs.Record.{group_length};
ghost use Rattle.trellis.specs.Rules.{size_of, rule_for};
ghost use Rattle.refusal.specs.Numbers.{number_of};
ghost use Rattle.codeline.specs.Answers.{told_refused, Tells};

use crate::answers::Summary;
use refusal::Refusal;

pub fn refused(refusal: Refusal) -> Summary
    ensures { Tells (told_refused (number_of refusal)) result }
{
    Summary {
        number: u8::from(refusal),
        first: 0,
        columns: 0,
        checks: 0,
        scale: 0,
        limit: 0,
        store: 0,
    }
}

/// The bytes of the records of so many checks. The line's length tells the edges: six bytes, one for each check, three for each edge.
pub fn store_length(first: u8, checks: u8, length: usize) -> u32
    requires { (6 + checks ≤ length) × ((length ≤ 3206) × (group_length (rule_for first) * (size_of first - 1) ≤ 441)) }
    ensures { result ≡ (length - 6 - checks) / 3 + checks * (group_length (rule_for first) * (size_of first - 1)) }
{
    let m = usize::from(checks);
    let edges = (length - 6 - m) / 3;
    // By `as`: what is required says that it fits.
    (edges + m * rules::groups(first)) as u32
}
