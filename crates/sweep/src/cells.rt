//! The cells in which costs are kept: how many there are over some columns, and the join of two of them.
ghost use Rattle.std.specs.Prelude.{◌≡◌, ◌≤◌};
ghost use Rattle.trellis.specs.Rules.{join_of};
ghost use Rattle.sweep.specs.Kept.{cell_count};

/// The cells kept over some columns: k + 1 counts of q sums.
pub fn cell_count(first: u8) -> usize
    ensures { (result ≡ cell_count first) × (result ≤ 8388608) }
{
    let rule = rules::rule_of(first);
    (usize::from(rule.k) + 1) * rules::size(first)
}

/// Two costs joined: their greatest, or their sum. No sum of two 16-bit numbers is lost.
pub fn join_of(greatest: bool, a: u16, b: u16) -> u32
    ensures { result ≡ join_of greatest a b }
{
    // A bool, as the rule has it.
    if greatest {
        return u32::from(a.max(b));
    }
    u32::from(a) + u32::from(b)
}
