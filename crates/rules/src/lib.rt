//! The rule that a first code byte stands for: p in its low digit, and by its high digit how many deviations a choice may have and how its
//! costs are joined. Each function is total, so that every crate above can call it with the byte as it came.
#![tactic(auto)]

ghost use Rattle.std.specs.Prelude.{◌≡◌, ◌-◌, ◌*◌, ◌≤◌};
ghost use Rattle.trellis.specs.Record.{group_length};
ghost use Rattle.trellis.specs.Rules.{rule_for, power_of, size_of, most_of, greatest_of, first_ok};
ghost use Rattle.rules.specs.Numbers.{rule_read};

/// The rule as it travels inside the code: q is 2 ^ p, at most k deviations, costs joined to their sum or to their greatest.
#[derive(Clone, Copy, Debug, PartialEq, Eq)]
pub struct Rule {
    pub p: u8,
    pub k: u8,
    // A bool: an enum cannot be the const parameter that the vector join takes.
    pub greatest: bool,
}

/// Whether the high digit is 0 to 3 and the low digit 2 to 6: no refusal 6.
#[tactic(auto, unfolding(trellis::specs::Rules::first_ok))]
pub fn accepted(first: u8) -> bool
    ensures { result ≡ first_ok first }
{
    first / 16 <= 3 && (2..=6).contains(&power(first))
}

/// p, the low digit.
pub fn power(first: u8) -> u8
    ensures { result ≡ power_of first }
{
    first % 16
}

/// q = 2 ^ p.
pub fn size(first: u8) -> usize
    ensures { (result ≡ size_of first) × ((1 ≤ result) × (result ≤ 32768)) }
{
    // As the sizes of tables and of the field, which are of p: here the byte comes untested.
    1usize << power(first)
}

// k, by the high digit.
fn most(first: u8) -> u8
    ensures { (result ≡ most_of first) × ((2 ≤ result) × (result ≤ 3)) }
{
    if first / 16 < 2 { 2 } else { 3 }
}

// Whether a choice costs the greatest of its columns' costs, and not their sum: an odd high digit.
fn greatest(first: u8) -> bool
    ensures { result ≡ greatest_of first }
{
    first / 16 % 2 == 1
}

/// The bytes of a record behind its shifts: E and k pairs for each a from 1 to q - 1.
pub fn groups(first: u8) -> usize
    ensures { result ≡ group_length (rule_for first) * (size_of first - 1) }
{
    (1 + 2 * usize::from(most(first))) * (size(first) - 1)
}

pub fn rule_of(first: u8) -> Rule
    ensures { result ≡ rule_read first }
{
    Rule {
        p: power(first),
        k: most(first),
        greatest: greatest(first),
    }
}
