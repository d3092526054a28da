//! The form of an accepted record.
ghost use Rattle.std.specs.Prelude.{◌≡◌, ◌+◌, ◌*◌, ◌≤◌, ltb, length, get_or};
ghost use Rattle.trellis.specs.Lists.{all_to};
ghost use Rattle.trellis.specs.Record.{pair_tests, pairs_ok, record_ok};
ghost use Rattle.trellis.specs.Refusals.{passes};
ghost use Rattle.trellis.specs.Rules.{rule_for};

// Whether a pair, column c and its S, may stand beside e in a record of degree d: unused, or a column that is low or more.
#[tactic(auto, unfolding(trellis::specs::Record::pair_tests))]
fn pair_ok(c: usize, s: u8, e: u8, d: usize, low: usize) -> bool
    ensures { result ≡ passes (pair_tests c s e d low) }
{
    if c == 0xFF {
        s == 0x00
    } else {
        low <= c && c < d && e < s
    }
}

// The k pairs of the group that starts at place at. Whether a pair is used varies from group to group, so no test ends the loop: a
// mispredicted branch would cost more than the tests that are left.
fn pairs_ok(r: &[u8], at: usize, d: usize, k: usize) -> bool
    requires { at + (1 + 2 * k) ≤ length r.now }
    ensures { result ≡ pairs_ok k r.now (at + 1) (get_or r.now at 0) d 0 }
{
    let e = r[at];
    let mut ok = true;
    let mut low = 0;
    // By place, as the definition reads the record: in a group that is cut off each place would be another.
    for j in 0..k {
        let next = at + 1 + 2 * j;
        let column = usize::from(r[next]);
        ok &= pair_ok(column, r[next + 1], e, d, low);
        low = column + 1;
    }
    ok
}

// The groups too are all tested.
fn groups_ok(r: &[u8], d: usize, n: usize, k: usize) -> bool
    requires { (k ≤ 3) × (d + (1 + 2 * k) * n ≤ length r.now) }
    ensures { result ≡ all_to (λ b. pairs_ok k r.now (d + (1 + 2 * k) * b + 1) (get_or r.now (d + (1 + 2 * k) * b) 0) d 0) n }
{
    let g = 1 + 2 * k;
    let mut ok = true;
    // By place, as the definition reads the record.
    for b in 0..n {
        ok &= pairs_ok(r, d + g * b, d, k);
    }
    ok
}

// The shifts are tested without a jump too.
fn shifts_ok(r: &[u8], d: usize, q: usize) -> bool
    requires { d ≤ length r.now }
    ensures { result ≡ all_to (λ n. ltb (get_or r.now n 0) q) d }
{
    let mut ok = true;
    for &s in &r[..d] {
        ok &= usize::from(s) < q;
    }
    ok
}

/// Whether these bytes are a record of degree d of accepted form. The length first: d shifts, and the bytes of the groups.
pub fn record_ok(first: u8, r: &[u8], d: usize) -> bool
    ensures { result ≡ record_ok (rule_for first) d r.now }
{
    let groups = rules::groups(first);
    if r.len() < groups || r.len() - groups != d {
        return false;
    }
    let q = rules::size(first);
    let rule = rules::rule_of(first);
    shifts_ok(r, d, q) && groups_ok(r, d, q - 1, usize::from(rule.k))
}
