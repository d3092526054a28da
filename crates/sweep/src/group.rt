//! The bytes of each a, from the sent costs of all columns: E, and the columns above it.
ghost use Rattle.std.specs.Prelude.{◌≡◌, ◌+◌, ◌-◌, ◌*◌, ◌≤◌, ◌<◌, ltb, length, set};
ghost use Rattle.trellis.specs.Lists.{pick, blocks};
ghost use Rattle.sweep.specs.inner.Groups.{lowest_to, sent_of, pair_above, pair_count, pairs_over, unused_pair, group_by, PairsRoom};

// E: the least of the costs sent at a. Column n's cost stands at n q + a.
fn lowest(sent: &[u8], q: usize, d: usize, a: usize) -> u8
    requires { (length sent.now ≡ d * q) × (a < q) }
    ensures { result ≡ lowest_to (sent_of sent.now q a) d }
{
    let mut e = 255u8;
    // By place, as the definition names a cost sent.
    for n in 0..d {
        e = e.min(sent[n * q + a]);
    }
    e
}

// Two bytes.
fn put_pair(out: &mut [u8], at: usize, u: u8, v: u8)
    requires { at + 2 ≤ length out.old }
    ensures { out.new ≡ set (set out.old at u) (at + 1) v }
{
    out[at] = u;
    out[at + 1] = v;
}

// After c pairs, that of column n, if its cost s is above e. Answers how many pairs there are then. A count beside the slice: a list that
// grows would take a heap.
fn put_above(out: &mut [u8], c: usize, n: u8, s: u8, e: u8) -> usize
    requires { (c ≤ 255) × (pick (ltb e s) (c * 2 + 2) 0 ≤ length out.old) }
    ensures count { result ≡ pick (ltb e s) (c + 1) c }
    ensures out_then { out.new ≡ pick (ltb e s) (set (set out.old (c * 2) n) (c * 2 + 1) s) out.old }
{
    if e < s {
        put_pair(out, c * 2, n, s);
        return c + 1;
    }
    c
}

// The pairs of the columns above e, rising. Answers how many there are.
fn pairs(sent: &[u8], q: usize, d: usize, a: usize, e: u8, out: &mut [u8]) -> usize
    requires sent_len { (length sent.now ≡ d * q) × ((a < q) × (d ≤ 255)) }
    requires d_in_bounds { length (blocks (pair_above e (sent_of sent.now q a)) d) ≤ length out.old }
    ensures count { result ≡ pair_count e (sent_of sent.now q a) d }
    ensures out_then { out.new ≡ pairs_over e (sent_of sent.now q a) d out.old }
{
    let mut c = 0;
    // By place, as the definition names a cost sent.
    for n in 0..d {
        // `as`: d is at most 255, and a conversion that can fail is no plainer.
        c = put_above(out, c, n as u8, sent[n * q + a], e);
    }
    c
}

// Unused pairs.
fn pads(out: &mut [u8], m: usize)
    requires { (length out.old ≡ m * 2) × (m ≤ 255) }
    ensures { out.new ≡ blocks unused_pair m }
{
    for i in 0..m {
        put_pair(out, i * 2, 0xFF, 0x00);
    }
}

// The bytes of a.
fn group(sent: &[u8], q: usize, d: usize, k: usize, a: usize, out: &mut [u8])
    requires sent_len { (length sent.now ≡ d * q) × ((a < q) × ((d ≤ 255) × (k ≤ 3))) }
    requires out_len { (length out.old ≡ 1 + 2 * k) × (pair_count (lowest_to (sent_of sent.now q a) d) (sent_of sent.now q a) d ≤ k) }
    ensures { out.new ≡ group_by k d (sent_of sent.now q a) }
{
    let e = lowest(sent, q, d, a);
    out[0] = e;
    let n = out.len();
    let c = pairs(sent, q, d, a, e, &mut out[1..n]);
    let b = 1 + c * 2;
    pads(&mut out[b..n], k - c);
}

/// The bytes of each a from 1 on.
pub fn groups(sent: &[u8], q: usize, d: usize, k: usize, out: &mut [u8])
    requires sent_len { (length sent.now ≡ d * q) × ((d ≤ 255) × ((k ≤ 3) × (0 < q))) }
    requires pairs_room { PairsRoom k d q sent.now }
    requires out_len { length out.old ≡ (q - 1) * (1 + 2 * k) }
    ensures { out.new ≡ blocks (λ i. group_by k d (sent_of sent.now q (i + 1))) (q - 1) }
{
    let w = 1 + 2 * k;
    // Cut by hand: of the chunks of a slice that is written only the length is known.
    for i in 0..q - 1 {
        let a = i * w;
        group(sent, q, d, k, i + 1, &mut out[a..a + w]);
    }
}
