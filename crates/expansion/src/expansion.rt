//! The expansion of a record. Its groups are unpacked once into lists over the rows a: E, then column and S of each pair. A column goes
//! through the lists, with no jump that depends on what they hold, and takes the place of its products.
ghost use Rattle.std.specs.Prelude.{◌≡◌, cond, ℕ, ◌+◌, ◌-◌, ◌*◌, ◌≤◌, ◌<◌, eqb, length, take, get_or};
ghost use Rattle.trellis.specs.Lists.{tab, blocks};
ghost use Rattle.trellis.specs.Record.{expansion};
ghost use Rattle.trellis.specs.Rules.{rule_for, power_of, size_of, most_of};
ghost use Rattle.trellis.specs.Sizes.{most_size};
ghost use Rattle.expansion.specs.inner.Asks.{ExpandRoom};
ghost use Rattle.expansion.specs.inner.Transposed.{zero_row, every_at, unpacked, beside_in, value_in, by_symbol, turned};
ghost use Rattle.expansion.specs.inner.Transposed.{UnpackRoom, ListsRoom, ShiftRoom, TurnRoom};

use std::simd::prelude::*;

// Lists over the rows of the largest field: E, and column and S of each pair.
const MOST_LISTS: usize = (1 + 2 * sizes::MOST_DEVIATIONS) * sizes::MOST_SIZE;

// What list i has in row 0: "the byte is 0 if a is 0", and no column is FF.
#[tactic(auto, unfolding(crate::specs::inner::Transposed::zero_row))]
fn zero_row(i: usize) -> u8
    ensures { result ≡ zero_row i }
{
    if i % 2 == 1 { 0xFF } else { 0x00 }
}

// One byte of each row: first for row 0, then every g-th of the record from place at on.
fn every(r: &[u8], at: usize, g: usize, first: u8, out: &mut [u8])
    requires in_bounds { 1 ≤ length out.old }
    requires by_index { (b : ℕ) → b + 1 < length out.old → at + g * b < length r.now }
    ensures { out.new ≡ tab (every_at r.now at g first) (length out.old) }
{
    out[0] = first;
    // By index: of a zip over a slice that is written only the length is known.
    for a in 1..out.len() {
        out[a] = r[at + g * (a - 1)];
    }
}

// The lists of q rows, end to end, from groups of k pairs.
#[tactic(auto, unfolding(crate::specs::inner::Transposed::unpacked))]
fn unpack(r: &[u8], d: usize, q: usize, k: usize, out: &mut [u8])
    requires { UnpackRoom k d q r.now out.old }
    ensures { out.new ≡ unpacked k d q r.now }
{
    let g = 1 + 2 * k;
    // Cut by hand: of the chunks of a slice that is written only the length is known.
    for i in 0..g {
        let at = i * q;
        every(r, d + i, g, zero_row(i), &mut out[at..at + q]);
    }
}

// One pair of sixteen rows: its S where its column is n, else what stood there.
fn pair(c: u8x16, s: u8x16, n: u8, v: u8x16) -> u8x16
    ensures { result ≡ tab (beside_in c s n v) 16 }
{
    c.simd_eq(u8x16::splat(n)).select(s, v)
}

// One column by symbols, in place: symbol x has its product, and gets the value of its row, that product moved by the shift.
fn by_symbol(v: &[u8], s: u8, out: &mut [u8])
    requires shift_room { ShiftRoom out.old s }
    requires v_len { length v.now ≡ length out.old }
    ensures { out.new ≡ tab (by_symbol v.now out.old s) (length out.old) }
{
    for x in out.iter_mut() {
        *x = v[usize::from(*x ^ s)];
    }
}

// Lists over q rows for k pairs a group, end to end. As many rows of each can be read as the largest field has.
#[derive(Clone, Copy)]
struct Lists<'a> {
    bytes: &'a [u8],
    q: usize,
    k: usize,
    ghost room: { ListsRoom k q bytes.now },
}

impl Lists<'_> {
    // "the S beside n if a's pairs list n, else E(a)", for sixteen rows from row at on.
    fn rows_from(&self, n: u8, at: usize) -> u8x16
        requires { at + 16 ≤ most_size }
        ensures { result ≡ tab (λ a. value_in self.now.k self.now.bytes.now self.now.q n (at + a)) 16 }
    {
        let t = self.bytes;
        let mut v = u8x16::from_slice(&t[at..]);
        // From the last pair: the first has the last word.
        for j in (0..self.k).rev() {
            let c = (1 + 2 * j) * self.q + at;
            let s = c + self.q;
            v = pair(u8x16::from_slice(&t[c..]), u8x16::from_slice(&t[s..]), n, v);
        }
        v
    }

    // The values of one column, row by row, sixteen rows at a time: with fewer than sixteen the rest is read and not used.
    fn values(&self, n: u8, v: &mut [u8])
        requires { length v.old ≡ most_size }
        ensures { take self.now.q v.new ≡ tab (value_in self.now.k self.now.bytes.now self.now.q n) self.now.q }
    {
        // Cut by hand: of the chunks of a slice that is written only the length is known.
        for b in 0..self.q.div_ceil(16) {
            let at = b * 16;
            self.rows_from(n, at).copy_to_slice(&mut v[at..]);
        }
    }

    // One column, by symbols. The room for its values is an array of its own: the compiler then knows that it is apart from the lists.
    fn column(&self, n: u8, s: u8, out: &mut [u8])
        requires shift_room { ShiftRoom out.old s }
        requires out_len { length out.old ≡ self.now.q }
        ensures { out.new ≡ tab (by_symbol (tab (value_in self.now.k self.now.bytes.now self.now.q n) self.now.q) out.old s) self.now.q }
    {
        let mut v = [0u8; sizes::MOST_SIZE];
        self.values(n, &mut v);
        by_symbol(&v[..self.q], s, out);
    }

    // All d columns in place of their products.
    fn columns(&self, d: usize, r: &[u8], out: &mut [u8])
        requires { TurnRoom d self.now.q r.now out.old }
        ensures { out.new ≡ blocks (turned self.now.k self.now.bytes.now self.now.q r.now out.old) d }
    {
        // Cut by hand: of the chunks of a slice that is written only the length is known.
        for (n, &s) in r[..d].iter().enumerate() {
            let at = n * self.q;
            // `as`: n is below 32, and a conversion that can fail is no plainer.
            self.column(n as u8, s, &mut out[at..at + self.q]);
        }
    }
}

// The lists, in the part of the room that they take, and the columns from them.
fn in_room(d: usize, q: usize, k: usize, r: &[u8], t: &mut [u8], out: &mut [u8])
    requires k_bound { (k ≤ 3) × (((1 ≤ q) × (q ≤ most_size)) × (length r.now ≡ d + (1 + 2 * k) * (q - 1))) }
    requires most_size_in_bounds { (1 + 2 * k) * most_size ≤ length t.old }
    requires turn_room { TurnRoom d q r.now out.old }
    ensures lists { take ((1 + 2 * k) * q) t.new ≡ unpacked k d q r.now }
    ensures out_then { out.new ≡ blocks (turned k t.new q r.now out.old) d }
{
    let m = (1 + 2 * k) * q;
    unpack(r, d, q, k, &mut t[..m]);
    Lists { bytes: t, q, k }.columns(d, r, out);
}

/// The expansion, with the room that it takes: a group has at most three pairs. The products go straight into out, and each column is then
/// turned in place.
pub fn expand_in(first: u8, q: usize, weights: &[u8], r: &[u8], out: &mut [u8])
    requires expand_room { ExpandRoom (power_of first) (most_of first) weights.now r.now }
    requires q_le_most_size { (q ≤ most_size) × ((q ≡ size_of first) × (length out.old ≡ length weights.now * size_of first)) }
    ensures { out.new ≡ expansion (rule_for first) weights.now r.now }
{
    let rule = rules::rule_of(first);
    let mut t = [0u8; MOST_LISTS];
    field::rows(rule.p, weights, out);
    in_room(weights.len(), q, usize::from(rule.k), r, &mut t, out);
}
