//! The sweeps before and after a column, joined. Which join is a bool, as the rule has it.
ghost use Rattle.std.specs.Prelude.{◌≡◌, ◌+◌, ◌*◌, ◌≤◌, ◌<◌, length};
ghost use Rattle.trellis.specs.Lists.{tab};
ghost use Rattle.trellis.specs.Field.{xor};
ghost use Rattle.sweep.specs.inner.Cells.{Sums};
ghost use Rattle.sweep.specs.inner.Joins.{across_at, beside_at, join_at, ByteCostsRoom, columns_sent, JoinRoom};

use crate::cells;

// The costs f of one count before the column with the costs g of one count after it: their sums make t.
fn across(f: &[u16], g: &[u16], t: usize, greatest: bool) -> u32
    requires sums { Sums (length f.now) }
    requires g_len { (length g.now ≡ length f.now) × (t < length f.now) }
    ensures { (result ≡ across_at greatest f.now g.now t) × (result ≤ 1024) }
{
    let mut e = 1024u32;
    for (s, &cost) in f.iter().enumerate() {
        e = e.min(cells::join_of(greatest, cost, g[s ^ t]));
    }
    e
}

// One count before with the n least counts after.
fn beside(f: &[u16], after: &[u16], q: usize, n: usize, t: usize, greatest: bool) -> u32
    requires sums { Sums (length f.now) }
    requires f_len { (length f.now ≡ q) × ((t < q) × (n * q ≤ length after.now)) }
    ensures { (result ≡ beside_at greatest q f.now after.now n t) × (result ≤ 1024) }
{
    let mut e = 1024u32;
    // Cut by hand: the n counts would be cut off first, and then into counts.
    for j in 0..n {
        let a = j * q;
        e = e.min(across(f, &after[a..a + q], t, greatest));
    }
    e
}

// The cells over the columns before a column and after it, each k + 1 counts of q sums.
#[derive(Clone, Copy, Debug, PartialEq, Eq)]
struct Sides<'a> {
    before: &'a [u16],
    after: &'a [u16],
    q: usize,
    k: usize,
    greatest: bool,
    ghost sums: { Sums q },
    ghost few: { k ≤ 3 },
    ghost full: { (length before.now ≡ (k + 1) * q) × (length after.now ≡ (k + 1) * q) },
}

// All counts that are k or less together.
fn join_at(sides: &Sides<'_>, t: usize) -> u32
    requires { t < sides.now.q }
    ensures { (result ≡ join_at sides.now.greatest sides.now.q sides.now.k sides.now.before.now sides.now.after.now t) × (result ≤ 1024) }
{
    let q = sides.q;
    let k = sides.k;
    let mut e = 1024u32;
    // By number, which says how many counts after may join. To k + 1: of ..=k the last turn is an end of its own, which takes a second proof.
    for i in 0..k + 1 {
        let a = i * q;
        e = e.min(beside(
            &sides.before[a..a + q],
            sides.after,
            q,
            k - i + 1,
            t,
            sides.greatest,
        ));
    }
    e
}

// The costs sent to a column whose shift is s, for each a: S(a), a byte each.
fn sent_row(sides: &Sides<'_>, s: usize, out: &mut [u8])
    requires s_lt_q { (s < sides.now.q) × (length out.old ≡ sides.now.q) }
    requires byte_costs_room { ByteCostsRoom sides.now.greatest sides.now.q sides.now.k sides.now.before.now sides.now.after.now s }
    ensures { out.new ≡ tab (λ a. join_at sides.now.greatest sides.now.q sides.now.k sides.now.before.now sides.now.after.now (xor a s)) sides.now.q }
{
    for (a, cost) in out.iter_mut().enumerate() {
        // `as`: a cost that is sent is a byte, says `byte_costs_room`, and a conversion that can fail is no plainer.
        *cost = join_at(sides, a ^ s) as u8;
    }
}

/// "joins the two sweeps for column n", for each n: the costs sent to it. One by one: Sides has the cells of one column, these are of all.
pub fn sent_all(
    before: &[u16],
    after: &[u16],
    shifts: &[u8],
    q: usize,
    k: usize,
    greatest: bool,
    out: &mut [u8],
)
    requires { JoinRoom greatest q k before.now after.now shifts.now out.old }
    ensures { out.new ≡ columns_sent greatest q k before.now after.now shifts.now }
{
    let w = (k + 1) * q;
    let d = shifts.len();
    // Cut by hand: of the chunks of a slice that is written only the length is known.
    for (n, &s) in shifts.iter().enumerate() {
        let a = n * w;
        let b = (d - 1 - n) * w;
        let x = n * q;
        let sides = Sides {
            before: &before[a..a + w],
            after: &after[b..b + w],
            q,
            k,
            greatest,
        };
        sent_row(&sides, usize::from(s), &mut out[x..x + q]);
    }
}
