//! The products of weights with every symbol, and whether there is room for them.
ghost use Rattle.std.specs.Prelude.{◌≡◌, cond, [], ◌∷◌, ◌*◌, ◌%◌, ◌^◌, ◌≤◌, eqb, length};
ghost use Rattle.trellis.specs.Lists.{tab, blocks};
ghost use Rattle.trellis.specs.Field.{xor, product};
ghost use Rattle.engine.specs.inner.Terms.{bits_of};
ghost use Rattle.field.specs.Answers.{row_of, elements_ok, rows_fit};
ghost use Rattle.field.specs.inner.Asks.{Factor, Factors};

use crate::{field, table};

// "it is added where the dropped bit was one".
fn added(a: u8, x: u8) -> u8
    ensures { result ≡ cond (eqb (x % 2) 1) a 0 }
{
    if x % 2 == 1 { a } else { 0 }
}

// The terms of the six bits of x, lowest first, added. Six by value: an array of them would only be taken apart again.
fn of_bits(a: u8, b: u8, c: u8, d: u8, e: u8, f: u8, x: u8) -> u8
    ensures { result ≡ bits_of (a ∷ b ∷ c ∷ d ∷ e ∷ f ∷ []) x }
{
    let high = added(d, x / 8) ^ (added(e, x / 16) ^ added(f, x / 32));
    added(a, x) ^ (added(b, x / 2) ^ (added(c, x / 4) ^ high))
}

// Each product from the bits of its symbol. No product is read to make another, so the loop has nothing to wait for.
fn by_bits(p: u8, h: u8, row: &mut [u8])
    requires factor { Factor p h }
    requires row_len { length row.old ≡ 2 ^ p }
    ensures { row.new ≡ tab (product p h) (2 ^ p) }
{
    let b = field::double(p, h);
    let c = field::double(p, b);
    let d = field::double(p, c);
    let e = field::double(p, d);
    let f = field::double(p, e);
    for (x, product) in row.iter_mut().enumerate() {
        // By as: x is below 64, and a conversion that can fail is no plainer.
        *product = of_bits(h, b, c, d, e, f, x as u8);
    }
}

// The products of x to x + 3 from that of x, a multiple of four: the two lowest bits add h and b, which is h doubled.
#[tactic(auto, unfolding(trellis::specs::Field::xor))]
fn put_four(base: u8, h: u8, b: u8, row: &mut [u8])
    requires { length row.old ≡ 4 }
    ensures { row.new ≡ base ∷ xor base h ∷ xor base b ∷ xor base (xor h b) ∷ [] }
{
    row[0] = base;
    row[1] = base ^ h;
    row[2] = base ^ b;
    row[3] = base ^ (h ^ b);
}

// A row of four or eight products, without a step for each bit of each symbol. The second four begins with the product of 4.
fn by_fours(p: u8, h: u8, row: &mut [u8])
    requires factor { Factor p h }
    requires row_len { (length row.old ≡ 2 ^ p) × (length row.old ≤ 8) }
    ensures { row.new ≡ tab (product p h) (2 ^ p) }
{
    let b = field::double(p, h);
    // c beside b, used or not: in the branch it takes longer.
    let c = field::double(p, b);
    put_four(0, h, b, &mut row[..4]);
    if row.len() == 8 {
        put_four(c, h, b, &mut row[4..]);
    }
}

// A short row by fours, any other from the bits.
fn row(p: u8, h: u8, row: &mut [u8])
    requires factor { Factor p h }
    requires row_len { length row.old ≡ 2 ^ p }
    ensures { row.new ≡ tab (product p h) (2 ^ p) }
{
    if row.len() <= 8 {
        by_fours(p, h, row);
    } else {
        by_bits(p, h, row);
    }
}

// The rows of all weights, q products each, worked out one by one. Beside the rows taken from the table, where q is a constant.
fn each_row(p: u8, q: usize, weights: &[u8], out: &mut [u8])
    requires factors { Factors p weights.now }
    requires q_value { (q ≡ 2 ^ p) × (length out.old ≡ length weights.now * 2 ^ p) }
    ensures { out.new ≡ blocks (row_of p weights.now) (length weights.now) }
{
    // Cut by hand: of the chunks of a slice that is written only the length is known.
    for (n, &h) in weights.iter().enumerate() {
        let at = n * q;
        row(p, h, &mut out[at..at + q]);
    }
}

// The rows from the table. Apart from its caller, which would clear the table's room for every p.
#[inline(never)]
fn from_table(weights: &[u8], out: &mut [u8])
    requires factors { Factors 6 weights.now }
    requires out_len { length out.old ≡ length weights.now * 64 }
    ensures { out.new ≡ blocks (row_of 6 weights.now) (length weights.now) }
{
    table::rows_from(&table::products(), weights, out);
}

/// From the table where it is taken, else each row by itself.
pub fn fill(p: u8, weights: &[u8], out: &mut [u8])
    requires factors { Factors p weights.now }
    requires out_len { length out.old ≡ length weights.now * 2 ^ p }
    ensures { out.new ≡ blocks (row_of p weights.now) (length weights.now) }
{
    if table::taken(p, weights.len()) {
        from_table(weights, out);
    } else {
        each_row(p, usize::from(field::size(p)), weights, out);
    }
}

// Whether every weight is an element. No test ends the loop: it is then taken for many weights at a time.
fn elements_ok(q: u8, weights: &[u8]) -> bool
    ensures { result ≡ elements_ok q weights.now }
{
    let mut ok = true;
    for &h in weights {
        ok &= h < q;
    }
    ok
}

/// Whether p and the weights are in range, and their products have `room` bytes.
#[tactic(auto, unfolding(crate::specs::Answers::rows_fit))]
pub fn rows_fit(p: u8, weights: &[u8], room: usize) -> bool
    ensures { result ≡ rows_fit p weights.now room }
{
    (2..=6).contains(&p)
        && weights.len() <= sizes::MOST_DEGREE
        && room == weights.len() * usize::from(field::size(p))
        && elements_ok(field::size(p), weights)
}
