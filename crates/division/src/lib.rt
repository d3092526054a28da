//! Division in the field: a product with the inverse, which is read from a table. `times` and `divide` are total, so that every crate above
//! can call them with what it has.
#![tactic(auto)]

ghost use Rattle.std.specs.Prelude.{◌≡◌, ◌^◌, ◌≤◌, ◌<◌, T};
ghost use Rattle.trellis.specs.Field.{product};
ghost use Rattle.trellis.specs.Sizes.{most_size};
ghost use Rattle.field.specs.Answers.{product_reply};
ghost use Rattle.division.specs.inner.Table.{all_inverted};
ghost use Rattle.division.specs.Numbers.{divisor_ok, quotient_or, DivisorRoom};

// The inverse of h in the field of q elements stands at q + h; 0 has none, and its place is not read.
const INVERSES: [u8; 128] = [
    // no field
    0, 0, 0, 0,
    // q = 4
    0, 1, 3, 2,
    // q = 8
    0, 1, 5, 6, 7, 2, 3, 4,
    // q = 16
    0, 1, 9, 14, 13, 11, 7, 6, 15, 2, 12, 5, 10, 4, 3, 8,
    // q = 32
    0, 1, 18, 28, 9, 23, 14, 12, 22, 4, 25, 16, 7, 15, 6, 13, 11, 24, 2, 29, 30, 26, 8, 5, 17, 10,
    21, 31, 3, 19, 20, 27,
    // q = 64
    0, 1, 33, 62, 49, 43, 31, 44, 57, 37, 52, 28, 46, 40, 22, 25, 61, 54, 51, 39, 26, 35, 14, 24,
    23, 15, 20, 34, 11, 53, 45, 6, 63, 2, 27, 21, 56, 9, 50, 19, 13, 47, 48, 5, 7, 30, 12, 41, 42,
    4, 38, 18, 10, 29, 17, 60, 36, 8, 59, 58, 55, 16, 3, 32, // of 63
];

// The whole table: a constant is copied to the stack where it is indexed.
fn inverses() -> [u8; 128]
    ensures { T (all_inverted result) }
{
    INVERSES
}

// q = 2^p. Here too: one shift, for which no crate below has a public function.
fn size(p: u8) -> usize
    requires { p ≤ 6 }
    ensures { (result ≡ 2 ^ p) × (result ≤ most_size) }
{
    1usize << p
}

// Whether p is one of the five fields' and h an element other than 0.
#[tactic(auto, unfolding(crate::specs::Numbers::divisor_ok))]
fn divisor_ok(p: u8, h: u8) -> bool
    ensures { result ≡ divisor_ok p h }
{
    (2..=6).contains(&p) && h != 0 && usize::from(h) < size(p)
}

// The element that times h is 1.
fn inverse(p: u8, h: u8) -> u8
    requires { DivisorRoom p h }
    ensures { (result < 2 ^ p) × (product p h result ≡ 1) }
{
    let table = inverses();
    table[size(p) + usize::from(h)]
}

/// A product; 0 where the public product refuses it.
pub fn times(p: u8, a: u8, b: u8) -> u8
    ensures { result ≡ (product_reply p a b).value }
{
    field::product(p, a, b).unwrap_or(0)
}

/// s divided by h: the element that times h is s; 0 where p is no field's, h is 0 or no element, or s is no element.
pub fn divide(p: u8, h: u8, s: u8) -> u8
    ensures { result ≡ quotient_or p h s }
{
    if !divisor_ok(p, h) {
        return 0;
    }
    times(p, inverse(p, h), s)
}
