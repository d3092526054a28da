//! The field's arithmetic: q, doubling, the product by its recurrence. No function here calls itself. p is a plain number, not a type with its
//! bounds: each function computes with it.
ghost use Rattle.std.specs.Prelude.{◌≡◌, ◌≤◌, ◌<◌, ◌^◌};
ghost use Rattle.trellis.specs.Field.{polynomial, doubled, product};
ghost use Rattle.trellis.specs.Sizes.{most_size};

/// q = 2 ^ p.
pub fn size(p: u8) -> u8
    requires { (2 ≤ p) × (p ≤ 6) }
    ensures { (result ≡ 2 ^ p) × ((4 ≤ result) × (result ≤ most_size)) }
{
    // In a byte, as weights are compared with it; the size in rules is that of a first byte.
    1u8 << p
}

// The polynomial by which products are reduced.
fn reducer(p: u8) -> u8
    requires { (2 ≤ p) × (p ≤ 6) }
    ensures { result ≡ polynomial p }
{
    match p {
        2 => 0x07,
        3 => 0x0B,
        4 => 0x13,
        5 => 0x25,
        _ => 0x43,
    }
}

/// "doubled by a shift and reduced by the polynomial": where the top bit, bit p, is set.
pub fn double(p: u8, a: u8) -> u8
    requires { (2 ≤ p) × ((p ≤ 6) × (a < 2 ^ p)) }
    ensures { (result ≡ doubled p a) × (result < 2 ^ p) }
{
    let s = a << 1;
    let r = reducer(p);
    if (s >> p) % 2 == 1 { s ^ r } else { s }
}

/// "The product follows its own recurrence, halving the second factor each time", as a loop: each turn adds the first factor where the
/// dropped bit is one, and doubles it for the next.
pub fn times(p: u8, a: u8, b: u8) -> u8
    requires { (2 ≤ p) × ((p ≤ 6) × ((a < 2 ^ p) × (b < 2 ^ p))) }
    ensures { result ≡ product p a b }
{
    let mut sum: u8 = 0;
    let mut factor = a;
    let mut left = b;
    while left != 0 {
        if left % 2 == 1 {
            sum ^= factor;
        }
        factor = double(p, factor);
        left /= 2;
    }
    sum
}
