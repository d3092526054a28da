//! Blocks of sixteen rows joined: four rows of x at a time, then all sixteen. Of each turn the copies of all blocks are made before any block takes
//! it, so that the vectors stay in registers. One, two and four blocks apart, and each by name, not an array of N blocks: an array is kept in memory.
ghost use Rattle.std.specs.Prelude.{◌≡◌, max, get_or};
ghost use Rattle.vjoin.specs.Lanes.{cell, cell2, cell4, best_to, lanes, cut};

use crate::lanes::{
    best, flip1, flip2, flip3, flip4, flip8, flip12, lane0, lane1, lane2, lane3, turn4, turn8,
    turn12,
};
use std::simd::prelude::*;

// `one_four`: the first four rows of x; `one_eight` and `one_twelve` four more each; `one` all sixteen.
#[inline(always)]
pub fn one_four<const G: bool>(x: u8x16, w: u8x16, e: u8x16) -> u8x16
    ensures { result ≡ best_to (cell G w x) e 4 }
{
    let a = best::<G>(e, w, lane0(x));
    let b = best::<G>(a, flip1(w), lane1(x));
    let c = best::<G>(b, flip2(w), lane2(x));
    best::<G>(c, flip3(w), lane3(x))
}

#[inline(always)]
pub fn one_eight<const G: bool>(x: u8x16, w: u8x16, e: u8x16) -> u8x16
    ensures { result ≡ best_to (cell G w x) e 8 }
{
    let a = one_four::<G>(x, w, e);
    one_four::<G>(turn4(x), flip4(w), a)
}

#[inline(always)]
pub fn one_twelve<const G: bool>(x: u8x16, w: u8x16, e: u8x16) -> u8x16
    ensures { result ≡ best_to (cell G w x) e 12 }
{
    let a = one_eight::<G>(x, w, e);
    one_four::<G>(turn8(x), flip8(w), a)
}

#[inline(always)]
pub fn one<const G: bool>(x: u8x16, w: u8x16, e: u8x16) -> u8x16
    ensures { result ≡ best_to (cell G w x) e 16 }
{
    let a = one_twelve::<G>(x, w, e);
    one_four::<G>(turn12(x), flip12(w), a)
}

// Two blocks: of what both rows leave, the better.
#[inline(always)]
fn row2<const G: bool>(e: u8x16, p: u8x16, x: u8x16, r: u8x16, y: u8x16) -> u8x16
    ensures { result ≡ lanes (λ i. max (get_or e i 0) (max (cut G (get_or p i 0) (get_or x i 0)) (cut G (get_or r i 0) (get_or y i 0)))) }
{
    best::<G>(best::<G>(e, p, x), r, y)
}

/// Two blocks of rows.
#[derive(Clone, Copy, Debug, PartialEq, Eq)]
pub struct Pair {
    pub a: u8x16,
    pub b: u8x16,
}

#[inline(always)]
pub fn two_four<const G: bool>(x: Pair, w: Pair, e: Pair) -> Pair
    ensures a_then { result.a ≡ best_to (cell2 G w.a x.a w.b x.b) e.a 4 }
    ensures b_then { result.b ≡ best_to (cell2 G w.b x.a w.a x.b) e.b 4 }
{
    let x00 = lane0(x.a);
    let x01 = lane0(x.b);
    let e00 = row2::<G>(e.a, w.a, x00, w.b, x01);
    let e01 = row2::<G>(e.b, w.b, x00, w.a, x01);
    let p10 = flip1(w.a);
    let p11 = flip1(w.b);
    let x10 = lane1(x.a);
    let x11 = lane1(x.b);
    let e10 = row2::<G>(e00, p10, x10, p11, x11);
    let e11 = row2::<G>(e01, p11, x10, p10, x11);
    let p20 = flip2(w.a);
    let p21 = flip2(w.b);
    let x20 = lane2(x.a);
    let x21 = lane2(x.b);
    let e20 = row2::<G>(e10, p20, x20, p21, x21);
    let e21 = row2::<G>(e11, p21, x20, p20, x21);
    let p30 = flip3(w.a);
    let p31 = flip3(w.b);
    let x30 = lane3(x.a);
    let x31 = lane3(x.b);
    let e30 = row2::<G>(e20, p30, x30, p31, x31);
    let e31 = row2::<G>(e21, p31, x30, p30, x31);
    Pair { a: e30, b: e31 }
}

#[inline(always)]
pub fn two<const G: bool>(x: Pair, w: Pair, e: Pair) -> Pair
    ensures a_then { result.a ≡ best_to (cell2 G w.a x.a w.b x.b) e.a 16 }
    ensures b_then { result.b ≡ best_to (cell2 G w.b x.a w.a x.b) e.b 16 }
{
    let f = two_four::<G>(x, w, e);
    let x4 = Pair {
        a: turn4(x.a),
        b: turn4(x.b),
    };
    let w4 = Pair {
        a: flip4(w.a),
        b: flip4(w.b),
    };
    let g = two_four::<G>(x4, w4, f);
    let x8 = Pair {
        a: turn8(x.a),
        b: turn8(x.b),
    };
    let w8 = Pair {
        a: flip8(w.a),
        b: flip8(w.b),
    };
    let h = two_four::<G>(x8, w8, g);
    let x12 = Pair {
        a: turn12(x.a),
        b: turn12(x.b),
    };
    let w12 = Pair {
        a: flip12(w.a),
        b: flip12(w.b),
    };
    two_four::<G>(x12, w12, h)
}

// Four blocks: of what four rows leave, the best. Nine by value: in registers.
#[inline(always)]
fn row4<const G: bool>(
    e: u8x16,
    p: u8x16,
    x: u8x16,
    r: u8x16,
    y: u8x16,
    s: u8x16,
    z: u8x16,
    t: u8x16,
    v: u8x16,
) -> u8x16
    ensures { result ≡ lanes (λ i. max (get_or e i 0) (max (max (cut G (get_or p i 0) (get_or x i 0)) (cut G (get_or r i 0) (get_or y i 0))) (max (cut G (get_or s i 0) (get_or z i 0)) (cut G (get_or t i 0) (get_or v i 0))))) }
{
    row2::<G>(row2::<G>(e, p, x, r, y), s, z, t, v)
}

/// Four blocks of rows.
#[derive(Clone, Copy, Debug, PartialEq, Eq)]
pub struct Quad {
    pub a: u8x16,
    pub b: u8x16,
    pub c: u8x16,
    pub d: u8x16,
}

#[inline(always)]
pub fn four_four<const G: bool>(x: Quad, w: Quad, e: Quad) -> Quad
    ensures a_then { result.a ≡ best_to (cell4 G w.a x.a w.b x.b w.c x.c w.d x.d) e.a 4 }
    ensures b_then { result.b ≡ best_to (cell4 G w.b x.a w.a x.b w.d x.c w.c x.d) e.b 4 }
    ensures c_then { result.c ≡ best_to (cell4 G w.c x.a w.d x.b w.a x.c w.b x.d) e.c 4 }
    ensures d_then { result.d ≡ best_to (cell4 G w.d x.a w.c x.b w.b x.c w.a x.d) e.d 4 }
{
    let x00 = lane0(x.a);
    let x01 = lane0(x.b);
    let x02 = lane0(x.c);
    let x03 = lane0(x.d);
    let e00 = row4::<G>(e.a, w.a, x00, w.b, x01, w.c, x02, w.d, x03);
    let e01 = row4::<G>(e.b, w.b, x00, w.a, x01, w.d, x02, w.c, x03);
    let e02 = row4::<G>(e.c, w.c, x00, w.d, x01, w.a, x02, w.b, x03);
    let e03 = row4::<G>(e.d, w.d, x00, w.c, x01, w.b, x02, w.a, x03);
    let p10 = flip1(w.a);
    let p11 = flip1(w.b);
    let p12 = flip1(w.c);
    let p13 = flip1(w.d);
    let x10 = lane1(x.a);
    let x11 = lane1(x.b);
    let x12 = lane1(x.c);
    let x13 = lane1(x.d);
    let e10 = row4::<G>(e00, p10, x10, p11, x11, p12, x12, p13, x13);
    let e11 = row4::<G>(e01, p11, x10, p10, x11, p13, x12, p12, x13);
    let e12 = row4::<G>(e02, p12, x10, p13, x11, p10, x12, p11, x13);
    let e13 = row4::<G>(e03, p13, x10, p12, x11, p11, x12, p10, x13);
    let p20 = flip2(w.a);
    let p21 = flip2(w.b);
    let p22 = flip2(w.c);
    let p23 = flip2(w.d);
    let x20 = lane2(x.a);
    let x21 = lane2(x.b);
    let x22 = lane2(x.c);
    let x23 = lane2(x.d);
    let e20 = row4::<G>(e10, p20, x20, p21, x21, p22, x22, p23, x23);
    let e21 = row4::<G>(e11, p21, x20, p20, x21, p23, x22, p22, x23);
    let e22 = row4::<G>(e12, p22, x20, p23, x21, p20, x22, p21, x23);
    let e23 = row4::<G>(e13, p23, x20, p22, x21, p21, x22, p20, x23);
    let p30 = flip3(w.a);
    let p31 = flip3(w.b);
    let p32 = flip3(w.c);
    let p33 = flip3(w.d);
    let x30 = lane3(x.a);
    let x31 = lane3(x.b);
    let x32 = lane3(x.c);
    let x33 = lane3(x.d);
    let e30 = row4::<G>(e20, p30, x30, p31, x31, p32, x32, p33, x33);
    let e31 = row4::<G>(e21, p31, x30, p30, x31, p33, x32, p32, x33);
    let e32 = row4::<G>(e22, p32, x30, p33, x31, p30, x32, p31, x33);
    let e33 = row4::<G>(e23, p33, x30, p32, x31, p31, x32, p30, x33);
    Quad {
        a: e30,
        b: e31,
        c: e32,
        d: e33,
    }
}

#[inline(always)]
pub fn four<const G: bool>(x: Quad, w: Quad, e: Quad) -> Quad
    ensures a_then { result.a ≡ best_to (cell4 G w.a x.a w.b x.b w.c x.c w.d x.d) e.a 16 }
    ensures b_then { result.b ≡ best_to (cell4 G w.b x.a w.a x.b w.d x.c w.c x.d) e.b 16 }
    ensures c_then { result.c ≡ best_to (cell4 G w.c x.a w.d x.b w.a x.c w.b x.d) e.c 16 }
    ensures d_then { result.d ≡ best_to (cell4 G w.d x.a w.c x.b w.b x.c w.a x.d) e.d 16 }
{
    let f = four_four::<G>(x, w, e);
    let x4 = Quad {
        a: turn4(x.a),
        b: turn4(x.b),
        c: turn4(x.c),
        d: turn4(x.d),
    };
    let w4 = Quad {
        a: flip4(w.a),
        b: flip4(w.b),
        c: flip4(w.c),
        d: flip4(w.d),
    };
    let g = four_four::<G>(x4, w4, f);
    let x8 = Quad {
        a: turn8(x.a),
        b: turn8(x.b),
        c: turn8(x.c),
        d: turn8(x.d),
    };
    let w8 = Quad {
        a: flip8(w.a),
        b: flip8(w.b),
        c: flip8(w.c),
        d: flip8(w.d),
    };
    let h = four_four::<G>(x8, w8, g);
    let x12 = Quad {
        a: turn12(x.a),
        b: turn12(x.b),
        c: turn12(x.c),
        d: turn12(x.d),
    };
    let w12 = Quad {
        a: flip12(w.a),
        b: flip12(w.b),
        c: flip12(w.c),
        d: flip12(w.d),
    };
    four_four::<G>(x12, w12, h)
}
