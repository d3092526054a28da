//! Sixteen rows in a vector. `flip` j puts each row x at x + j, without carries; `turn` j the rows from j on before the others; `lane` j row j in each
//! place. A function for each j: the places that a swizzle picks stand as literals.
ghost use Rattle.std.specs.Prelude.{◌≡◌, ◌-◌, min, max, get_or};
ghost use Rattle.vjoin.specs.Lanes.{cut, taken, lanes, flipped, rotated};

use std::simd::prelude::*;

#[inline(always)]
pub fn flip1(w: u8x16) -> u8x16
    ensures { result ≡ flipped 1 w }
{
    w.swizzle([1, 0, 3, 2, 5, 4, 7, 6, 9, 8, 11, 10, 13, 12, 15, 14])
}

#[inline(always)]
pub fn flip2(w: u8x16) -> u8x16
    ensures { result ≡ flipped 2 w }
{
    w.swizzle([2, 3, 0, 1, 6, 7, 4, 5, 10, 11, 8, 9, 14, 15, 12, 13])
}

#[inline(always)]
pub fn flip3(w: u8x16) -> u8x16
    ensures { result ≡ flipped 3 w }
{
    w.swizzle([3, 2, 1, 0, 7, 6, 5, 4, 11, 10, 9, 8, 15, 14, 13, 12])
}

#[inline(always)]
pub fn flip4(w: u8x16) -> u8x16
    ensures { result ≡ flipped 4 w }
{
    w.swizzle([4, 5, 6, 7, 0, 1, 2, 3, 12, 13, 14, 15, 8, 9, 10, 11])
}

#[inline(always)]
pub fn flip8(w: u8x16) -> u8x16
    ensures { result ≡ flipped 8 w }
{
    w.swizzle([8, 9, 10, 11, 12, 13, 14, 15, 0, 1, 2, 3, 4, 5, 6, 7])
}

#[inline(always)]
pub fn flip12(w: u8x16) -> u8x16
    ensures { result ≡ flipped 12 w }
{
    w.swizzle([12, 13, 14, 15, 8, 9, 10, 11, 4, 5, 6, 7, 0, 1, 2, 3])
}

#[inline(always)]
pub fn turn4(x: u8x16) -> u8x16
    ensures { result ≡ rotated 4 x }
{
    x.swizzle([4, 5, 6, 7, 8, 9, 10, 11, 12, 13, 14, 15, 0, 1, 2, 3])
}

#[inline(always)]
pub fn turn8(x: u8x16) -> u8x16
    ensures { result ≡ rotated 8 x }
{
    x.swizzle([8, 9, 10, 11, 12, 13, 14, 15, 0, 1, 2, 3, 4, 5, 6, 7])
}

#[inline(always)]
pub fn turn12(x: u8x16) -> u8x16
    ensures { result ≡ rotated 12 x }
{
    x.swizzle([12, 13, 14, 15, 0, 1, 2, 3, 4, 5, 6, 7, 8, 9, 10, 11])
}

#[inline(always)]
pub fn lane0(x: u8x16) -> u8x16
    ensures { result ≡ lanes (λ _. get_or x 0 0) }
{
    x.swizzle([0, 0, 0, 0, 0, 0, 0, 0, 0, 0, 0, 0, 0, 0, 0, 0])
}

#[inline(always)]
pub fn lane1(x: u8x16) -> u8x16
    ensures { result ≡ lanes (λ _. get_or x 1 0) }
{
    x.swizzle([1, 1, 1, 1, 1, 1, 1, 1, 1, 1, 1, 1, 1, 1, 1, 1])
}

#[inline(always)]
pub fn lane2(x: u8x16) -> u8x16
    ensures { result ≡ lanes (λ _. get_or x 2 0) }
{
    x.swizzle([2, 2, 2, 2, 2, 2, 2, 2, 2, 2, 2, 2, 2, 2, 2, 2])
}

#[inline(always)]
pub fn lane3(x: u8x16) -> u8x16
    ensures { result ≡ lanes (λ _. get_or x 3 0) }
{
    x.swizzle([3, 3, 3, 3, 3, 3, 3, 3, 3, 3, 3, 3, 3, 3, 3, 3])
}

/// The better of e and x.
#[inline(always)]
pub fn better(e: u8x16, x: u8x16) -> u8x16
    ensures { result ≡ lanes (λ i. max (get_or e i 0) (get_or x i 0)) }
{
    e.simd_max(x)
}

// The better of e and the lesser of p and x. This and the next in functions of their own, so that `best` has one clause in both cases.
#[inline(always)]
fn best_low(e: u8x16, p: u8x16, x: u8x16) -> u8x16
    ensures { result ≡ lanes (λ i. max (get_or e i 0) (min (get_or p i 0) (get_or x i 0))) }
{
    e.simd_max(p.simd_min(x))
}

// The better of e and p less x.
#[inline(always)]
fn best_left(e: u8x16, p: u8x16, x: u8x16) -> u8x16
    ensures { result ≡ lanes (λ i. max (get_or e i 0) (get_or p i 0 - get_or x i 0)) }
{
    e.simd_max(p.saturating_sub(x))
}

/// The better of e and what is left of p where x is taken.
#[inline(always)]
pub fn best<const G: bool>(e: u8x16, p: u8x16, x: u8x16) -> u8x16
    ensures { result ≡ lanes (λ i. max (get_or e i 0) (cut G (get_or p i 0) (get_or x i 0))) }
{
    if G {
        return best_low(e, p, x);
    }
    best_left(e, p, x)
}

// What a rest costs.
#[inline(always)]
fn cost(u: u8x16) -> u8x16
    ensures { result ≡ lanes (λ i. 255 - get_or u i 0) }
{
    u8x16::splat(255).saturating_sub(u)
}

// In a function of its own, so that `take` has one clause in both cases.
#[inline(always)]
fn itself(u: u8x16) -> u8x16
    ensures { result ≡ lanes (λ i. get_or u i 0) }
{
    u
}

/// Rests as they are taken from others: their costs, or themselves where the lesser of two is left.
#[inline(always)]
pub fn take<const G: bool>(u: u8x16) -> u8x16
    ensures { result ≡ lanes (λ i. taken G (get_or u i 0)) }
{
    if G {
        return itself(u);
    }
    cost(u)
}
