//! Tables in slices joined. A function for each number of blocks, not one over an array of them: the blocks stay in registers.
ghost use Rattle.std.specs.Prelude.{◌≡◌, ◌%◌, ◌≤◌, length};
ghost use Rattle.trellis.specs.Lists.{tab};
ghost use Rattle.vjoin.specs.Lanes.{risen_at};
ghost use Rattle.vjoin.specs.Joins.{join_leaves};

use crate::lanes::take;
use crate::parts::{Pair, Quad, four, one, one_eight, one_four, one_twelve, two};
use std::simd::prelude::*;

// G is whether the lesser of two rests is left; a constant, so that no lane tests it. Four rows of u, then four more as long as there are some.
fn in_16<const G: bool>(q: usize, u: &[u8], w: &[u8], e: &mut [u8])
    requires q_value { ((q % 4 ≡ 0) × (4 ≤ q)) × (q ≤ 16) }
    requires u_len { (length u.now ≡ 16) × ((length w.now ≡ 16) × (length e.old ≡ 16)) }
    ensures { e.new ≡ tab (risen_at G q u.now w.now e.old) 16 }
{
    let x = take::<G>(u8x16::from_slice(u));
    let y = u8x16::from_slice(w);
    let z = u8x16::from_slice(e);
    match q {
        4 => one_four::<G>(x, y, z).copy_to_slice(e),
        8 => one_eight::<G>(x, y, z).copy_to_slice(e),
        12 => one_twelve::<G>(x, y, z).copy_to_slice(e),
        _ => one::<G>(x, y, z).copy_to_slice(e),
    }
}

fn in_32<const G: bool>(u: &[u8], w: &[u8], e: &mut [u8])
    requires { (length u.now ≡ 32) × ((length w.now ≡ 32) × (length e.old ≡ 32)) }
    ensures { e.new ≡ tab (risen_at G 32 u.now w.now e.old) 32 }
{
    let u0 = u8x16::from_slice(&u[0..]);
    let u1 = u8x16::from_slice(&u[16..]);
    let w0 = u8x16::from_slice(&w[0..]);
    let w1 = u8x16::from_slice(&w[16..]);
    let e0 = u8x16::from_slice(&e[0..]);
    let e1 = u8x16::from_slice(&e[16..]);
    let x = Pair {
        a: take::<G>(u0),
        b: take::<G>(u1),
    };
    let y = Pair { a: w0, b: w1 };
    let z = Pair { a: e0, b: e1 };
    let r = two::<G>(x, y, z);
    r.a.copy_to_slice(&mut e[0..]);
    r.b.copy_to_slice(&mut e[16..]);
}

fn in_64<const G: bool>(u: &[u8], w: &[u8], e: &mut [u8])
    requires { (length u.now ≡ 64) × ((length w.now ≡ 64) × (length e.old ≡ 64)) }
    ensures { e.new ≡ tab (risen_at G 64 u.now w.now e.old) 64 }
{
    let u0 = u8x16::from_slice(&u[0..]);
    let u1 = u8x16::from_slice(&u[16..]);
    let u2 = u8x16::from_slice(&u[32..]);
    let u3 = u8x16::from_slice(&u[48..]);
    let w0 = u8x16::from_slice(&w[0..]);
    let w1 = u8x16::from_slice(&w[16..]);
    let w2 = u8x16::from_slice(&w[32..]);
    let w3 = u8x16::from_slice(&w[48..]);
    let e0 = u8x16::from_slice(&e[0..]);
    let e1 = u8x16::from_slice(&e[16..]);
    let e2 = u8x16::from_slice(&e[32..]);
    let e3 = u8x16::from_slice(&e[48..]);
    let x = Quad {
        a: take::<G>(u0),
        b: take::<G>(u1),
        c: take::<G>(u2),
        d: take::<G>(u3),
    };
    let y = Quad {
        a: w0,
        b: w1,
        c: w2,
        d: w3,
    };
    let z = Quad {
        a: e0,
        b: e1,
        c: e2,
        d: e3,
    };
    let r = four::<G>(x, y, z);
    r.a.copy_to_slice(&mut e[0..]);
    r.b.copy_to_slice(&mut e[16..]);
    r.c.copy_to_slice(&mut e[32..]);
    r.d.copy_to_slice(&mut e[48..]);
}

// By the number of rows.
#[tactic(auto, unfolding(crate::specs::Joins::join_leaves, crate::specs::Joins::joinable))]
fn by_rows<const G: bool>(q: usize, u: &[u8], w: &[u8], e: &mut [u8])
    ensures { e.new ≡ join_leaves G q u.now w.now e.old }
{
    if u.len() != e.len() || w.len() != e.len() {
        return;
    }
    match e.len() {
        16 => {
            if q == 4 || q == 8 || q == 12 || q == 16 {
                in_16::<G>(q, u, w, e);
            }
        }
        32 => {
            if q == 32 {
                in_32::<G>(u, w, e);
            }
        }
        64 => {
            if q == 64 {
                in_64::<G>(u, w, e);
            }
        }
        _ => {}
    }
}

/// e: the best of e and q rows of u joined with w. The three have 16 rows, and q is 4, 8, 12 or 16; or q rows, 32 or 64. Nothing changes where
/// they have not.
// A bool, as the rule has it: a const parameter is no enum.
pub fn join(greatest: bool, q: usize, u: &[u8], w: &[u8], e: &mut [u8])
    ensures { e.new ≡ join_leaves greatest q u.now w.now e.old }
{
    if greatest {
        by_rows::<true>(q, u, w, e);
    } else {
        by_rows::<false>(q, u, w, e);
    }
}
