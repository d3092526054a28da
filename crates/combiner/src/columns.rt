//! The columns of two frames: the two costs of a symbol, their least over a column, the column, all columns.
ghost use Rattle.std.specs.Prelude.{◌≡◌, ◌+◌, ◌*◌, ◌≤◌, ◌<◌, length};
ghost use Rattle.machine.specs.Combining.{combined_column, combined_to};
ghost use Rattle.combiner.specs.inner.Columns.{least_both};

// "add the two costs": two costs make more than a byte holds.
fn both(a: u8, b: u8) -> u16
    ensures { (result ≡ a + b) × (result ≤ 510) }
{
    u16::from(a) + u16::from(b)
}

// Of two lists of bytes: layered's least is of costs beside scaled bytes, with another term.
#[tactic(auto, unfolding(crate::specs::inner::Columns::least_both))]
fn least(first: &[u8], second: &[u8]) -> u16
    requires { length second.now ≡ length first.now }
    ensures { result ≡ least_both first.now second.now (length first.now) }
{
    let mut least = 1000u16;
    for (&a, &b) in first.iter().zip(second) {
        least = least.min(both(a, b));
    }
    least
}

// One column: "add the two costs, subtract the column's least, cap at 255".
fn combine_column(first: &[u8], second: &[u8], out: &mut [u8])
    requires { (length second.now ≡ length first.now) × ((length out.old ≡ length first.now) × (0 < length first.now)) }
    ensures { out.new ≡ combined_column (length first.now) first.now second.now }
{
    let low = least(first, second);
    // By index: of a zip over a slice that is written only the length is known.
    for (i, x) in out.iter_mut().enumerate() {
        // By as: at most 255.
        *x = (both(first[i], second[i]) - low).min(255) as u8;
    }
}

/// Every column of two frames of n times q costs.
pub fn combine_all(first: &[u8], second: &[u8], q: usize, n: usize, out: &mut [u8])
    requires { (length first.now ≡ n * q) × ((length second.now ≡ n * q) × ((length out.old ≡ n * q) × (0 < q))) }
    ensures { out.new ≡ combined_to q first.now second.now n }
{
    // Cut by hand: of the chunks of a slice that is written only the length is known.
    for c in 0..n {
        let at = c * q;
        combine_column(
            &first[at..at + q],
            &second[at..at + q],
            &mut out[at..at + q],
        );
    }
}
