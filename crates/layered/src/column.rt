//! The columns of one update: Q of each column of a check from P and the old expansion, and P again from Q and the new expansion.
ghost use Rattle.std.specs.Prelude.{◌≡◌, map, ◌+◌, ◌-◌, ◌≤◌, ◌<◌, length};
ghost use Rattle.machine.specs.Machine.{scaled, incoming, outgoing};
ghost use Rattle.machine.specs.inner.InRange.{Below};
ghost use Rattle.layered.specs.inner.Columns.{least_raised, gathered, GatherRoom, least_summed, scattered, ScatterRoom};

// That the scale is at most 16 stands in each contract: a type that holds it would take more lines than the clauses.

// A cost less a scaled cost, 255 higher, so that it is not below 0.
fn raise(c: u16, s: u8, g: u16) -> u16
    requires { (c ≤ 510) × (g ≤ 16) }
    ensures { (result ≡ c + 255 - scaled g s) × (result ≤ 765) }
{
    let m = g * u16::from(s) / 16;
    c + 255 - m
}

#[tactic(auto, unfolding(crate::specs::inner::Columns::least_raised))]
fn least_raised(costs: &[u16], old: &[u8], g: u16) -> u16
    requires { (length old.now ≡ length costs.now) × (Below 510 costs.now × (g ≤ 16)) }
    ensures { result ≡ least_raised g costs.now old.now (length costs.now) }
{
    let mut least: u16 = 1000;
    for (&c, &s) in costs.iter().zip(old) {
        least = least.min(raise(c, s, g));
    }
    least
}

// Q of one column: "subtract the old record's scaled cost .., subtract the least over x, and cap at 255".
fn incoming_column(costs: &[u16], old: &[u8], g: u16, out: &mut [u8])
    requires { (length old.now
        ≡ length costs.now) × ((length out.old ≡ length costs.now)
        × (Below 510 costs.now × ((g ≤ 16) × (0 < length costs.now)))) }
    ensures { out.new ≡ incoming (length costs.now) costs.now (map (scaled g) old.now) }
{
    let least = least_raised(costs, old, g);
    // By index: of a zip over a slice that is written only the length is known.
    for (i, x) in out.iter_mut().enumerate() {
        let v = raise(costs[i], old[i], g);
        // By `as`: at most 255, and a conversion that can fail is no plainer.
        *x = (v - least).min(255) as u8;
    }
}

/// Q of every column of a check, end to end.
pub fn gather(costs: &[u16], cols: &[u16], old: &[u8], g: u16, q: usize, out: &mut [u8])
    requires { GatherRoom costs.now cols.now old.now g q out.old }
    ensures { out.new
        ≡ gathered costs.now cols.now old.now g q (length cols.now) out.old }
{
    // Cut by hand: of the chunks of a slice that is written only the length is known.
    for (k, &c) in cols.iter().enumerate() {
        let from = usize::from(c) * q;
        let at = k * q;
        incoming_column(
            &costs[from..from + q],
            &old[at..at + q],
            g,
            &mut out[at..at + q],
        );
    }
}

// Q plus a scaled cost. Two costs make more than a byte holds: the sum is formed in 32 bits, and 16 hold it, by `as`.
fn sum(c: u8, s: u8, g: u16) -> u16
    requires { g ≤ 16 }
    ensures { (result ≡ c + scaled g s) × (result ≤ 510) }
{
    let m = g * u16::from(s) / 16;
    (u32::from(c) + u32::from(m)) as u16
}

// Beside least_raised: a parameter for the sum would take more lines of contract than the loop has.
#[tactic(auto, unfolding(crate::specs::inner::Columns::least_summed))]
fn least_summed(qs: &[u8], new: &[u8], g: u16) -> u16
    requires { (length new.now ≡ length qs.now) × (g ≤ 16) }
    ensures { result ≡ least_summed g qs.now new.now (length qs.now) }
{
    let mut least: u16 = 1000;
    for (&c, &s) in qs.iter().zip(new) {
        least = least.min(sum(c, s, g));
    }
    least
}

// The new P of one column: "Q plus the scaled cost, less its least over x".
fn outgoing_column(qs: &[u8], new: &[u8], g: u16, costs: &mut [u16])
    requires { (length new.now ≡ length qs.now) × ((length costs.old ≡ length qs.now) × ((g ≤ 16) × (0 < length qs.now))) }
    ensures { costs.new ≡ outgoing (length qs.now) qs.now (map (scaled g) new.now) }
{
    let least = least_summed(qs, new, g);
    // By index: of a zip over a slice that is written only the length is known.
    for (i, x) in costs.iter_mut().enumerate() {
        *x = sum(qs[i], new[i], g) - least;
    }
}

/// The new P of every column of a check.
pub fn scatter(qs: &[u8], new: &[u8], cols: &[u16], g: u16, q: usize, costs: &mut [u16])
    requires { ScatterRoom qs.now new.now cols.now g q costs.old }
    ensures { costs.new
        ≡ scattered qs.now new.now cols.now g q (length cols.now) costs.old }
{
    // Cut by hand: a column of the costs stands where its number says.
    for (k, &c) in cols.iter().enumerate() {
        let to = usize::from(c) * q;
        let at = k * q;
        outgoing_column(&qs[at..at + q], &new[at..at + q], g, &mut costs[to..to + q]);
    }
}
