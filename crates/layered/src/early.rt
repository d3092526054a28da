//! Stopping inside an iteration: the checks are updated one after the other, and after each update its columns are decided again and the
//! test is made where a symbol changed, from a check on that was not satisfied at the last test.
ghost use Rattle.std.specs.Prelude.{◌≡◌, true, false, ◌+◌, ◌*◌, ◌≤◌, ◌<◌, length, set};
ghost use Rattle.trellis.specs.Check.{decide as decide_of};
ghost use Rattle.trellis.specs.Sizes.{most_size};
ghost use Rattle.machine.specs.CodeLine.{column_of};
ghost use Rattle.machine.specs.Machine.{symbols as symbols_of};
ghost use Rattle.machine.specs.inner.LentEarly.{stop_lent};
ghost use Rattle.layered.specs.inner.Buffers.{held_lent, RunIn, SameLoans, SameScratch};
ghost use Rattle.codeline.specs.Codes.{lent_code};
ghost use Rattle.layered.specs.inner.Parity.{ParityRoom, FromTo, SomeNot};
ghost use Rattle.layered.specs.inner.Iterations.{ended_in};
ghost use Rattle.layered.specs.inner.Early.{decided_again, AgainRoom, RetestRoom, Retested, GoRoom};

use crate::answers::Outcome;
use crate::buffers::{DecodeBuffers, Scratch};
use crate::parity::CheckAt;
use crate::place::Place;
use crate::{parity, place};
use codeline::answers::Numbers;
use codeline::code::Code;

// Decides column c again; whether its symbol is another one now.
fn decide_at(costs: &[u16], q: usize, c: usize, symbols: &mut [u8]) -> bool
    requires { (c * q + q ≤ length costs.now) × ((c < length symbols.old) × (q ≤ most_size)) }
    ensures symbols_then { symbols.new
        ≡ set symbols.old c (decide_of (column_of q costs.now c)).symbol }
    ensures changed { result ≡ false → symbols.new ≡ symbols.old }
{
    // By `as`: a symbol is below 64, and a conversion that can fail is no plainer.
    let z = parity::decided(costs, q, c).symbol as u8;
    if symbols[c] == z {
        return false;
    }
    symbols[c] = z;
    true
}

// Decides a check's columns again; how many symbols are others now: a count, so that a single one that is missed is a fault by itself.
#[tactic(auto, unfolding(crate::specs::inner::Early::decided_again))]
fn decide_again(costs: &[u16], q: usize, columns: &[u16], symbols: &mut [u8]) -> usize
    requires { AgainRoom q costs.now columns.now symbols.old }
    ensures symbols_then { symbols.new
        ≡ decided_again q costs.now columns.now (length columns.now) symbols.old }
    ensures changed { result ≡ 0 → symbols.new ≡ symbols.old }
{
    let mut changed = 0;
    for &c in columns {
        changed += usize::from(decide_at(costs, q, usize::from(c), symbols));
    }
    changed
}

// The test from a check on that the symbols did not satisfy before: a check that they do not satisfy, found behind it or else before it.
fn unsatisfied_from(code: &Code<'_>, from: CheckAt, symbols: &[u8]) -> Option<CheckAt>
    requires { ParityRoom code.now symbols.now × FromTo code.now from code.now.numbers.checks }
    ensures { SomeNot (lent_code code.now) code.now.degrees.now symbols.now result }
{
    let count = usize::from(code.numbers.checks);
    match parity::unsatisfied(code, from, count, symbols) {
        None => parity::unsatisfied(code, CheckAt::FIRST, from.check, symbols),
        behind => behind,
    }
}

// The decisions after an update of the check that stands here, and a check that they do not satisfy. They did not satisfy `from` before
// it, and its columns alone have other costs now: where none of their symbols changed they still do not.
fn tested_again(
    code: &Code<'_>,
    here: Place,
    from: CheckAt,
    costs: &[u16],
    symbols: &mut [u8],
) -> Option<CheckAt>
    requires { RetestRoom code.now here from costs.now symbols.old }
    ensures test { Retested (lent_code code.now) code.now.degrees.now costs.now result }
    ensures symbols_then { symbols.new ≡ symbols_of (lent_code code.now) costs.now }
{
    let m = here.check;
    let at = here.edge;
    let d = usize::from(code.degrees[m]);
    let e = at + d;
    let q = rules::size(code.numbers.first);
    if decide_again(costs, q, &code.columns[at..e], symbols) == 0 {
        return Some(from);
    }
    unsatisfied_from(code, from, symbols)
}

// The updates one after the other, at most `most` of them, from decisions that do not satisfy every check.
fn go_on(code: &Code<'_>, most: u16, b: &mut DecodeBuffers<'_>, room: &mut Scratch<'_>) -> Outcome
    requires { GoRoom code.now b.old.costs.now b.old.store.now b.old.symbols.now room.old.arrived.now room.old.sent.now }
    ensures loans { SameLoans b.old b.new }
    ensures scratch { SameScratch room.old room.new }
    ensures ends { ended_in result (held_lent b.new)
        ≡ stop_lent (lent_code code.now) most 0 (held_lent b.old) }
    ensures symbols_then { b.new.symbols.now ≡ symbols_of (lent_code code.now) b.new.costs.now }
{
    let count = usize::from(code.numbers.checks);
    let mut here = Place::FIRST;
    let mut from = CheckAt::FIRST;
    let mut u: u16 = 0;
    // By `loop`: the place of a check comes around, and a test ends it.
    loop {
        if u == most {
            return Outcome::NotFound(u);
        }
        let next = place::update_at(code, usize::from(u) < count, here, b.costs, b.store, room);
        u += 1;
        // Lent before the other field: beside a lent one none is read.
        let costs = &mut *b.costs;
        match tested_again(code, here, from, costs, b.symbols) {
            None => return Outcome::Found(u),
            Some(check) => from = check,
        }
        here = place::around(next, count);
    }
}

// "M times I".
fn most_updates(numbers: Numbers) -> u16
    ensures { result ≡ numbers.checks * numbers.limit }
{
    u16::from(numbers.checks) * u16::from(numbers.limit)
}

/// The machine on the costs in `costs`, "tested at the start and after each check update".
pub fn run(code: &Code<'_>, b: &mut DecodeBuffers<'_>, room: &mut Scratch<'_>) -> Outcome
    requires { RunIn code.now b.old room.old }
    ensures loans { SameLoans b.old b.new }
    ensures scratch { SameScratch room.old room.new }
    ensures ends { ended_in result (held_lent b.new)
        ≡ stop_lent (lent_code code.now) (code.now.numbers.checks * code.now.numbers.limit) 0 (held_lent b.old) }
    ensures symbols_then { b.new.symbols.now ≡ symbols_of (lent_code code.now) b.new.costs.now }
{
    // Lent before the other field: beside a lent one none is read.
    let costs = &mut *b.costs;
    if parity::settled(code, costs, b.symbols) {
        return Outcome::Found(0);
    }
    let most = most_updates(code.numbers);
    go_on(code, most, b, room)
}
