//! One iteration and the run, over the lent buffers and the tables of a code.
ghost use Rattle.std.specs.Prelude.{◌≡◌, true};
ghost use Rattle.machine.specs.Machine.{symbols as symbols_of};
ghost use Rattle.machine.specs.Lent.{lent, iteration_lent, go_lent};
ghost use Rattle.layered.specs.inner.Buffers.{held_lent, RunIn, SameLoans, SameScratch};
ghost use Rattle.codeline.specs.Codes.{lent_code};
ghost use Rattle.layered.specs.inner.Iterations.{ended_in, IterateRoom};

use crate::answers::Outcome;
use crate::buffers::{DecodeBuffers, Scratch};
use crate::place::Place;
use crate::{parity, place};
use codeline::code::Code;

/// "An iteration .. takes the checks in code order." `start` is a bool down to the update, which says why.
pub fn iterate(
    code: &Code<'_>,
    start: bool,
    costs: &mut [u16],
    store: &mut [u8],
    room: &mut Scratch<'_>,
)
    requires { IterateRoom code.now start costs.old store.old room.old.arrived.now room.old.sent.now }
    ensures scratch { SameScratch room.old room.new }
    ensures buffers { lent costs.new store.new
        ≡ iteration_lent (lent_code code.now) start (lent costs.old store.old) }
{
    let count = usize::from(code.numbers.checks);
    let mut here = Place::FIRST;
    // The place that an update answers counts the checks.
    while here.check < count {
        here = place::update_at(code, start, here, costs, store, room);
    }
}

/// The machine on the costs in `costs`: "all checks satisfied means found. Otherwise, if t = I, not found."
pub fn run(code: &Code<'_>, b: &mut DecodeBuffers<'_>, room: &mut Scratch<'_>) -> Outcome
    requires { RunIn code.now b.old room.old }
    ensures loans { SameLoans b.old b.new }
    ensures scratch { SameScratch room.old room.new }
    ensures ends { ended_in result (held_lent b.new)
        ≡ go_lent (lent_code code.now) code.now.numbers.limit 0 (held_lent b.old) }
    ensures symbols_then { b.new.symbols.now ≡ symbols_of (lent_code code.now) b.new.costs.now }
{
    let limit = u16::from(code.numbers.limit);
    let mut t: u16 = 0;
    // By `loop`: a run ends at a test, and makes one more of them than iterations.
    loop {
        // Lent before the other field: beside a lent one none is read.
        let costs = &mut *b.costs;
        if parity::settled(code, costs, b.symbols) {
            return Outcome::Found(t);
        }
        if t == limit {
            return Outcome::NotFound(t);
        }
        iterate(code, t == 0, b.costs, b.store, room);
        t += 1;
    }
}
