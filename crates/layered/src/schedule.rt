//! When a decoding tests its decisions: at the start, and then after each iteration or after each check update.
ghost use Rattle.std.specs.Prelude.{◌≡◌, Bool, true, false};
ghost use Rattle.machine.specs.Machine.{symbols as symbols_of};
ghost use Rattle.layered.specs.inner.Buffers.{held_lent, RunIn, SameLoans, SameScratch};
ghost use Rattle.codeline.specs.Codes.{lent_code};
ghost use Rattle.layered.specs.inner.Iterations.{ended_in};
ghost use Rattle.layered.specs.inner.Calls.{run_lent};

use crate::answers::Outcome;
use crate::buffers::{DecodeBuffers, Scratch};
use crate::{early, iterate};
use codeline::code::Code;

pub trait Schedule {
    // Whether it may stop inside an iteration.
    ghost early: { Bool };

    // The machine on the costs in `costs`.
    fn run(code: &Code<'_>, b: &mut DecodeBuffers<'_>, room: &mut Scratch<'_>) -> Outcome
        requires { RunIn code.now b.old room.old }
        ensures loans { SameLoans b.old b.new }
        ensures scratch { SameScratch room.old room.new }
        ensures ends { ended_in result (held_lent b.new)
            ≡ run_lent early code.now.numbers (lent_code code.now)
            (held_lent b.old) }
        ensures symbols_then { b.new.symbols.now ≡ symbols_of (lent_code code.now) b.new.costs.now };
}

#[derive(Clone, Copy, Debug, PartialEq, Eq)]
pub struct WholeIterations;

#[derive(Clone, Copy, Debug, PartialEq, Eq)]
pub struct EachUpdate;

impl Schedule for WholeIterations {
    ghost early = { false };

    fn run(code: &Code<'_>, b: &mut DecodeBuffers<'_>, room: &mut Scratch<'_>) -> Outcome {
        iterate::run(code, b, room)
    }
}

impl Schedule for EachUpdate {
    ghost early = { true };

    fn run(code: &Code<'_>, b: &mut DecodeBuffers<'_>, room: &mut Scratch<'_>) -> Outcome {
        early::run(code, b, room)
    }
}
