//! Decoding: the code is read, then its refusals, or the run of a schedule.
//
// Buffers and lists go down one by one, as the calls lend them: of a part of a struct's field only the length is known.
ghost use Rattle.std.specs.Prelude.{◌≡◌, true, ◌≤◌, length};
ghost use Rattle.trellis.specs.Sizes.{most_symbols};
ghost use Rattle.machine.specs.CodeLine.{parse, numbers_of, columns_read};
ghost use Rattle.machine.specs.Machine.{symbols as symbols_of, margins as margins_of};
ghost use Rattle.machine.specs.Lent.{lent};
ghost use Rattle.machine.specs.Decoding.{lending, Leaves};
ghost use Rattle.layered.specs.Answers.{answer_reply};
ghost use Rattle.layered.specs.inner.Buffers.{held_lent, RunIn, SameLoans, SameScratch};
ghost use Rattle.codeline.specs.Codes.{lent_code};
ghost use Rattle.layered.specs.inner.Iterations.{ended_in, RunRoom};
ghost use Rattle.layered.specs.inner.Calls.{run_lent, decoding_of, called, WorkRoom};

use crate::answers::{Counted, Outcome};
use crate::buffers::{DecodeBuffers, Scratch};
use crate::parity;
use crate::schedule::Schedule;
use codeline::code::Code;
use refusal::Refusal;

// The run of a schedule, with the margins of its last decisions.
fn run_to_margins<S: Schedule>(
    code: &Code<'_>,
    b: &mut DecodeBuffers<'_>,
    room: &mut Scratch<'_>,
) -> Outcome
    requires { RunIn code.now b.old room.old
        × (length b.old.margins.now ≡ code.now.numbers.columns) }
    ensures loans { SameLoans b.old b.new }
    ensures scratch { SameScratch room.old room.new }
    ensures ends { ended_in result (held_lent b.new)
        ≡ run_lent S.early code.now.numbers (lent_code code.now)
        (held_lent b.old) }
    ensures symbols_then { b.new.symbols.now ≡ symbols_of (lent_code code.now) b.new.costs.now }
    ensures margins_then { b.new.margins.now ≡ margins_of (lent_code code.now) b.new.costs.now }
{
    let o = S::run(code, b, room);
    // Lent before the other field: beside a lent one none is read.
    let costs = &mut *b.costs;
    parity::margins(costs, rules::size(code.numbers.first), b.margins);
    o
}

// The same over slices, which the caller has cut.
fn run_over<S: Schedule>(
    code: &Code<'_>,
    symbols: &mut [u8],
    costs: &mut [u16],
    store: &mut [u8],
    margins: &mut [u16],
    arrived: &mut [u8],
    sent: &mut [u8],
) -> Outcome
    requires { RunRoom code.now true costs.old store.old symbols.old arrived.old sent.old
        × (length margins.old ≡ code.now.numbers.columns) }
    ensures ends { ended_in result (lent costs.new store.new)
        ≡ run_lent S.early code.now.numbers (lent_code code.now)
        (lent costs.old store.old) }
    ensures symbols_then { symbols.new ≡ symbols_of (lent_code code.now) costs.new }
    ensures margins_then { margins.new ≡ margins_of (lent_code code.now) costs.new }
{
    let mut b = DecodeBuffers {
        symbols,
        costs,
        store,
        margins,
    };
    let mut room = Scratch { arrived, sent };
    run_to_margins::<S>(code, &mut b, &mut room)
}

// "Decode: code, 12, 13, 2, 3, 4.", 19. Nothing is written before the last refusal has been tested.
fn under_code<S: Schedule>(
    code: &Code<'_>,
    frame: &[u8],
    symbols: &mut [u8],
    costs: &mut [u16],
    store: &mut [u8],
    margins: &mut [u16],
    arrived: &mut [u8],
    sent: &mut [u8],
) -> Result<Outcome, Refusal>
    requires { WorkRoom arrived.old sent.old }
    ensures { Leaves
        (decoding_of S.early (lent_code code.now)
        frame.now (lending symbols.old costs.old store.old margins.old))
        (answer_reply result)
        (lending symbols.new costs.new store.new margins.new) }
{
    let n = usize::from(code.numbers.columns);
    frame::validate_decode(
        code.numbers,
        code.degrees,
        frame,
        symbols,
        costs,
        store,
        margins,
    )?;
    let w = frame.len();
    frame::copy(frame, &mut costs[..w]);
    let o = run_over::<S>(
        code,
        &mut symbols[..n],
        &mut costs[..w],
        store,
        &mut margins[..n],
        arrived,
        sent,
    );
    Ok(o)
}

/// Reads the code line and decodes the frame under it.
pub fn decode_in<S: Schedule>(
    code: &[u8],
    frame: &[u8],
    symbols: &mut [u8],
    costs: &mut [u16],
    store: &mut [u8],
    margins: &mut [u16],
) -> Counted
    ensures leaves { Leaves
        (called S.early code.now frame.now
        (lending symbols.old costs.old store.old margins.old)) (answer_reply result.answer)
        (lending symbols.new costs.new store.new margins.new) }
    ensures columns { (result.columns ≡ columns_read (numbers_of (parse code.now))) × (result.columns ≤ most_symbols) }
{
    // The tables are the call's own: a function that read them could not lend them out.
    let mut degrees = [0u8; sizes::MOST_CHECKS];
    let mut columns = [0u16; sizes::MOST_EDGES];
    let mut weights = [0u8; sizes::MOST_EDGES];
    let mut arrived = [0u8; sizes::MOST_EXPANSION];
    let mut sent = [0u8; sizes::MOST_EXPANSION];
    match codeline::code_tables(code, &mut degrees, &mut columns, &mut weights) {
        Err(refusal) => Counted {
            answer: Err(refusal),
            columns: 0,
        },
        Ok(numbers) => {
            let accepted = Code {
                numbers,
                degrees: &degrees,
                columns: &columns,
                weights: &weights,
            };
            let answer = under_code::<S>(
                &accepted,
                frame,
                symbols,
                costs,
                store,
                margins,
                &mut arrived,
                &mut sent,
            );
            Counted {
                answer,
                columns: usize::from(numbers.columns),
            }
        }
    }
}
