//! Above the check layer and the code line: the layered decoder.
#![tactic(auto)]

// Each public call stands here with its contract, though some only hand on: this file says what the crate promises.

pub mod answers;
mod buffers;
mod column;
mod decoding;
mod early;
mod iterate;
mod parity;
mod place;
mod schedule;
pub mod stages;
mod update;

ghost use Rattle.std.specs.Prelude.{◌≡◌, ◌≤◌};
ghost use Rattle.trellis.specs.Sizes.{most_symbols};
ghost use Rattle.machine.specs.CodeLine.{parse, numbers_of, columns_read};
ghost use Rattle.machine.specs.Decoding.{lending, Decodes};
ghost use Rattle.machine.specs.Early.{DecodesEarly};
ghost use Rattle.machine.specs.Moments.{Moves, loading, iterating};
ghost use Rattle.layered.specs.Answers.{answer_reply, stage_of};

use crate::answers::{Counted, Outcome, Stage};
use crate::schedule::{EachUpdate, WholeIterations};
use refusal::Refusal;

/// Decodes a frame of N times q costs under a code line: found or not found with the iterations made, the decisions in `symbols`, the
/// costs P in `costs`, the records in `store`, the decisions' margins in `margins`. Refused: the code line's 5 to 11; 12, cost count; 13,
/// a column without a cost of 0; 2, 3, 4, 19, symbol buffer, cost buffer, store, margin buffer too short.
pub fn decode(
    code: &[u8],
    frame: &[u8],
    symbols: &mut [u8],
    costs: &mut [u16],
    store: &mut [u8],
    margins: &mut [u16],
) -> Result<Outcome, Refusal>
    ensures { Decodes code.now frame.now
        (lending symbols.old costs.old store.old margins.old) (answer_reply result)
        (lending symbols.new costs.new store.new margins.new) }
{
    decode_counted(code, frame, symbols, costs, store, margins).answer
}

/// The same call for whoever goes on with the N symbols.
pub fn decode_counted(
    code: &[u8],
    frame: &[u8],
    symbols: &mut [u8],
    costs: &mut [u16],
    store: &mut [u8],
    margins: &mut [u16],
) -> Counted
    ensures leaves { Decodes code.now frame.now
        (lending symbols.old costs.old store.old margins.old) (answer_reply result.answer)
        (lending symbols.new costs.new store.new margins.new) }
    ensures columns { (result.columns ≡ columns_read (numbers_of (parse code.now))) × (result.columns ≤ most_symbols) }
{
    decoding::decode_in::<WholeIterations>(code, frame, symbols, costs, store, margins)
}

/// Decodes a frame as decode does, but stops "as soon as the decisions satisfy all checks, tested at the start and after each check
/// update": found or not found with the check updates made. Symbols, margins, costs and the records of updated checks are those of that
/// moment; checks not yet updated keep the old bytes of their place in the store. Refuses as decode does.
pub fn decode_early(
    code: &[u8],
    frame: &[u8],
    symbols: &mut [u8],
    costs: &mut [u16],
    store: &mut [u8],
    margins: &mut [u16],
) -> Result<Outcome, Refusal>
    ensures { DecodesEarly code.now frame.now
        (lending symbols.old costs.old store.old margins.old) (answer_reply result)
        (lending symbols.new costs.new store.new margins.new) }
{
    decoding::decode_in::<EachUpdate>(code, frame, symbols, costs, store, margins).answer
}

/// Loads a frame and runs the first test: the buffers hold the first decisions with their margins and the frame as costs; the store is only
/// asked for its length. Refuses as decode does.
pub fn load(
    code: &[u8],
    frame: &[u8],
    symbols: &mut [u8],
    costs: &mut [u16],
    store: &[u8],
    margins: &mut [u16],
) -> Result<Stage, Refusal>
    ensures { Moves (loading code.now frame.now
        (lending symbols.old costs.old store.now margins.old)) (stage_of result)
        (lending symbols.new costs.new store.now margins.new) }
{
    stages::load_in(code, frame, symbols, costs, store, margins)
}

/// One iteration after t of them, which goes on from the lent costs and records, whoever wrote them. Refused: as decode, then 13, a cost
/// above 510 or a column without a 0 in the cost buffer, then, if t is not 0, 16, a stored record that is not of accepted form.
pub fn step(
    t: u8,
    code: &[u8],
    frame: &[u8],
    symbols: &mut [u8],
    costs: &mut [u16],
    store: &mut [u8],
    margins: &mut [u16],
) -> Result<Stage, Refusal>
    ensures { Moves (iterating code.now frame.now t
        (lending symbols.old costs.old store.old margins.old)) (stage_of result)
        (lending symbols.new costs.new store.new margins.new) }
{
    stages::step_in(t, code, frame, symbols, costs, store, margins)
}
