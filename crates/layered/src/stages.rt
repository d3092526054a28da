//! A load and one iteration: decoding's refusals, then the first test, or the iteration from the lent costs and records and the test after
//! it.
//
// Buffers and lists go down one by one, as the calls lend them: of a part of a struct's field only the length is known.
ghost use Rattle.std.specs.Prelude.{◌≡◌, Ok};
ghost use Rattle.machine.specs.Machine.{settled, symbols as symbols_of, margins as margins_of};
ghost use Rattle.machine.specs.Lent.{lent, iteration_lent};
ghost use Rattle.machine.specs.Decoding.{lending};
ghost use Rattle.machine.specs.Moments.{Moves, loading, iterating};
ghost use Rattle.layered.specs.inner.Calls.{WorkRoom};
ghost use Rattle.codeline.specs.Codes.{lent_code};
ghost use Rattle.layered.specs.Answers.{stage_of};
ghost use Rattle.layered.specs.inner.Stages.{stage_after, loading_of, iterating_of, TestRoom, StepRoom};

use crate::answers::Stage;
use crate::buffers::Scratch;
use crate::{iterate, parity};
use codeline::code::Code;
use refusal::Refusal;

/// "2 if the test holds, else 3 if t is I or more, else 1".
pub fn stage_after(found: bool, t: u16, limit: u8) -> Stage
    ensures { stage_of (Ok result) ≡ stage_after found t limit }
{
    if found {
        return Stage::Found;
    }
    if u16::from(limit) <= t {
        return Stage::NotFound;
    }
    Stage::Running
}

/// The decisions with their margins, and whether they satisfy every check.
pub fn tested(code: &Code<'_>, costs: &[u16], symbols: &mut [u8], margins: &mut [u16]) -> bool
    requires { TestRoom code.now costs.now symbols.old margins.old }
    ensures test { result ≡ settled (lent_code code.now) costs.now }
    ensures symbols_then { symbols.new ≡ symbols_of (lent_code code.now) costs.now }
    ensures margins_then { margins.new ≡ margins_of (lent_code code.now) costs.now }
{
    let q = rules::size(code.numbers.first);
    parity::symbols_and_margins(costs, q, symbols, margins);
    parity::holds(code, symbols)
}

/// One iteration, and the test after it.
pub fn iterated(
    code: &Code<'_>,
    start: bool,
    symbols: &mut [u8],
    costs: &mut [u16],
    store: &mut [u8],
    margins: &mut [u16],
    arrived: &mut [u8],
    sent: &mut [u8],
) -> bool
    requires { StepRoom code.now start costs.old store.old symbols.old margins.old arrived.old sent.old }
    ensures test { result ≡ settled (lent_code code.now) costs.new }
    ensures buffers { lent costs.new store.new
        ≡ iteration_lent (lent_code code.now) start (lent costs.old store.old) }
    ensures symbols_then { symbols.new ≡ symbols_of (lent_code code.now) costs.new }
    ensures margins_then { margins.new ≡ margins_of (lent_code code.now) costs.new }
{
    let mut room = Scratch { arrived, sent };
    iterate::iterate(code, start, costs, store, &mut room);
    tested(code, costs, symbols, margins)
}

// "After a load the state is 4 if decoding would refuse, else 2 if the test holds, else 1."
fn load_under(
    code: &Code<'_>,
    frame: &[u8],
    symbols: &mut [u8],
    costs: &mut [u16],
    store: &[u8],
    margins: &mut [u16],
) -> Result<Stage, Refusal>
    ensures { Moves
        (loading_of (lent_code code.now) frame.now (lending symbols.old costs.old store.now margins.old))
        (stage_of result)
        (lending symbols.new costs.new store.now margins.new) }
{
    let n = usize::from(code.numbers.columns);
    frame::validate_decode(
        code.numbers,
        code.degrees,
        frame,
        symbols,
        costs,
        store,
        margins,
    )?;
    let w = frame.len();
    frame::copy(frame, &mut costs[..w]);
    let found = tested(code, &costs[..w], &mut symbols[..n], &mut margins[..n]);
    Ok(stage_after(found, 0, code.numbers.limit))
}

// "While running, command 2 first tests decoding's refusals, then 13 .. then, if t is not 0, 16"; then it "goes on from the lent costs
// and records".
fn step_under(
    code: &Code<'_>,
    t: u8,
    frame: &[u8],
    symbols: &mut [u8],
    costs: &mut [u16],
    store: &mut [u8],
    margins: &mut [u16],
    arrived: &mut [u8],
    sent: &mut [u8],
) -> Result<Stage, Refusal>
    requires { WorkRoom arrived.old sent.old }
    ensures { Moves
        (iterating_of (lent_code code.now) frame.now t (lending symbols.old costs.old store.old margins.old))
        (stage_of result)
        (lending symbols.new costs.new store.new margins.new) }
{
    let n = usize::from(code.numbers.columns);
    frame::validate_decode(
        code.numbers,
        code.degrees,
        frame,
        symbols,
        costs,
        store,
        margins,
    )?;
    frame::validate_resumed(code.numbers, t, code.degrees, costs, store)?;
    let w = frame.len();
    let found = iterated(
        code,
        t == 0,
        &mut symbols[..n],
        &mut costs[..w],
        store,
        &mut margins[..n],
        arrived,
        sent,
    );
    Ok(stage_after(found, u16::from(t) + 1, code.numbers.limit))
}

/// Reads the code line, then loads the frame under it.
pub fn load_in(
    code: &[u8],
    frame: &[u8],
    symbols: &mut [u8],
    costs: &mut [u16],
    store: &[u8],
    margins: &mut [u16],
) -> Result<Stage, Refusal>
    ensures { Moves (loading code.now frame.now
        (lending symbols.old costs.old store.now margins.old)) (stage_of result)
        (lending symbols.new costs.new store.now margins.new) }
{
    // The tables are the call's own: a function that read them could not lend them out.
    let mut degrees = [0u8; sizes::MOST_CHECKS];
    let mut columns = [0u16; sizes::MOST_EDGES];
    let mut weights = [0u8; sizes::MOST_EDGES];
    let numbers = codeline::code_tables(code, &mut degrees, &mut columns, &mut weights)?;
    let accepted = Code {
        numbers,
        degrees: &degrees,
        columns: &columns,
        weights: &weights,
    };
    load_under(&accepted, frame, symbols, costs, store, margins)
}

/// Reads the code line, then makes one iteration under it.
pub fn step_in(
    t: u8,
    code: &[u8],
    frame: &[u8],
    symbols: &mut [u8],
    costs: &mut [u16],
    store: &mut [u8],
    margins: &mut [u16],
) -> Result<Stage, Refusal>
    ensures { Moves (iterating code.now frame.now t
        (lending symbols.old costs.old store.old margins.old)) (stage_of result)
        (lending symbols.new costs.new store.new margins.new) }
{
    // The tables are the call's own: a function that read them could not lend them out.
    let mut degrees = [0u8; sizes::MOST_CHECKS];
    let mut columns = [0u16; sizes::MOST_EDGES];
    let mut weights = [0u8; sizes::MOST_EDGES];
    let mut arrived = [0u8; sizes::MOST_EXPANSION];
    let mut sent = [0u8; sizes::MOST_EXPANSION];
    let numbers = codeline::code_tables(code, &mut degrees, &mut columns, &mut weights)?;
    let accepted = Code {
        numbers,
        degrees: &degrees,
        columns: &columns,
        weights: &weights,
    };
    step_under(
        &accepted,
        t,
        frame,
        symbols,
        costs,
        store,
        margins,
        &mut arrived,
        &mut sent,
    )
}
