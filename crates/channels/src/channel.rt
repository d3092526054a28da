//! One channel in its parts of the buffers: its load and its next iteration. The buffers come as slices, since of a part that is cut off a
//! struct's field the check knows only the length.
ghost use Rattle.std.specs.Prelude.{List, ℕ, Ok};
ghost use Rattle.machine.specs.Decoding.{lending};
ghost use Rattle.layered.specs.Answers.{stage_of};
ghost use Rattle.channels.specs.inner.Rounds.{status_of, load_at, step_at};
ghost use Rattle.channels.specs.inner.Layouts.{code_for, LoadRoom, NextRoom, Puts};

use crate::layout::Layout;
use layered::answers::Stage;
use layered::stages;
use refusal::Refusal;

/// "Only 13 is a channel's own: its parts of the buffers are unchanged"; else the frame becomes its costs and is tested. Whatever the
/// store holds, it stays.
pub fn load_at(
    c: usize,
    layout: &Layout<'_>,
    frames: &[u8],
    symbols: &mut [u8],
    costs: &mut [u16],
    margins: &mut [u16],
) -> Result<Stage, Refusal>
    requires { LoadRoom c layout.now frames.now symbols.old costs.old margins.old }
    ensures { (store : List ℕ) → Puts (code_for layout.now) c
        (lending symbols.old costs.old store margins.old)
        (load_at (code_for layout.now) frames.now c
        (lending symbols.old costs.old store margins.old)) (status_of (stage_of result))
        (lending symbols.new costs.new store margins.new) }
{
    let a = c * layout.columns;
    let b = a + layout.columns;
    let d = c * layout.costs;
    let e = d + layout.costs;
    frame::validate_frame(layout.code.numbers, &frames[d..e])?;
    frame::copy(&frames[d..e], &mut costs[d..e]);
    let found = stages::tested(
        &layout.code,
        &costs[d..e],
        &mut symbols[a..b],
        &mut margins[a..b],
    );
    Ok(stages::stage_after(found, 0, layout.code.numbers.limit))
}

/// Its next iteration, after t.
pub fn step_at(
    c: usize,
    t: u8,
    layout: &Layout<'_>,
    symbols: &mut [u8],
    costs: &mut [u16],
    store: &mut [u8],
    margins: &mut [u16],
    arrived: &mut [u8],
    sent: &mut [u8],
) -> Stage
    requires { NextRoom c t layout.now (lending symbols.old costs.old store.old margins.old) arrived.old sent.old }
    ensures { Puts (code_for layout.now) c
        (lending symbols.old costs.old store.old margins.old)
        (step_at (code_for layout.now) c t
        (lending symbols.old costs.old store.old margins.old)) (status_of (stage_of (Ok result)))
        (lending symbols.new costs.new store.new margins.new) }
{
    let a = c * layout.columns;
    let b = a + layout.columns;
    let d = c * layout.costs;
    let e = d + layout.costs;
    let f = c * layout.store;
    let g = f + layout.store;
    let found = stages::iterated(
        &layout.code,
        t == 0,
        &mut symbols[a..b],
        &mut costs[d..e],
        &mut store[f..g],
        &mut margins[a..b],
        arrived,
        sent,
    );
    stages::stage_after(found, u16::from(t) + 1, layout.code.numbers.limit)
}
