//! Byte 0: "Command 1 loads the lent code and frame and runs the first test; 2 runs one iteration if running; 3 clears pending".
//! The buffers come as the call lends them, one by one: of a part of a struct's field the check knows only the length.
ghost use Rattle.std.specs.Prelude.{◌≡◌};
ghost use Rattle.machine.specs.Decoding.{lending};
ghost use Rattle.window.specs.Window.{load, second, command};
ghost use Rattle.window.specs.Meaning.{window_of};

use crate::registers::Registers;
use crate::states::{self, State};

// Command 1: "A load from any state starts afresh with byte 3 at 0". It keeps the store.
fn loaded(
    window: Registers,
    code: &[u8],
    frame: &[u8],
    symbols: &mut [u8],
    costs: &mut [u16],
    store: &[u8],
    margins: &mut [u16],
) -> Registers
    ensures { window_of result (lending symbols.new costs.new store.now margins.new)
        ≡ load code.now frame.now
        (window_of window (lending symbols.old costs.old store.now margins.old)) }
{
    let stage = layered::load(code, frame, symbols, costs, store, margins);
    states::taking(window, stage, 0)
}

// Command 2: it "runs one iteration if running", and "with byte 3 at 255" does nothing.
#[tactic(auto, unfolding(crate::specs::Window::second))]
fn iterated(
    window: Registers,
    code: &[u8],
    frame: &[u8],
    symbols: &mut [u8],
    costs: &mut [u16],
    store: &mut [u8],
    margins: &mut [u16],
) -> Registers
    ensures { window_of result (lending symbols.new costs.new store.new margins.new)
        ≡ second code.now frame.now
        (window_of window (lending symbols.old costs.old store.old margins.old)) }
{
    // By as: the case's number.
    if window.state != State::Running as u8 || window.iterations == 255 {
        return window;
    }
    let t = window.iterations;
    let stage = layered::step(t, code, frame, symbols, costs, store, margins);
    states::taking(window, stage, t + 1)
}

/// Command 3 clears pending; "other values .. do nothing".
#[tactic(auto, unfolding(crate::specs::Window::command))]
pub fn command(
    window: Registers,
    value: u8,
    code: &[u8],
    frame: &[u8],
    symbols: &mut [u8],
    costs: &mut [u16],
    store: &mut [u8],
    margins: &mut [u16],
) -> Registers
    ensures { window_of result (lending symbols.new costs.new store.new margins.new)
        ≡ command code.now frame.now value
        (window_of window (lending symbols.old costs.old store.old margins.old)) }
{
    match value {
        1 => loaded(window, code, frame, symbols, costs, store, margins),
        2 => iterated(window, code, frame, symbols, costs, store, margins),
        3 => Registers {
            pending: 0,
            ..window
        },
        _ => window,
    }
}
