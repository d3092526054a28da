//! The states that a load or an iteration enters, and the registers then. No buffer is touched.
ghost use Rattle.std.specs.Prelude.{◌≡◌, eqb};
ghost use Rattle.trellis.specs.Lists.{pick};
ghost use Rattle.layered.specs.Answers.{stage_of};
ghost use Rattle.window.specs.Window.{bit_for, entering};
ghost use Rattle.window.specs.Meaning.{bytes_of, state_number};

use crate::registers::Registers;
use layered::answers::Stage;
use refusal::Refusal;

/// "States: 0 idle, 1 running, 2 found, 3 not found, 4 refused." No load and no iteration enters 0.
#[derive(Clone, Copy, Debug, PartialEq, Eq)]
pub enum State {
    Running = 1,
    Found = 2,
    NotFound = 3,
    Refused = 4,
}

// "Bit 0 of pending is set on entering 2 or 3, bit 1 on entering 4".
fn bit_for(state: State) -> u8
    ensures { result ≡ bit_for (state_number state) }
{
    match state {
        State::Running => 0,
        State::Found | State::NotFound => 1,
        State::Refused => 2,
    }
}

// A state that a load or an iteration enters, "even from that same state", with bytes 2 and 3; "mask and pending are kept". State and
// number stand apart, as the registers hold them.
#[tactic(auto, unfolding(crate::specs::Window::setting))]
fn entering(window: Registers, state: State, number: u8, t: u8) -> Registers
    ensures { bytes_of result ≡ entering (state_number state) number t (bytes_of window) }
{
    Registers {
        // By as: the case's number.
        state: state as u8,
        refusal: number,
        iterations: t,
        pending: window.pending | bit_for(state),
        ..window
    }
}

/// The registers after a load or an iteration that ended in a stage at t; "Entering 4 .. sets byte 3 to 0."
pub fn taking(window: Registers, stage: Result<Stage, Refusal>, t: u8) -> Registers
    ensures { bytes_of result ≡ entering (stage_of stage).state (stage_of stage).number (pick (eqb (stage_of stage).state 4) 0 t)
        (bytes_of window) }
{
    match stage {
        Ok(Stage::Running) => entering(window, State::Running, 0, t),
        Ok(Stage::Found) => entering(window, State::Found, 0, t),
        Ok(Stage::NotFound) => entering(window, State::NotFound, 0, t),
        Err(refusal) => entering(window, State::Refused, u8::from(refusal), 0),
    }
}
