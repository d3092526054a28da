//! The channels in turn: all loaded, then rounds in which each that is running gets one iteration.
ghost use Rattle.std.specs.Prelude.{◌≡◌};
ghost use Rattle.channels.specs.inner.Rounds.{serving_at, loaded_to, round_at, rounds_at};
ghost use Rattle.channels.specs.inner.Standing.{standing_of, ChannelLoans};
ghost use Rattle.channels.specs.inner.Layouts.{code_for, LoadsRoom, OneRoom, RoundRoom};

use crate::channel;
use crate::layout::Layout;
use crate::standing::{Channel, Channels, Status};

impl Channels<'_> {
    /// Every channel is loaded, by number.
    pub fn load(&mut self, count: usize, layout: &Layout<'_>, frames: &[u8])
        requires { LoadsRoom count layout.now frames.now (standing_of self.old) }
        ensures loans { ChannelLoans self.old self.new }
        ensures then { standing_of self.new ≡ loaded_to (code_for layout.now) frames.now count (standing_of self.old) }
    {
        // By index: the struct is lent on within the turn.
        for c in 0..count {
            let stage = channel::load_at(c, layout, frames, self.symbols, self.costs, self.margins);
            self.each[c].status = Status::from(stage);
        }
    }

    // Channel c is served: one iteration if it is running and something is left.
    fn serve_at(&mut self, c: usize, layout: &Layout<'_>, arrived: &mut [u8], sent: &mut [u8])
        requires { OneRoom c layout.now (standing_of self.old) arrived.old sent.old }
        ensures loans { ChannelLoans self.old self.new }
        ensures then { standing_of self.new ≡ serving_at (code_for layout.now) c (standing_of self.old) }
    {
        let Channel { status, iterations } = self.each[c];
        if !status.is_running() {
            return;
        }
        if self.left == 0 {
            return;
        }
        let stage = channel::step_at(
            c,
            iterations,
            layout,
            self.symbols,
            self.costs,
            self.store,
            self.margins,
            arrived,
            sent,
        );
        self.each[c] = Channel {
            status: Status::from(Ok(stage)),
            iterations: iterations + 1,
        };
        self.left -= 1;
    }

    // A round: each channel once, by number.
    fn round(&mut self, count: usize, layout: &Layout<'_>, arrived: &mut [u8], sent: &mut [u8])
        requires { RoundRoom count layout.now (standing_of self.old) arrived.old sent.old }
        ensures loans { ChannelLoans self.old self.new }
        ensures then { standing_of self.new ≡ round_at (code_for layout.now) count (standing_of self.old) }
    {
        // By index: the struct is lent on within the turn.
        for c in 0..count {
            self.serve_at(c, layout, arrived, sent);
        }
    }

    /// Rounds until one serves nobody: every channel is finished, or nothing is left.
    pub fn serve(&mut self, count: usize, layout: &Layout<'_>, arrived: &mut [u8], sent: &mut [u8])
        requires { RoundRoom count layout.now (standing_of self.old) arrived.old sent.old }
        ensures loans { ChannelLoans self.old self.new }
        ensures then { standing_of self.new ≡ rounds_at (code_for layout.now) count self.old.left (standing_of self.old) }
    {
        // By loop: a round that serves nobody ends it.
        loop {
            let before = self.left;
            self.round(count, layout, arrived, sent);
            if self.left == before {
                return;
            }
        }
    }
}
