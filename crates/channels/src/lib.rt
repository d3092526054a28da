//! One check layer, eight channels: up to eight frames under one code line, with one allowance of iterations for all.
#![tactic(auto)]

pub mod answers;
mod channel;
mod layout;
mod service;
mod standing;
mod whole;

ghost use Rattle.machine.specs.Decoding.{lending};
ghost use Rattle.channels.specs.Channels.{channels};
ghost use Rattle.channels.specs.Answers.{Gives};

use crate::answers::Served;

/// Decodes `count` frames, which stand end to end in `frames`; what channel c receives stands in the c-th part of each buffer. The
/// channels are served by number in turn, one iteration each, until every one is finished or the allowance is spent. A channel's status is
/// 0 found, 1 not found, 13 refused, or 20 spent: still running when nothing was left. Refused as a whole: 21, count not 1 to 8; 22, no
/// allowance; the code line's 5 to 11; 12, cost count; 2, 3, 4, 19, a buffer shorter than the count times one channel's part.
// The buffers one by one, as C lends them.
pub fn decode_channels(
    count: u8,
    allowance: u32,
    code: &[u8],
    frames: &[u8],
    symbols: &mut [u8],
    costs: &mut [u16],
    store: &mut [u8],
    margins: &mut [u16],
) -> Served
    ensures { Gives (channels count allowance code.now frames.now
        (lending symbols.old costs.old store.old margins.old)) result.number result.spent
        result.status result.iterations (lending symbols.new costs.new store.new margins.new) }
{
    whole::decode(
        count, allowance, code, frames, symbols, costs, store, margins,
    )
    .unwrap_or_else(whole::refused)
}
