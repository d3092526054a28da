//! Encoding: "Given an accepted code line and N - M message symbols, write the N symbols."
#![tactic(auto)]

mod encoding;
mod fill;
mod form;
mod message;

ghost use Rattle.std.specs.Prelude.{◌≡◌};
ghost use Rattle.refusal.specs.Replies.{reply_of};
ghost use Rattle.machine.specs.Encoding.{encoding};

use codeline::code::Code;
use refusal::Refusal;

/// Encodes a message of N - M symbols under a code line where N exceeds M and check m, counted from 0, contains column N - M + m and no
/// higher one: N symbols, of which the first are the message and which satisfy every check. The answer is N; what stands after the N
/// symbols stays. Refused: the code line's 5 to 11; 17, the line lacks this form; 18, message length, or a symbol not below q; 2, symbol
/// buffer too short.
pub fn encode(code: &[u8], message: &[u8], symbols: &mut [u8]) -> Result<usize, Refusal>
    ensures reply { reply_of result ≡ (encoding code.now message.now symbols.old).reply }
    ensures symbols_then { symbols.new ≡ (encoding code.now message.now symbols.old).out }
{
    // The tables are the call's own: a function that read them could not lend them out.
    let mut degrees = [0u8; sizes::MOST_CHECKS];
    let mut columns = [0u16; sizes::MOST_EDGES];
    let mut weights = [0u8; sizes::MOST_EDGES];
    let numbers = codeline::code_tables(code, &mut degrees, &mut columns, &mut weights)?;
    let accepted = Code {
        numbers,
        degrees: &degrees,
        columns: &columns,
        weights: &weights,
    };
    encoding::under_code(&accepted, message, symbols)
}
