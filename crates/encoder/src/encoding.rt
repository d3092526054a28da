//! Encoding under a code: the refusals in their order, or the message and the symbols of the checks.
ghost use Rattle.std.specs.Prelude.{◌≡◌};
ghost use Rattle.refusal.specs.Replies.{reply_of, fault_in};
ghost use Rattle.machine.specs.CodeLine.{good};
ghost use Rattle.machine.specs.Encoding.{encode_fault, encoding_under};
ghost use Rattle.codeline.specs.Codes.{lent_code};

use crate::{fill, form, message};
use codeline::code::Code;
use refusal::Refusal;

// "17, the code line lacks this form, after all code refusals; 18, message length is not N - M or a symbol is not below q, after 17;
// then 2".
fn validate(code: &Code<'_>, message: &[u8], room: usize) -> Result<(), Refusal>
    ensures { fault_in result ≡ encode_fault (lent_code code.now) message.now room }
{
    if !form::formed(code) {
        return Err(Refusal::NotEncodable);
    }
    let n = usize::from(code.numbers.columns);
    if message.len() + usize::from(code.numbers.checks) != n {
        return Err(Refusal::Message);
    }
    if !message::elements(message, rules::size(code.numbers.first)) {
        return Err(Refusal::Message);
    }
    if room < n {
        return Err(Refusal::OutputTooShort);
    }
    Ok(())
}

/// Nothing is written before the last refusal has been tested.
pub fn under_code(code: &Code<'_>, message: &[u8], symbols: &mut [u8]) -> Result<usize, Refusal>
    ensures reply { reply_of result
        ≡ (encoding_under (good (lent_code code.now)) message.now symbols.old).reply }
    ensures symbols_then { symbols.new
        ≡ (encoding_under (good (lent_code code.now)) message.now symbols.old).out }
{
    validate(code, message, symbols.len())?;
    let n = usize::from(code.numbers.columns);
    let w = message.len();
    slices::copy(message, &mut symbols[..w]);
    fill::fill(code, w, &mut symbols[..n]);
    Ok(n)
}
