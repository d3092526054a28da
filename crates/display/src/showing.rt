//! The refusals, and the quotients of the shifts.
ghost use Rattle.std.specs.Prelude.{◌≡◌};
ghost use Rattle.refusal.specs.Replies.{fault_in};
ghost use Rattle.trellis.specs.Display.{displayed};
ghost use Rattle.display.specs.Answers.{display_fault};
ghost use Rattle.display.specs.inner.Showing.{ShowRoom};

use expansion::form;
use refusal::Refusal;

/// "Both refuse as expansion does; the display's buffer is d bytes, refusal 2".
pub fn validate(first: u8, weights: &[u8], bytes: &[u8], room: usize) -> Result<(), Refusal>
    ensures { fault_in result ≡ display_fault first weights.now bytes.now room }
{
    field::validate_weights(first, weights)?;
    if !form::record_ok(first, bytes, weights.len()) {
        return Err(Refusal::RecordForm);
    }
    if room < weights.len() {
        return Err(Refusal::OutputTooShort);
    }
    Ok(())
}

/// "the shifts alone, divided by the weights": the first d bytes of the record are all that is read.
pub fn show(p: u8, weights: &[u8], bytes: &[u8], out: &mut [u8])
    requires { ShowRoom p weights.now bytes.now out.old }
    ensures { out.new ≡ displayed p weights.now bytes.now }
{
    // By index: of a zip over a slice that is written only the length is known.
    for (n, x) in out.iter_mut().enumerate() {
        *x = division::divide(p, weights[n], bytes[n]);
    }
}
