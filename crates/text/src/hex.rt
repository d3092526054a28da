//! A line of text: hexadecimal digits, two a byte.
ghost use Rattle.std.specs.Prelude.{◌≡◌, true, ◌/◌, ◌<◌, length};
ghost use Rattle.refusal.specs.Replies.{reply_of, fault_in};
ghost use Rattle.machine.specs.Line.{is_digit, digit, line_bytes, line_reply, line_leaves};
ghost use Rattle.text.specs.inner.Digits.{digit_answer, digits_fault, all_digits};

use refusal::Refusal;

// "hexadecimal digits 0-9 and A-F"; "14, .. another byte".
fn value(b: u8) -> Result<u8, Refusal>
    ensures { result ≡ digit_answer b }
{
    match b {
        b'0'..=b'9' => Ok(b - b'0'),
        b'A'..=b'F' => Ok(b - b'A' + 10),
        _ => Err(Refusal::Digit),
    }
}

// Whether each byte is a digit.
fn validate(text: &[u8]) -> Result<(), Refusal>
    ensures { fault_in result ≡ digits_fault text.now (length text.now) }
{
    for &b in text {
        value(b)?;
    }
    Ok(())
}

// The value of a byte that is known to be a digit.
fn nibble(b: u8) -> u8
    requires { is_digit b ≡ true }
    ensures { (result ≡ digit b) × (result < 16) }
{
    // Not by `unwrap`: only a loop that nothing leaves early becomes vectors.
    value(b).unwrap_or(0)
}

// "two a byte".
fn fill(text: &[u8], out: &mut [u8])
    requires { (all_digits text.now (length text.now) ≡ true) × (length out.old ≡ length text.now / 2) }
    ensures { out.new ≡ line_bytes text.now }
{
    // By index: of a zip over a slice that is written only the length is known.
    for (i, x) in out.iter_mut().enumerate() {
        *x = nibble(text[2 * i]) * 16 + nibble(text[2 * i + 1]);
    }
}

/// "Line: 15, 14, 2."; nothing is written before the last of these is tested.
#[tactic(auto, unfolding(machine::specs::Line::line_reply, machine::specs::Line::line_leaves, machine::specs::Line::line_ok))]
pub fn line(text: &[u8], out: &mut [u8]) -> Result<usize, Refusal>
    ensures reply { reply_of result ≡ line_reply text.now out.old }
    ensures out_then { out.new ≡ line_leaves text.now out.old }
{
    if sizes::MOST_LINE < text.len() {
        return Err(Refusal::LineTooLong);
    }
    if text.len() % 2 != 0 {
        return Err(Refusal::Digit);
    }
    validate(text)?;
    let n = text.len() / 2;
    if out.len() < n {
        return Err(Refusal::OutputTooShort);
    }
    fill(text, &mut out[..n]);
    Ok(n)
}
