//! The printed line of a frame: decoded from its line of text, and printed as two hexadecimal digits a byte.
ghost use Rattle.std.specs.Prelude.{◌≡◌, ◌∷◌, ◌++◌, ◌+◌, ◌*◌, ◌<◌, ◌≤◌, length, drop};
ghost use Rattle.machine.specs.CodeLine.{parse};
ghost use Rattle.machine.specs.Printing.{digit_of, digits_of, said, printed, of_frame, frame_line};
ghost use Rattle.layered.specs.Answers.{answer_reply};
ghost use Rattle.text.specs.inner.Lines.{as_line, over};

use crate::hex;
use layered::answers::Outcome;
use refusal::Refusal;

// "hexadecimal digits 0-9 and A-F".
fn digit(n: u8) -> u8
    requires { n < 16 }
    ensures { result ≡ digit_of n }
{
    if n < 10 { b'0' + n } else { b'A' + (n - 10) }
}

// "two a byte".
fn put(b: u8, out: &mut [u8])
    requires { length out.old ≡ 2 }
    ensures { out.new ≡ digits_of b }
{
    out[0] = digit(b / 16);
    out[1] = digit(b % 16);
}

// "all as two-digit bytes"; "Each printed line ends in 0A."
fn put_all(bytes: &[u8], out: &mut [u8])
    requires { length bytes.now * 2 < length out.old }
    ensures { out.new ≡ over (as_line bytes.now) out.old }
{
    // Cut by hand: of the chunks of a slice that is written only the length is known.
    for (i, &b) in bytes.iter().enumerate() {
        let at = i * 2;
        put(b, &mut out[at..at + 2]);
    }
    out[bytes.len() * 2] = b'\n';
}

// "status, t, then the symbols"; the bytes written.
fn put_line(status: u8, t: u8, symbols: &[u8], out: &mut [u8]) -> usize
    requires { length symbols.now * 2 + 5 ≤ length out.old }
    ensures written { result ≡ length (as_line (status ∷ t ∷ symbols.now)) }
    ensures out_then { out.new ≡ over (as_line (status ∷ t ∷ symbols.now)) out.old }
{
    put(status, &mut out[..2]);
    put(t, &mut out[2..4]);
    put_all(symbols, &mut out[4..]);
    symbols.len() * 2 + 5
}

// "A refused line prints its number as such a byte (12 as 0C) and 00 only".
#[tactic(auto, unfolding(machine::specs::Printing::printed, crate::specs::inner::Lines::as_line))]
fn answer(a: Result<Outcome, Refusal>, symbols: &[u8], out: &mut [u8]) -> usize
    requires { (length symbols.now * 2 + 5 ≤ length out.old) × ((answer_reply a).value ≤ 255) }
    ensures written { result ≡ length (printed (said (answer_reply a) symbols.now)) }
    ensures out_then { out.new ≡ over (printed (said (answer_reply a) symbols.now)) out.old }
{
    match a {
        Err(refusal) => put_line(u8::from(refusal), 0, &[], out),
        // By as: t is at most 255.
        Ok(Outcome::Found(t)) => put_line(0, t as u8, symbols, out),
        Ok(Outcome::NotFound(t)) => put_line(1, t as u8, symbols, out),
    }
}

// A frame's line under a code, printed from its bytes. The buffers are long enough for every code line that is accepted, so that 2, 3, 4
// and 19 never occur.
fn frame_bytes(code: &[u8], frame: &[u8], out: &mut [u8; sizes::MOST_PRINTED]) -> usize
    ensures written { result ≡ length (printed (of_frame (parse code.now) frame.now)) }
    ensures out_then { out.new
        ≡ over (printed (of_frame (parse code.now) frame.now)) out.old }
{
    let mut symbols = [0u8; sizes::MOST_SYMBOLS];
    let mut costs = [0u16; sizes::MOST_COSTS];
    let mut store = [0u8; sizes::MOST_STORE];
    let mut margins = [0u16; sizes::MOST_MARGINS];
    let d = layered::decode_counted(
        code,
        frame,
        &mut symbols,
        &mut costs,
        &mut store,
        &mut margins,
    );
    answer(d.answer, &symbols[..d.columns], out)
}

/// "Line refusals come before all others."
pub fn frame_line(code: &[u8], text: &[u8], out: &mut [u8; sizes::MOST_PRINTED]) -> usize
    ensures written { result ≡ length (frame_line code.now text.now) }
    ensures out_then { out.new
        ≡ frame_line code.now text.now
        ++ drop (length (frame_line code.now text.now)) out.old }
{
    let mut bytes = [0u8; sizes::MOST_LINE_BYTES];
    match hex::line(text, &mut bytes) {
        Err(refusal) => answer(Err(refusal), &[], out),
        Ok(n) => frame_bytes(code, &bytes[..n], out),
    }
}
