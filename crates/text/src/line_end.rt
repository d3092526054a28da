//! What happens where a line ends: the code line is read and kept or refused, a frame is printed.
ghost use Rattle.std.specs.Prelude.{◌≡◌, false, not, ◌++◌, ◌+◌, ◌≤◌, length, take, drop};
ghost use Rattle.trellis.specs.Sizes.{line_room, most_line_bytes};
ghost use Rattle.machine.specs.Printing.{frame_line};
ghost use Rattle.machine.specs.Program.{read_code};
ghost use Rattle.machine.specs.inner.Blocks.{code_out, line_finished_out};
ghost use Rattle.trellis.specs.Lists.{pick};
ghost use Rattle.text.specs.inner.Held.{held_in, kept_of, put_at, code_bytes, accepts, finished_held};

use crate::state::State;
use crate::{hex, print};

// Puts a row into the output.
fn append(row: &[u8], out: &mut [u8], full: usize) -> usize
    requires { full + length row.now ≤ length out.old }
    ensures written { result ≡ full + length row.now }
    ensures out_then { out.new ≡ put_at out.old full row.now }
{
    let e = full + row.len();
    slices::copy(row, &mut out[full..e]);
    e
}

// Prints what print::frame_line gives, and returns how many bytes are then printed.
fn append_line(code: &[u8], text: &[u8], out: &mut [u8], full: usize) -> usize
    requires { full + length (frame_line code.now text.now) ≤ length out.old }
    ensures written { result ≡ full + length (frame_line code.now text.now) }
    ensures out_then { out.new ≡ put_at out.old full (frame_line code.now text.now) }
{
    let mut row = [0u8; sizes::MOST_PRINTED];
    let n = print::frame_line(code, text, &mut row);
    append(&row[..n], out, full)
}

// The bytes of the code line; none if the line is refused.
fn code_bytes(text: &[u8], code: &mut [u8]) -> usize
    requires { length code.old ≡ most_line_bytes }
    ensures written { (result ≡ length (code_bytes text.now)) × (result ≤ most_line_bytes) }
    ensures code_then { code.new
        ≡ code_bytes text.now ++ drop (length (code_bytes text.now)) code.old }
{
    hex::line(text, code).unwrap_or(0)
}

fn accepted(code: &[u8]) -> bool
    ensures { result ≡ accepts code.now }
{
    codeline::code_line(code).is_ok()
}

// The code line read to its end: "a refused code line ends the program".
fn finish_code(text: &[u8], code: &mut [u8], out: &mut [u8], full: usize) -> State
    requires { (length code.old ≡ most_line_bytes) × (full + length (code_out (read_code text.now)) ≤ length out.old) }
    ensures held { (result.len ≡ 0)
        × ((result.code ≡ pick (accepts (code_bytes text.now)) (length (code_bytes text.now)) 0)
        × (result.ended ≡ not (accepts (code_bytes text.now)))) }
    ensures full { result.full ≡ full + length (code_out (read_code text.now)) }
    ensures code_then { code.new
        ≡ code_bytes text.now ++ drop (length (code_bytes text.now)) code.old }
    ensures out_then { out.new ≡ put_at out.old full (code_out (read_code text.now)) }
{
    let n = code_bytes(text, code);
    if accepted(&code[..n]) {
        return State {
            len: 0,
            code: n,
            ended: false,
            full,
        };
    }
    let full = append_line(&code[..n], text, out, full);
    State {
        len: 0,
        code: 0,
        ended: true,
        full,
    }
}

/// A line read to its end.
pub fn finish_line(st: State, line: &[u8], code: &mut [u8], out: &mut [u8]) -> State
    requires { (length line.now ≡ line_room) × ((length code.old ≡ most_line_bytes) × ((st.ended ≡ false)
        × (st.full + length (line_finished_out (kept_of (held_in st line.now code.old))) ≤ length out.old))) }
    ensures held { held_in result line.now code.new
        ≡ finished_held (held_in st line.now code.old) }
    ensures full { result.full ≡ st.full + length (line_finished_out (kept_of (held_in st line.now code.old))) }
    ensures out_then { out.new
        ≡ put_at out.old st.full (line_finished_out (kept_of (held_in st line.now code.old))) }
{
    let t = st.len.min(sizes::LINE_ROOM);
    if st.code == 0 {
        return finish_code(&line[..t], code, out, st.full);
    }
    let k = st.code.min(sizes::MOST_LINE_BYTES);
    let full = append_line(&code[..k], &line[..t], out, st.full);
    State { len: 0, full, ..st }
}
