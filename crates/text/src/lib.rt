//! Text: a line of hexadecimal digits, the printed line of a frame, and the program's whole output, block by block. No input or output is
//! done here. Each call's contract stands here again, so that all that the crate promises is read in one file.
#![tactic(auto)]

mod cut;
mod hex;
mod line_end;
mod print;
pub mod state;

ghost use Rattle.std.specs.Prelude.{◌≡◌, ◌++◌, length, take, drop};
ghost use Rattle.refusal.specs.Replies.{reply_of};
ghost use Rattle.machine.specs.Line.{line_reply, line_leaves};
ghost use Rattle.machine.specs.Printing.{frame_line};
ghost use Rattle.machine.specs.inner.Blocks.{fed_out, close_out};
ghost use Rattle.text.specs.inner.Held.{held_in, kept_of, put_at, fed_held, close_held};

use crate::state::State;
use refusal::Refusal;

/// The bytes of a line of text. "Line: 15, 14, 2."; nothing is written before the last of these is tested.
pub fn line(text: &[u8], out: &mut [u8]) -> Result<usize, Refusal>
    ensures reply { reply_of result ≡ line_reply text.now out.old }
    ensures out_then { out.new ≡ line_leaves text.now out.old }
{
    hex::line(text, out)
}

/// The line that the program prints for a frame's line of text, with its end, and how many bytes it has. The longest has 517 bytes: 256
/// symbols, and 2 + 2 + 1.
pub fn frame_line(code: &[u8], text: &[u8], out: &mut [u8; sizes::MOST_PRINTED]) -> usize
    ensures written { result ≡ length (frame_line code.now text.now) }
    ensures out_then { out.new
        ≡ frame_line code.now text.now
        ++ drop (length (frame_line code.now text.now)) out.old }
{
    print::frame_line(code, text, out)
}

/// One block of the input, its first n bytes: what is kept after it, and in `out` what is printed for it, `full` bytes. The longest is 512
/// and five for each byte of the block.
// A whole block and a count, and the buffers one by one: the public call has them so.
pub fn feed(
    st: State,
    block: &[u8; sizes::MOST_BLOCK],
    n: usize,
    line: &mut [u8; sizes::LINE_ROOM],
    code: &mut [u8; sizes::MOST_LINE_BYTES],
    out: &mut [u8; sizes::MOST_BLOCK_PRINTED],
) -> State
    ensures held { held_in result line.new code.new
        ≡ fed_held (held_in st line.old code.old) (take n block.now) }
    ensures full { result.full
        ≡ length (fed_out (kept_of (held_in st line.old code.old)) (take n block.now)) }
    ensures out_then { out.new
        ≡ put_at out.old 0 (fed_out (kept_of (held_in st line.old code.old)) (take n block.now)) }
{
    cut::feed_over(
        State { full: 0, ..st },
        &block[..n.min(sizes::MOST_BLOCK)],
        line,
        code,
        out,
    )
}

/// The end of the input: "a last line without it counts if not empty"; "Empty input prints the line `0500`", as an empty code line does.
/// What is printed stands in `out`; the answer is how many bytes that are. The code line's buffer is used for a code line that ends here.
pub fn close(
    st: State,
    line: &[u8; sizes::LINE_ROOM],
    code: &mut [u8; sizes::MOST_LINE_BYTES],
    out: &mut [u8; sizes::MOST_PRINTED],
) -> usize
    ensures written { result ≡ length (close_out (kept_of (held_in st line.now code.old))) }
    ensures code_then { code.new ≡ (close_held (held_in st line.now code.old)).bytes }
    ensures out_then { out.new
        ≡ put_at out.old 0 (close_out (kept_of (held_in st line.now code.old))) }
{
    cut::close_in(st, line, code, out)
}
