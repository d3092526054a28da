//! The input cut into lines, block by block, and its end.
ghost use Rattle.std.specs.Prelude.{◌≡◌, false, [], ◌∷◌, ◌++◌, ◌+◌, ◌*◌, ◌≤◌, length, position, ◌==◌};
ghost use Rattle.trellis.specs.Sizes.{line_room, most_line_bytes, most_printed};
ghost use Rattle.machine.specs.inner.Blocks.{fed_out, close_out};
ghost use Rattle.text.specs.inner.Held.{held_in, kept_of, put_at, to_newline, KeepsPart, fed_held, quiet, close_held};

use crate::line_end;
use crate::state::State;

// "Lines end in byte 0A": the place of the first one.
fn newline(bytes: &[u8]) -> Option<usize>
    ensures { result ≡ position (λ b. b == 0x0A) bytes.now }
{
    bytes.iter().position(|&b| b == b'\n')
}

// A part of a line, as far as there is room: 32,769 bytes are enough to refuse the line by 15.
fn keep(st: State, part: &[u8], line: &mut [u8]) -> State
    requires { length line.old ≡ 32769 }
    ensures held { KeepsPart st line.old part.now result line.new }
    ensures full { (result.full ≡ st.full) × (result.ended ≡ st.ended) }
{
    let len = st.len;
    if sizes::LINE_ROOM <= len {
        return st;
    }
    let n = part.len().min(sizes::LINE_ROOM - len);
    let e = len + n;
    slices::copy(&part[..n], &mut line[len..e]);
    State { len: e, ..st }
}

// A part of a line, and its end.
fn whole(st: State, part: &[u8], line: &mut [u8], code: &mut [u8], out: &mut [u8]) -> State
    requires line_len { (length line.old ≡ line_room) × ((length code.old ≡ most_line_bytes)
        × ((st.ended ≡ false) × (to_newline part.now ≡ length part.now))) }
    requires part_in_bounds { st.full + length (fed_out (kept_of (held_in st line.old code.old)) (part.now ++ (0x0A ∷ []))) ≤ length out.old }
    ensures held { held_in result line.new code.new
        ≡ fed_held (held_in st line.old code.old) (part.now ++ (0x0A ∷ [])) }
    ensures full { result.full ≡ st.full + length (fed_out (kept_of (held_in st line.old code.old))
        (part.now ++ (0x0A ∷ []))) }
    ensures out_then { out.new
        ≡ put_at out.old st.full (fed_out (kept_of (held_in st line.old code.old))
        (part.now ++ (0x0A ∷ []))) }
{
    let s = keep(st, part, line);
    line_end::finish_line(s, line, code, out)
}

/// A block, line by line; no byte counts once the program has ended.
pub fn feed_over(st: State, bytes: &[u8], line: &mut [u8], code: &mut [u8], out: &mut [u8]) -> State
    requires { (length line.old ≡ line_room) × ((length code.old ≡ most_line_bytes)
        × ((st.full ≡ 0) × (512 + 5 * length bytes.now ≤ length out.old))) }
    ensures held { held_in result line.new code.new
        ≡ fed_held (held_in st line.old code.old) bytes.now }
    ensures full { result.full ≡ length (fed_out (kept_of (held_in st line.old code.old)) bytes.now) }
    ensures out_then { out.new
        ≡ put_at out.old 0 (fed_out (kept_of (held_in st line.old code.old)) bytes.now) }
{
    let mut s = st;
    let mut at = 0;
    while !s.ended {
        let rest = &bytes[at..];
        let Some(n) = newline(rest) else {
            return keep(s, rest, line);
        };
        s = whole(s, &rest[..n], line, code, out);
        at += n + 1;
    }
    s
}

// Whether the end of the input prints nothing: the program has ended, or a frame's line is empty.
#[tactic(auto, unfolding(crate::specs::inner::Held::quiet))]
fn silent(st: State) -> bool
    ensures { result ≡ quiet st.ended st.code st.len }
{
    st.ended || st.code != 0 && st.len == 0
}

/// The end of the input: what is printed for what is kept, and how many bytes that are.
pub fn close_in(st: State, line: &[u8], code: &mut [u8], out: &mut [u8]) -> usize
    requires { (length line.now ≡ line_room) × ((length code.old ≡ most_line_bytes) × (length out.old ≡ most_printed)) }
    ensures written { result ≡ length (close_out (kept_of (held_in st line.now code.old))) }
    ensures code_then { code.new ≡ (close_held (held_in st line.now code.old)).bytes }
    ensures out_then { out.new
        ≡ put_at out.old 0 (close_out (kept_of (held_in st line.now code.old))) }
{
    if silent(st) {
        return 0;
    }
    line_end::finish_line(State { full: 0, ..st }, line, code, out).full
}
