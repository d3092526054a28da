//! What is kept from block to block.

/// What is kept from block to block beside the two buffers: how many bytes of the line so far, how many of the code line (0 before it is
/// read), and whether a refused code line has ended the program; and how many bytes the last call printed. All 0 and false at the start.
/// The bytes themselves stand in two lent arrays, as every buffer is lent.
// Plain fields, no cases: the state is public, and all 0 at the start.
#[derive(Clone, Copy, Debug, Default, PartialEq, Eq)]
pub struct State {
    pub len: usize,
    pub code: usize,
    pub ended: bool,
    pub full: usize,
}
