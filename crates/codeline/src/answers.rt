//! The numbers of a code line, and what a call says of it.

/// The numbers of a code line: the first byte, N, M, g and I.
#[derive(Clone, Copy, Debug, PartialEq, Eq)]
pub struct Numbers {
    pub first: u8,
    pub columns: u16,
    pub checks: u8,
    pub scale: u8,
    pub limit: u8,
}

/// What a code line says to whoever lends the buffers: 0 or the number of its refusal, its numbers, and the length of its store in bytes.
/// A flag with values beside it, since C takes it so.
#[repr(C)]
#[derive(Clone, Copy, Debug, PartialEq, Eq)]
pub struct Summary {
    pub number: u8,
    pub first: u8,
    pub columns: u16,
    pub checks: u8,
    pub scale: u8,
    pub limit: u8,
    pub store: u32,
}
