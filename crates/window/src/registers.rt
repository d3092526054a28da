//! The registers.

/// Bytes 1 to 5, in their order; all 0 is the idle window. Byte 0, the command, holds nothing.
// Numbers, since C takes them so.
#[repr(C)]
#[derive(Clone, Copy, Debug, PartialEq, Eq, Default)]
pub struct Registers {
    pub state: u8,
    pub refusal: u8,
    pub iterations: u8,
    pub mask: u8,
    pub pending: u8,
}
