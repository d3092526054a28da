//! What the call answers.

/// The call's number, the iterations spent of the allowance, and each channel's status with its iterations; 0 for a channel that there is
/// not, and all 0 but the number where the whole call is refused.
// Numbers, and an array for each kind of them, since C takes them so.
#[repr(C)]
#[derive(Clone, Copy, Debug, PartialEq, Eq)]
pub struct Served {
    pub number: u8,
    pub spent: u16,
    pub status: [u8; sizes::MOST_CHANNELS],
    pub iterations: [u8; sizes::MOST_CHANNELS],
}
