//! Why a call is refused. "A refusal returns its number": each has the number that C, a register and a printed line give. SPEC 8.
#![tactic(auto)]

ghost use Rattle.std.specs.Prelude.{◌≡◌};
ghost use Rattle.refusal.specs.Numbers.{number_of};

use thiserror::Error;

#[derive(Clone, Copy, Debug, PartialEq, Eq, Error)]
pub enum Refusal {
    #[error("the buffer for symbols or output is too short")]
    OutputTooShort = 2,
    #[error("the cost buffer is too short")]
    CostsTooShort = 3,
    #[error("the store or record buffer is too short")]
    StoreTooShort = 4,
    #[error("the code line ends too early or too late")]
    CodeLength = 5,
    #[error("the first byte names no field and rule")]
    FirstByte = 6,
    #[error("the number of columns or checks is out of range")]
    Counts = 7,
    #[error("the scale or the iteration limit is out of range")]
    ScaleOrLimit = 8,
    #[error("a check's degree is out of range")]
    Degree = 9,
    #[error("an edge's column is out of range or does not rise")]
    Column = 10,
    #[error("a weight is 0 or no element")]
    Weight = 11,
    #[error("the number of costs is wrong")]
    CostCount = 12,
    #[error("a column has no cost of 0")]
    NoZeroCost = 13,
    #[error("a byte is no digit, or their number is odd")]
    Digit = 14,
    #[error("the line is too long")]
    LineTooLong = 15,
    #[error("a record is not of accepted form")]
    RecordForm = 16,
    #[error("the code line is not one to encode by")]
    NotEncodable = 17,
    #[error("the message's length is wrong or a symbol is no element")]
    Message = 18,
    #[error("the margin buffer is too short")]
    MarginsTooShort = 19,
    #[error("the number of channels is not 1 to 8")]
    ChannelCount = 21,
    #[error("the allowance is out of range")]
    Allowance = 22,
    #[error("the second frame is not accepted")]
    SecondFrame = 23,
}

impl From<Refusal> for u8 {
    ghost from_gives = { λ refusal number. number ≡ number_of refusal };

    fn from(refusal: Refusal) -> u8 {
        // By as: the case's number.
        refusal as u8
    }
}
