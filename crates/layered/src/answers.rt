//! What the calls answer.
use refusal::Refusal;

/// How a run of the machine ended: with its iterations, or with its check updates where it may stop inside an iteration.
#[derive(Clone, Copy, Debug, PartialEq, Eq)]
pub enum Outcome {
    Found(u16),
    NotFound(u16),
}

/// A decoding's answer, with N of a code line that is accepted, on a refused frame too: the line is read once for both.
#[derive(Clone, Copy, Debug, PartialEq, Eq)]
pub struct Counted {
    pub answer: Result<Outcome, Refusal>,
    pub columns: usize,
}

/// Where a load or an iteration ended that was not refused.
#[derive(Clone, Copy, Debug, PartialEq, Eq)]
pub enum Stage {
    Running,
    Found,
    NotFound,
}
