//! Where the channels of a call stand.
ghost use Rattle.std.specs.Prelude.{◌≡◌, eqb};
ghost use Rattle.layered.specs.Answers.{stage_of};
ghost use Rattle.channels.specs.inner.Rounds.{status_of};
ghost use Rattle.channels.specs.inner.Statuses.{status_number};

use layered::answers::Stage;
use refusal::Refusal;

/// How far a channel is; absent, where the call has fewer.
// A type of its own, not Option of a stage or a refusal: C's numbers are given to it here alone.
#[derive(Clone, Copy, Debug, PartialEq, Eq)]
pub enum Status {
    Absent,
    Running,
    Found,
    NotFound,
    Refused(Refusal),
}

/// That of a load or an iteration.
impl From<Result<Stage, Refusal>> for Status {
    ghost from_gives = { λ stage status. status_number status ≡ status_of (stage_of stage) };

    #[tactic(auto, unfolding(crate::specs::inner::Rounds::status_of))]
    fn from(stage: Result<Stage, Refusal>) -> Status {
        match stage {
            Ok(Stage::Running) => Status::Running,
            Ok(Stage::Found) => Status::Found,
            Ok(Stage::NotFound) => Status::NotFound,
            Err(refusal) => Status::Refused(refusal),
        }
    }
}

impl Status {
    pub fn is_running(self) -> bool
        ensures { result ≡ eqb (status_number self) 20 }
    {
        matches!(self, Status::Running)
    }
}

/// 20 while running: of a channel that is so at the end, the allowance is spent.
impl From<Status> for u8 {
    ghost from_gives = { λ status number. number ≡ status_number status };

    fn from(status: Status) -> u8 {
        match status {
            Status::Absent | Status::Found => 0,
            Status::NotFound => 1,
            Status::Running => 20,
            Status::Refused(refusal) => u8::from(refusal),
        }
    }
}

/// A channel's status, and the iterations that it had.
#[derive(Clone, Copy, Debug, PartialEq, Eq)]
pub struct Channel {
    pub status: Status,
    pub iterations: u8,
}

/// Each channel, what is left of the allowance, and the lent buffers.
// No copy, no equality: the buffers are lent to be written. All eight stand, absent from the count on, as the answer's arrays do.
#[derive(Drop)]
pub struct Channels<'a> {
    pub each: [Channel; sizes::MOST_CHANNELS],
    pub left: u32,
    pub symbols: &'a mut [u8],
    pub costs: &'a mut [u16],
    pub store: &'a mut [u8],
    pub margins: &'a mut [u16],
}
