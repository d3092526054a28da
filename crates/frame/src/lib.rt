//! A frame under a code: its tests, those of the buffers, its costs in the cost buffer, and the tests of costs and records from which an
//! iteration goes on.
#![tactic(auto)]

mod columns;
mod stored;

ghost use Rattle.std.specs.Prelude.{◌≡◌, min, length};
ghost use Rattle.refusal.specs.Replies.{fault_in};
ghost use Rattle.machine.specs.inner.Tables.{bytes_before};
ghost use Rattle.slices.specs.Copies.{copied_to};
ghost use Rattle.frame.specs.Answers.{frame_fault_of, room_fault_of, short_fault, fault_of, resume_fault};

use codeline::answers::Numbers;
use refusal::Refusal;

/// How many elements the symbol buffer, the cost buffer, the store and the margin buffer have, or need.
#[derive(Clone, Copy, Debug, PartialEq, Eq)]
pub struct Lengths {
    pub symbols: usize,
    pub costs: usize,
    pub store: usize,
    pub margins: usize,
}

/// "12, cost count wrong; 13, a column without a cost of 0".
#[tactic(auto, using(crate::proofs::Frames::zeros_are), unfolding(crate::specs::Answers::frame_fault_of))]
pub fn validate_frame(numbers: Numbers, frame: &[u8]) -> Result<(), Refusal>
    ensures { fault_in result ≡ frame_fault_of numbers.first numbers.columns frame.now }
{
    let n = usize::from(numbers.columns);
    let q = rules::size(numbers.first);
    if frame.len() != n * q {
        return Err(Refusal::CostCount);
    }
    if !columns::zeros(frame, q, n) {
        return Err(Refusal::NoZeroCost);
    }
    Ok(())
}

/// "as many bytes as the M record lengths add up to": of the first M of these degrees.
#[tactic(auto, using(crate::proofs::Resuming::groups_small, crate::proofs::Resuming::bytes_none, crate::proofs::Resuming::place_more))]
pub fn used(numbers: Numbers, degrees: &[u8]) -> usize
    ensures { result
        ≡ bytes_before numbers.first degrees.now (min numbers.checks (length degrees.now)) }
{
    let groups = rules::groups(numbers.first);
    let count = usize::from(numbers.checks).min(degrees.len());
    let mut sum = 0;
    for &d in &degrees[..count] {
        sum += usize::from(d) + groups;
    }
    sum
}

/// 2, 3, 4 and 19 for the first buffer that is too short. As many margins are needed as symbols: then these are the documents' tests.
#[tactic(auto, unfolding(crate::specs::Answers::room_fault_of))]
pub fn validate_room(needed: Lengths, lent: Lengths) -> Result<(), Refusal>
    ensures each { fault_in result ≡ short_fault needed lent }
    ensures fault { needed.margins ≡ needed.symbols → fault_in result
        ≡ room_fault_of needed.symbols needed.costs needed.store lent.symbols lent.costs lent.store lent.margins }
{
    if lent.symbols < needed.symbols {
        return Err(Refusal::OutputTooShort);
    }
    if lent.costs < needed.costs {
        return Err(Refusal::CostsTooShort);
    }
    if lent.store < needed.store {
        return Err(Refusal::StoreTooShort);
    }
    if lent.margins < needed.margins {
        return Err(Refusal::MarginsTooShort);
    }
    Ok(())
}

/// "Decode: code, 12, 13, 2, 3, 4.", 19: what comes after the code. Slices as the public calls have them, since what is tested is what they lend.
#[tactic(auto, using(crate::proofs::Frames::decode_refused, crate::proofs::Frames::decode_room))]
pub fn validate_decode(
    numbers: Numbers,
    degrees: &[u8],
    frame: &[u8],
    symbols: &[u8],
    costs: &[u16],
    store: &[u8],
    margins: &[u16],
) -> Result<(), Refusal>
    ensures { fault_in result
        ≡ fault_of numbers degrees.now frame.now (length symbols.now)
        (length costs.now) (length store.now) (length margins.now) }
{
    validate_frame(numbers, frame)?;
    let n = usize::from(numbers.columns);
    let needed = Lengths {
        symbols: n,
        costs: frame.len(),
        store: used(numbers, degrees),
        margins: n,
    };
    let lent = Lengths {
        symbols: symbols.len(),
        costs: costs.len(),
        store: store.len(),
        margins: margins.len(),
    };
    validate_room(needed, lent)
}

/// "Start: P is the frame". Nothing changes where the two have other lengths.
pub fn copy(frame: &[u8], costs: &mut [u16])
    ensures { costs.new ≡ copied_to frame.now costs.old }
{
    if frame.len() != costs.len() {
        return;
    }
    // By index: of a zip over a slice that is written only the length is known.
    for (c, &cost) in frame.iter().enumerate() {
        costs[c] = u16::from(cost);
    }
}

/// "then 13 for a cost above 510, or a column without a 0, in the cost buffer's used part, then, if t is not 0, 16 for each stored record".
#[tactic(auto, using(crate::proofs::Resuming::records_taken), unfolding(crate::specs::Answers::resume_fault))]
pub fn validate_resumed(
    numbers: Numbers,
    t: u8,
    degrees: &[u8],
    costs: &[u16],
    store: &[u8],
) -> Result<(), Refusal>
    ensures { fault_in result ≡ resume_fault numbers degrees.now t costs.now store.now }
{
    let n = usize::from(numbers.columns);
    let q = rules::size(numbers.first);
    if !stored::costs_ok(costs, q, n) {
        return Err(Refusal::NoZeroCost);
    }
    let count = usize::from(numbers.checks).min(degrees.len());
    if !stored::records_ok(numbers.first, t, &degrees[..count], store) {
        return Err(Refusal::RecordForm);
    }
    Ok(())
}
