//! The whole call: its refusals, the code line read once, and the service. The buffers come as the call lends them, one by one.
ghost use Rattle.std.specs.Prelude.{◌≡◌, ◌≤◌, ◌-◌, Err};
ghost use Rattle.trellis.specs.Sizes.{most_channels};
ghost use Rattle.refusal.specs.Replies.{fault_in};
ghost use Rattle.machine.specs.CodeLine.{good};
ghost use Rattle.machine.specs.Decoding.{lending};
ghost use Rattle.channels.specs.Channels.{under, channels};
ghost use Rattle.channels.specs.inner.Standing.{standing_of, ChannelLoans};
ghost use Rattle.channels.specs.inner.Served.{served_by, GivesBy};
ghost use Rattle.channels.specs.inner.Layouts.{code_for, count_fault, fault_for, run_at, ServiceRoom};

use crate::answers::Served;
use crate::layout::{self, Layout};
use crate::standing::{Channel, Channels, Status};
use codeline::code::Code;
use frame::Lengths;
use refusal::Refusal;

/// A refusal of the whole call.
pub fn refused(refusal: Refusal) -> Served
    ensures { result ≡ served_by (Err refusal) }
{
    Served {
        number: u8::from(refusal),
        spent: 0,
        status: [0; sizes::MOST_CHANNELS],
        iterations: [0; sizes::MOST_CHANNELS],
    }
}

// "21, channel count not 1 to 8, before all; 22, A is 0, after 21".
#[tactic(auto, unfolding(crate::specs::inner::Layouts::count_fault))]
fn validate_count(count: u8, allowance: u32) -> Result<(), Refusal>
    ensures { fault_in result ≡ count_fault count allowance }
{
    if !(1..=sizes::MOST_CHANNELS).contains(&usize::from(count)) {
        return Err(Refusal::ChannelCount);
    }
    if allowance == 0 {
        return Err(Refusal::Allowance);
    }
    Ok(())
}

// 12, 2, 3, 4 and 19 for the whole call, "each length being the count times one channel's".
#[tactic(auto, unfolding(crate::specs::inner::Layouts::fault_for, frame::specs::Answers::room_fault_of))]
fn validate_lengths(
    count: usize,
    layout: &Layout<'_>,
    frames: usize,
    lent: Lengths,
) -> Result<(), Refusal>
    requires { count ≤ most_channels }
    ensures { fault_in result
        ≡ fault_for count layout.now frames lent.symbols lent.costs lent.store lent.margins }
{
    let needed = Lengths {
        symbols: count * layout.columns,
        costs: count * layout.costs,
        store: count * layout.store,
        margins: count * layout.columns,
    };
    if frames != needed.costs {
        return Err(Refusal::CostCount);
    }
    frame::validate_room(needed, lent)
}

impl Channels<'_> {
    // What is answered where the channels stand, when so much is spent of the allowance.
    fn served(&self, spent: u16) -> Served
        ensures number { result.number ≡ 0 }
        ensures spent { result.spent ≡ spent }
        ensures status { result.status ≡ (standing_of self.now).status }
        ensures iterations { result.iterations ≡ (standing_of self.now).counts }
    {
        let mut status = [0; sizes::MOST_CHANNELS];
        let mut iterations = [0; sizes::MOST_CHANNELS];
        // By index: of a zip over a slice that is written only the length is known.
        for (i, channel) in self.each.iter().enumerate() {
            status[i] = u8::from(channel.status);
            iterations[i] = channel.iterations;
        }
        Served {
            number: 0,
            spent,
            status,
            iterations,
        }
    }

    // All channels are loaded, then served.
    fn run(&mut self, count: usize, layout: &Layout<'_>, frames: &[u8]) -> Served
        requires { ServiceRoom count layout.now frames.now (standing_of self.old) }
        ensures loans { ChannelLoans self.old self.new }
        ensures then { standing_of self.new
            ≡ run_at (code_for layout.now) frames.now count (standing_of self.old) }
        ensures number { result.number ≡ 0 }
        ensures spent { result.spent ≡ self.old.left - self.new.left }
        ensures status { result.status ≡ (standing_of self.new).status }
        ensures iterations { result.iterations ≡ (standing_of self.new).counts }
    {
        let mut arrived = [0u8; sizes::MOST_EXPANSION];
        let mut sent = [0u8; sizes::MOST_EXPANSION];
        let allowance = self.left;
        self.load(count, layout, frames);
        self.serve(count, layout, &mut arrived, &mut sent);
        // By as: at most 8 times 255.
        let spent = (allowance - self.left) as u16;
        self.served(spent)
    }
}

// Under a code that is read. The four slices go into one struct here, and nothing else touches them: so the check knows what they hold
// afterwards. Nothing is written before the last refusal of the whole call has been tested.
fn under_code(
    count: usize,
    allowance: u32,
    layout: &Layout<'_>,
    frames: &[u8],
    symbols: &mut [u8],
    costs: &mut [u16],
    store: &mut [u8],
    margins: &mut [u16],
) -> Result<Served, Refusal>
    requires low { 1 ≤ count }
    requires high { count ≤ most_channels }
    ensures { GivesBy
        (under (good (code_for layout.now)) count allowance
        frames.now (lending symbols.old costs.old store.old margins.old)) (served_by result)
        (lending symbols.new costs.new store.new margins.new) }
{
    let lent = Lengths {
        symbols: symbols.len(),
        costs: costs.len(),
        store: store.len(),
        margins: margins.len(),
    };
    validate_lengths(count, layout, frames.len(), lent)?;
    let absent = Channel {
        status: Status::Absent,
        iterations: 0,
    };
    let mut channels = Channels {
        each: [absent; sizes::MOST_CHANNELS],
        left: allowance,
        symbols,
        costs,
        store,
        margins,
    };
    Ok(channels.run(count, layout, frames))
}

/// The whole call.
pub fn decode(
    count: u8,
    allowance: u32,
    code: &[u8],
    frames: &[u8],
    symbols: &mut [u8],
    costs: &mut [u16],
    store: &mut [u8],
    margins: &mut [u16],
) -> Result<Served, Refusal>
    ensures { GivesBy
        (channels count allowance code.now frames.now
        (lending symbols.old costs.old store.old margins.old)) (served_by result)
        (lending symbols.new costs.new store.new margins.new) }
{
    validate_count(count, allowance)?;
    // The tables are the call's own: a function that read them could not lend them out.
    let mut degrees = [0u8; sizes::MOST_CHECKS];
    let mut columns = [0u16; sizes::MOST_EDGES];
    let mut weights = [0u8; sizes::MOST_EDGES];
    let numbers = codeline::code_tables(code, &mut degrees, &mut columns, &mut weights)?;
    let accepted = Code {
        numbers,
        degrees: &degrees,
        columns: &columns,
        weights: &weights,
    };
    let layout = layout::layout_of(&accepted);
    under_code(
        usize::from(count),
        allowance,
        &layout,
        frames,
        symbols,
        costs,
        store,
        margins,
    )
}
