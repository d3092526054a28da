//! Two frames under a code that is read: the refusals in their order, or the combined frame.
ghost use Rattle.std.specs.Prelude.{◌≡◌};
ghost use Rattle.refusal.specs.Replies.{reply_of, fault_in};
ghost use Rattle.machine.specs.CodeLine.{good};
ghost use Rattle.machine.specs.Combining.{combine_fault, combining_under};
ghost use Rattle.combiner.specs.inner.Columns.{headed};

use crate::columns;
use codeline::answers::Numbers;
use refusal::Refusal;

// "12 and 13 for the first frame. .. 23, second frame's length wrong or a column of it has no 0, after these; then 2".
fn validate(numbers: Numbers, first: &[u8], second: &[u8], room: usize) -> Result<(), Refusal>
    ensures { fault_in result
        ≡ combine_fault (headed numbers.first numbers.columns) first.now second.now room }
{
    frame::validate_frame(numbers, first)?;
    if frame::validate_frame(numbers, second).is_err() {
        return Err(Refusal::SecondFrame);
    }
    if room < first.len() {
        return Err(Refusal::OutputTooShort);
    }
    Ok(())
}

/// Nothing is written before the last refusal has been tested.
pub fn under_code(
    numbers: Numbers,
    first: &[u8],
    second: &[u8],
    out: &mut [u8],
) -> Result<usize, Refusal>
    ensures reply { reply_of result
        ≡ (combining_under (good (headed numbers.first numbers.columns))
        first.now second.now out.old).reply }
    ensures out_then { out.new
        ≡ (combining_under (good (headed numbers.first numbers.columns))
        first.now second.now out.old).out }
{
    validate(numbers, first, second, out.len())?;
    let w = first.len();
    let q = rules::size(numbers.first);
    let n = usize::from(numbers.columns);
    columns::combine_all(first, second, q, n, &mut out[..w]);
    Ok(w)
}
