//! The numbers of a code line before its checks.
ghost use Rattle.std.specs.Prelude.{◌≡◌, ◌≤◌, OnOk, IfOk};
ghost use Rattle.trellis.specs.Sizes.{most_checks};
ghost use Rattle.codeline.specs.Answers.{header_numbers};
ghost use Rattle.codeline.specs.inner.Reading.{head_of};

use crate::answers::Numbers;
use crate::reader::Reader;
use refusal::Refusal;

/// "p", with k in the first byte; "N as two bytes, high first (1 to 256); M (1 to 128); scale g (1 to 16); iteration limit I (1 to 255)";
/// "5 if under six bytes, 6, 7, 8".
#[tactic(auto, unfolding(crate::specs::inner::Reading::head_of))]
pub fn head(line: &mut Reader<'_>) -> Result<Numbers, Refusal>
    requires { line.old.at ≡ 0 }
    ensures numbers { header_numbers result ≡ head_of line.old.src.now }
    ensures checks { IfOk result (λ k. k.checks ≤ most_checks) }
    ensures src { line.new.src ≡ line.old.src }
    ensures at { OnOk result (line.new.at ≡ 6) }
{
    if line.left() < 6 {
        return Err(Refusal::CodeLength);
    }
    let first = line.byte();
    if !rules::accepted(first) {
        return Err(Refusal::FirstByte);
    }
    // Compared, as the numbers below: over ranges the search for the proof ends at its limits.
    let columns = line.word();
    if columns == 0 || usize::from(columns) > sizes::MOST_SYMBOLS {
        return Err(Refusal::Counts);
    }
    let checks = line.byte();
    if checks == 0 || usize::from(checks) > sizes::MOST_CHECKS {
        return Err(Refusal::Counts);
    }
    let scale = line.byte();
    if scale == 0 || scale > 16 {
        return Err(Refusal::ScaleOrLimit);
    }
    let limit = line.byte();
    if limit == 0 {
        return Err(Refusal::ScaleOrLimit);
    }
    Ok(Numbers {
        first,
        columns,
        checks,
        scale,
        limit,
    })
}
