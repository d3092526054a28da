//! The form of a code line that encoding needs, refusal 17.
ghost use Rattle.std.specs.Prelude.{◌≡◌};
ghost use Rattle.machine.specs.Encoding.{encodable};
ghost use Rattle.codeline.specs.Codes.{lent_code};

use codeline::code::Code;

/// "N exceeds M and check m, counted from 0, contains column N - M + m and no higher one": columns rise, so it is the last.
pub fn formed(code: &Code<'_>) -> bool
    ensures { result ≡ encodable (lent_code code.now) }
{
    let n = usize::from(code.numbers.columns);
    let count = usize::from(code.numbers.checks);
    if n <= count {
        return false;
    }
    let from = n - count;
    let mut at = 0;
    // By number: it names the symbol too, and the lent degrees go on behind those of the checks.
    for m in 0..count {
        let d = usize::from(code.degrees[m]);
        if usize::from(code.columns[at + (d - 1)]) != from + m {
            return false;
        }
        at += d;
    }
    true
}
