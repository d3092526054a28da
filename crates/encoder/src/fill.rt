//! The symbols after the message, one for each check, from the symbols before it.
ghost use Rattle.std.specs.Prelude.{◌≡◌, take};
ghost use Rattle.trellis.specs.Rules.{power_of};
ghost use Rattle.machine.specs.CodeLine.{power, check};
ghost use Rattle.machine.specs.Encoding.{own_symbol, encoded};
ghost use Rattle.machine.specs.inner.Tables.{term, EdgeRoom};
ghost use Rattle.codeline.specs.Codes.{lent_code};
ghost use Rattle.encoder.specs.inner.Rooms.{OwnRoom, FillRoom};

use codeline::code::Code;

// What one edge adds to its check's sum. Beside the decoder's: of the crates that read a code none below both has the product.
fn term_at(code: &Code<'_>, symbols: &[u8], edge: usize) -> u8
    requires { EdgeRoom (power_of code.now.numbers.first) code.now.columns.now code.now.weights.now symbols.now edge }
    ensures { result
        ≡ term (power_of code.now.numbers.first) code.now.columns.now code.now.weights.now symbols.now edge }
{
    let c = usize::from(code.columns[edge]);
    division::times(
        rules::power(code.numbers.first),
        code.weights[edge],
        symbols[c],
    )
}

// The symbol that satisfies check m, whose edges start at place `at` and whose last column is its own: the sum of h times x over the
// other edges, divided by the last weight. `word` holds the symbols before it.
fn own(code: &Code<'_>, m: usize, at: usize, word: &[u8]) -> u8
    requires { OwnRoom code.now m at word.now }
    ensures { result
        ≡ own_symbol (power (lent_code code.now)) (check (lent_code code.now) m) word.now }
{
    let d = usize::from(code.degrees[m]);
    let n = d - 1;
    let mut sum = 0;
    for edge in at..at + n {
        sum ^= term_at(code, word, edge);
    }
    division::divide(rules::power(code.numbers.first), code.weights[at + n], sum)
}

/// The symbols of all checks, after the `from` symbols of the message.
pub fn fill(code: &Code<'_>, from: usize, symbols: &mut [u8])
    requires { FillRoom code.now from symbols.old }
    ensures { symbols.new ≡ encoded (lent_code code.now) (take from symbols.old) }
{
    let mut at = 0;
    // By number: it names the symbol too, and the lent degrees go on behind those of the checks.
    for m in 0..usize::from(code.numbers.checks) {
        let e = from + m;
        symbols[e] = own(code, m, at, &symbols[..e]);
        at += usize::from(code.degrees[m]);
    }
}
