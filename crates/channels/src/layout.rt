//! How one channel's parts of the buffers lie: their lengths, under a code.
ghost use Rattle.std.specs.Prelude.{◌≡◌, ◌≤◌, ◌*◌};
ghost use Rattle.machine.specs.CodeLine.{size};
ghost use Rattle.machine.specs.Machine.{used};
ghost use Rattle.codeline.specs.Codes.{lent_code};

use codeline::code::Code;

/// A code, and the lengths of a channel's parts under it: N, N times q, and the M record lengths added up.
#[derive(Clone, Copy, Debug, PartialEq, Eq)]
pub struct Layout<'a> {
    pub code: Code<'a>,
    pub columns: usize,
    pub costs: usize,
    pub store: usize,
    ghost columns_is: { columns ≡ (lent_code code).columns },
    ghost costs_is: { costs ≡ (lent_code code).columns * size (lent_code code) },
    ghost store_is: { store ≡ used (lent_code code) },
    ghost limit_is_byte: { code.numbers.limit ≤ 255 },
}

/// The lengths of one channel's parts.
pub fn layout_of<'a>(code: &Code<'a>) -> Layout<'a>
    ensures { result.code ≡ code.now }
{
    let n = usize::from(code.numbers.columns);
    let q = rules::size(code.numbers.first);
    Layout {
        code: *code,
        columns: n,
        costs: n * q,
        store: frame::used(code.numbers, code.degrees),
    }
}
