//! A check in the tables and the store: where it stands, one update of it, and the check behind it.
ghost use Rattle.std.specs.Prelude.{◌≡◌, ◌+◌};
ghost use Rattle.machine.specs.Lent.{lent, update_lent};
ghost use Rattle.layered.specs.inner.Buffers.{SameScratch};
ghost use Rattle.codeline.specs.Codes.{lent_code};
ghost use Rattle.layered.specs.inner.Places.{Stands, Around, PlaceRoom};

use crate::buffers::Scratch;
use crate::update;
use codeline::code::Code;

/// The check's number, its first edge in the tables, its record's first byte in the store.
#[derive(Clone, Copy, Debug, PartialEq, Eq)]
pub struct Place {
    pub check: usize,
    pub edge: usize,
    pub byte: usize,
}

impl Place {
    /// Of the first check.
    pub const FIRST: Place = Place {
        check: 0,
        edge: 0,
        byte: 0,
    };
}

/// One update of the check that stands here; answers where the next one stands.
pub fn update_at(
    code: &Code<'_>,
    start: bool,
    here: Place,
    costs: &mut [u16],
    store: &mut [u8],
    room: &mut Scratch<'_>,
) -> Place
    requires { PlaceRoom code.now start here costs.old store.old room.old.arrived.now room.old.sent.now }
    ensures scratch { SameScratch room.old room.new }
    ensures buffers { lent costs.new store.new
        ≡ update_lent (lent_code code.now) start here.check (lent costs.old store.old) }
    ensures next { Stands code.now.numbers.first code.now.degrees.now (here.check + 1) result }
{
    let m = here.check;
    let at = here.edge;
    let b = here.byte;
    let q = rules::size(code.numbers.first);
    let groups = rules::groups(code.numbers.first);
    let d = usize::from(code.degrees[m]);
    let n = d * q;
    let e = at + d;
    let f = b + (d + groups);
    update::update(
        code.numbers,
        start,
        &code.columns[at..e],
        &code.weights[at..e],
        costs,
        &mut store[b..f],
        &mut room.arrived[..n],
        &mut room.sent[..n],
    );
    Place {
        check: m + 1,
        edge: e,
        byte: f,
    }
}

/// Behind the last of so many checks the first comes again.
pub fn around(here: Place, count: usize) -> Place
    ensures { Around count here result }
{
    if here.check == count {
        return Place::FIRST;
    }
    here
}
