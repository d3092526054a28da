//! A check that was tested.
ghost use Rattle.std.specs.Prelude.{ℕ, ◌<◌, get_or};
ghost use Rattle.trellis.specs.Ready.{Ready};

/// A check that none of its tests refuses: its first code byte, its d weights, and its d times q costs, column by column.
#[derive(Clone, Copy, Debug, PartialEq, Eq)]
pub struct Check<'a> {
    pub first: u8,
    pub weights: &'a [u8],
    pub costs: &'a [u8],
    ghost ready: { Ready first weights.now costs.now },
    ghost bytes: { (i : ℕ) → get_or costs.now i 0 < 256 },
}
