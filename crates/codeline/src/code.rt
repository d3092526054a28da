//! A code that was read: its numbers, and its tables, lent.
ghost use Rattle.codeline.specs.inner.Coding.{Coded};

use crate::answers::Numbers;

/// The numbers of an accepted line and the tables of its checks; what the tables hold behind these is anything.
// Columns and weights apart, as the call lends them.
#[derive(Clone, Copy, Debug, PartialEq, Eq)]
pub struct Code<'a> {
    pub numbers: Numbers,
    pub degrees: &'a [u8],
    pub columns: &'a [u16],
    pub weights: &'a [u8],
    ghost coded: { Coded numbers degrees.now columns.now weights.now },
}
