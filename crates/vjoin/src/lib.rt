//! Rests compared and two tables of them joined, sixteen rows in a vector.
#![tactic(auto)]

mod lanes;
mod parts;
mod tables;

pub use crate::lanes::better;
pub use crate::tables::join;
