//! The most that an accepted code has of each thing, and the lengths that serve the largest code. What include/petsivola.h has too bears its
//! name there, after PETSIVOLA_.
#![tactic(auto)]

pub const MOST_CHECKS: usize = 128;

pub const MOST_EDGES: usize = 1024;

/// Edges of one check.
pub const MOST_DEGREE: usize = 32;

/// Symbols of the largest field: q.
pub const MOST_SIZE: usize = 64;

/// d times q: the costs of a check, and what is sent to its columns.
pub const MOST_EXPANSION: usize = MOST_DEGREE * MOST_SIZE;

/// k: deviations from the hard decisions.
pub const MOST_DEVIATIONS: usize = 3;

/// Rows of a small table, which serves fields of up to sixteen symbols, and the costs of a check over such a field.
pub const SMALL_SIZE: usize = 16;

pub const SMALL_EXPANSION: usize = MOST_DEGREE * SMALL_SIZE;

/// N.
pub const MOST_SYMBOLS: usize = 256;

pub const MOST_MARGINS: usize = MOST_SYMBOLS;

/// N times q.
pub const MOST_COSTS: usize = MOST_SYMBOLS * MOST_SIZE;

/// For each check q - 1 groups of seven bytes, for each edge a shift.
pub const MOST_STORE: usize = MOST_CHECKS * (MOST_SIZE - 1) * 7 + MOST_EDGES;

pub const MOST_CHANNELS: usize = 8;

/// Digits of a line, and the bytes that they make; one byte more is enough to refuse the line.
pub const MOST_LINE: usize = 32768;

pub const MOST_LINE_BYTES: usize = MOST_LINE / 2;

pub const LINE_ROOM: usize = MOST_LINE + 1;

/// Two digits for each symbol, four for status and t, and the end of the line.
pub const MOST_PRINTED: usize = MOST_SYMBOLS * 2 + 5;

/// Bytes that the program reads at once, and what it prints for them: a line of five bytes for each, and the rest of the longest line.
pub const MOST_BLOCK: usize = 65536;

pub const MOST_BLOCK_PRINTED: usize = MOST_BLOCK * 5 + MOST_SYMBOLS * 2;
