//! The checks of a code line in tables: the degrees, and all columns and weights end to end.
ghost use Rattle.std.specs.Prelude.{◌≡◌, [], ◌∷◌, ◌++◌, ◌+◌, ◌<◌, ◌≤◌, take, drop};
ghost use Rattle.trellis.specs.Sizes.{most_edges, most_checks};

use crate::answers::Numbers;

/// An edge's column and weight.
#[derive(Clone, Copy, Debug, PartialEq, Eq)]
pub struct Edge {
    pub column: u16,
    pub weight: u8,
}

/// Room for the largest code, and how many of the edges that were put count. Behind these the tables hold anything.
// Columns and weights apart, as the call lends them; a count beside them, since there is no heap for a list that grows.
#[derive(Clone, Copy, Debug, PartialEq, Eq)]
pub struct Tables {
    pub degrees: [u8; sizes::MOST_CHECKS],
    pub columns: [u16; sizes::MOST_EDGES],
    pub weights: [u8; sizes::MOST_EDGES],
    pub edges: usize,
    ghost room: { edges ≤ most_edges },
}

impl Tables {
    ghost use Rattle.codeline.specs.inner.Reading.{put_columns, put_weights};

    pub fn new() -> Tables
        ensures { result.edges ≡ 0 }
    {
        Tables {
            degrees: [0; sizes::MOST_CHECKS],
            columns: [0; sizes::MOST_EDGES],
            weights: [0; sizes::MOST_EDGES],
            edges: 0,
        }
    }

    /// One edge at a place. Who puts edges sets the count behind the last: with a count in each turn, a turn would wait for the one before.
    pub fn put(&mut self, at: usize, edge: Edge)
        requires { at < most_edges }
        ensures columns { take (at + 1) self.new.columns ≡ take at self.old.columns ++ (edge.column ∷ []) }
        ensures weights { take (at + 1) self.new.weights ≡ take at self.old.weights ++ (edge.weight ∷ []) }
        ensures edges { self.new.edges ≡ self.old.edges }
        ensures degrees { self.new.degrees ≡ self.old.degrees }
    {
        self.columns[at] = edge.column;
        self.weights[at] = edge.weight;
    }

    /// What was read of an accepted line, in front of what the lent tables hold: three, as the public call takes them.
    pub fn hand_over(
        &self,
        numbers: Numbers,
        degrees: &mut [u8; sizes::MOST_CHECKS],
        columns: &mut [u16; sizes::MOST_EDGES],
        weights: &mut [u8; sizes::MOST_EDGES],
    )
        requires { numbers.checks ≤ most_checks }
        ensures degrees_then { degrees.new ≡ take numbers.checks self.now.degrees ++ drop numbers.checks degrees.old }
        ensures columns_then { columns.new ≡ put_columns self.now ++ drop self.now.edges columns.old }
        ensures weights_then { weights.new ≡ put_weights self.now ++ drop self.now.edges weights.old }
    {
        let m = usize::from(numbers.checks);
        slices::copy(&self.degrees[..m], &mut degrees[..m]);
        slices::copy(&self.columns[..self.edges], &mut columns[..self.edges]);
        slices::copy(&self.weights[..self.edges], &mut weights[..self.edges]);
    }
}
