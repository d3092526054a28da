//! What a decision is.

/// The symbol and its margin. Total, as the definition: where no cost is 0 the symbol is how many there are.
#[derive(Clone, Copy, Debug, PartialEq, Eq)]
pub struct Decision {
    pub symbol: usize,
    pub margin: u16,
}
