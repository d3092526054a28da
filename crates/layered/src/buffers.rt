//! What a decoding works over. Made by a literal of slices that the caller has cut.
//
// Without `Clone`, `Copy`, `PartialEq` and `Eq`: a slice by `&mut` has none of these.

/// The buffers that a call is lent: for the decisions, the costs, the records and the margins.
#[derive(Debug, Drop)]
pub struct DecodeBuffers<'a> {
    pub symbols: &'a mut [u8],
    pub costs: &'a mut [u16],
    pub store: &'a mut [u8],
    pub margins: &'a mut [u16],
}

/// Room for a check's arriving and sent costs.
#[derive(Debug, Drop)]
pub struct Scratch<'a> {
    pub arrived: &'a mut [u8],
    pub sent: &'a mut [u8],
}
