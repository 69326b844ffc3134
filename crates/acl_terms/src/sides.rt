/// A side of a packet, of which a rule asks what a term asks of either side.
#[derive(Clone, Copy, PartialEq, Eq)]
pub enum Side {
    /// No side: the term asks nothing of either.
    Whole,
    Source,
    Destination,
}

/// The side of which the addresses of `address::` are asked, and the one of the ports of `port::`.
#[derive(Clone, Copy, PartialEq, Eq)]
pub struct SidePair {
    pub addresses: Side,
    pub ports: Side,
}
