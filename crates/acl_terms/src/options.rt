/// What an option asks of a packet, beside its numbers.
#[derive(Clone, Copy, PartialEq, Eq)]
pub enum Opt {
    /// Nothing: no option is written.
    Plain,
    Established,
    TcpEstablished,
    TcpInitial,
    Rst,
}

/// Whether a target knows the connections of packets.
#[derive(Clone, Copy, PartialEq, Eq)]
pub enum Mode {
    Stateful,
    Stateless,
}
