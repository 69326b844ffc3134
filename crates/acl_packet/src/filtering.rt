/// Where in a host a filter stands.
#[derive(Clone, Copy, PartialEq, Eq)]
pub enum Hook {
    Input,
    Output,
    Forward,
}

/// What a filter decides on a packet. `Left` is no decision: the packet is left to what stands behind.
#[derive(Clone, Copy, Debug, PartialEq, Eq)]
pub enum Verdict {
    Accept,
    Deny,
    Reject,
    Reset,
    Left,
}

/// A verdict, and whether the packet is logged.
#[derive(Clone, Copy, PartialEq, Eq)]
pub struct Outcome {
    pub verdict: Verdict,
    pub logged: bool,
}

impl Outcome {
    ghost use Rattle.std.specs.Prelude.{◌≡◌};
    ghost use Rattle.acl_packet.specs.Outcomes.{unlogged};

    /// The verdict on a packet that is not logged.
    pub fn unlogged(verdict: Verdict) -> Outcome
        ensures { result ≡ unlogged verdict }
    {
        Outcome {
            verdict,
            logged: false,
        }
    }
}
