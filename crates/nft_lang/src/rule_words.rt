ghost use Rattle.std.specs.Prelude.{◌≡◌, ◌∷◌, [], codes};
ghost use Rattle.nft_lang.specs.Texts.{ending_words, family_words, flags_words, icmp_word, proto_words, state_words, verdict_words};

use crate::documents::Flags;
use acl_packet::{Families, Family, Verdict};
use acl_rows::{LogWord, Number, OneWord, Words};
use acl_text::{Out, PutFault};

/// The words that ask for a family, in a table of both.
#[derive(Drop)]
pub struct PacketFamily {
    pub families: Families,
    pub family: Family,
}

impl Words for PacketFamily {
    ghost words = { λ p. family_words p.families p.family };

    #[tactic(auto, unfolding(crate::specs::Texts::family_words))]
    #[inline]
    fn put_spaced<O: Out>(&self, out: &mut O) -> Result<(), PutFault> {
        match self.families {
            Families::Mixed => match self.family {
                Family::V4 => out.put(b" meta nfproto ipv4"),
                Family::V6 => out.put(b" meta nfproto ipv6"),
            },
            Families::Inet | Families::Inet6 => Ok(()),
        }
    }
}

/// The words that ask for a protocol, where one is asked for.
#[derive(Drop)]
pub struct Protocol {
    pub number: Option<u8>,
}

impl Words for Protocol {
    ghost words = { λ p. proto_words p.number };

    #[tactic(auto, unfolding(crate::specs::Texts::proto_words))]
    #[inline]
    fn put_spaced<O: Out>(&self, out: &mut O) -> Result<(), PutFault> {
        match self.number {
            None => Ok(()),
            Some(number) => {
                let number = u128::from(number);
                let number = OneWord {
                    piece: Number { number },
                };
                (ProtocolKey, number).put_spaced(out)
            }
        }
    }
}

// The words in front of the number of a protocol.
#[derive(Drop)]
struct ProtocolKey;

impl Words for ProtocolKey {
    ghost words = { λ k. codes "meta" ∷ codes "l4proto" ∷ [] };

    #[inline]
    fn put_spaced<O: Out>(&self, out: &mut O) -> Result<(), PutFault> {
        out.put(b" meta l4proto")
    }
}

/// The word in front of a family's types and codes of ICMP.
pub fn icmp_word(family: Family) -> &'static [u8]
    ensures { result.now ≡ icmp_word family }
{
    match family {
        Family::V4 => b"icmp",
        Family::V6 => b"icmpv6",
    }
}

/// The words that ask for flags of TCP, where some are asked for.
#[derive(Drop)]
pub struct FlagTest {
    pub flags: Option<Flags>,
}

impl Words for FlagTest {
    ghost words = { λ t. flags_words t.flags };

    #[tactic(auto, unfolding(crate::specs::Texts::flags_words))]
    fn put_spaced<O: Out>(&self, out: &mut O) -> Result<(), PutFault> {
        match self.flags {
            None => Ok(()),
            Some(Flags::Rst) => out.put(b" tcp flags & rst == rst"),
            Some(Flags::SynNotAck) => out.put(b" tcp flags & (syn | ack) == syn"),
        }
    }
}

/// The words that end a rule: whether known connections are asked for, the log, and the verdict.
#[derive(Drop)]
pub struct RuleEnding {
    pub state: bool,
    pub log: bool,
    pub verdict: Verdict,
}

impl Words for RuleEnding {
    ghost words = { λ e. ending_words e.state e.log e.verdict };

    #[tactic(auto, unfolding(crate::specs::Texts::ending_words))]
    #[inline]
    fn put_spaced<O: Out>(&self, out: &mut O) -> Result<(), PutFault> {
        let state = StateWords { state: self.state };
        let log = LogWord { log: self.log };
        let decision = VerdictWords {
            verdict: self.verdict,
        };
        (state, (log, decision)).put_spaced(out)
    }
}

#[derive(Drop)]
struct StateWords {
    state: bool,
}

impl Words for StateWords {
    ghost words = { λ s. state_words s.state };

    #[tactic(auto, unfolding(crate::specs::Texts::state_words))]
    fn put_spaced<O: Out>(&self, out: &mut O) -> Result<(), PutFault> {
        if self.state {
            out.put(b" ct state { established, related }")
        } else {
            Ok(())
        }
    }
}

#[derive(Drop)]
struct VerdictWords {
    verdict: Verdict,
}

impl Words for VerdictWords {
    ghost words = { λ d. verdict_words d.verdict };

    #[tactic(auto, unfolding(crate::specs::Texts::verdict_words))]
    #[inline]
    fn put_spaced<O: Out>(&self, out: &mut O) -> Result<(), PutFault> {
        match self.verdict {
            Verdict::Accept => out.put(b" accept"),
            Verdict::Deny | Verdict::Left => out.put(b" drop"),
            Verdict::Reject => out.put(b" reject"),
            Verdict::Reset => out.put(b" reject with tcp reset"),
        }
    }
}
