ghost use Rattle.std.specs.Prelude.{◌≡◌, IfOk, OnOk};
ghost use Rattle.nft_lang.specs.ReadingSteps.{draft, no_rule, up_to, nfproto_in, next_in, with_test, with_verdict, with_address, with_ports, with_type, with_code, in_set, take_address, take_ports, take_type, take_code, take_as, take_word, rule_in};

use crate::documents::{Flags, Rule};
use acl_packet::{Families, Family, Prefix, Verdict};
use acl_rows::{End, RowWords};
use acl_text::{Items, Memory, read_ports, read_spelled_prefix, read_u8, split_at_byte};
use std::alloc::Global;

/// What the next word of a rule is.
#[derive(Clone, Copy)]
pub(crate) enum Next {
    Keyword,
    PacketFamily,
    Protocol,
    Addresses(End),
    Ports(End),
    Types,
    Codes,
}

/// Room for so many prefixes of each end.
#[derive(Clone, Copy)]
pub(crate) struct Rooms {
    pub(crate) src: usize,
    pub(crate) dst: usize,
}

impl Rooms {
    /// Room for none: what is read takes it as it comes.
    pub(crate) fn none() -> Rooms {
        Rooms { src: 0, dst: 0 }
    }
}

/// What has been read of a rule's words.
#[derive(Drop)]
struct RuleDraft {
    rule: Rule,
    next: Next,
}

/// The rule of the words, in a table of the families, whose sets have those rooms from the start. No words are refused: what
/// means nothing changes nothing.
#[tactic(auto, unfolding(crate::specs::ReadingSteps::rule_in))]
pub(crate) fn rule_of(
    alloc: Global,
    families: Families,
    words: RowWords<'_>,
    rooms: Rooms,
) -> Result<Rule, Memory>
    ensures { IfOk result (λ r. r ≡ rule_in families words.entry) }
{
    let mut draft = RuleDraft::new(alloc, families.first_family(), rooms)?;
    let mut rest = words;
    while let Some(word) = rest.next() {
        draft.take_word(word)?;
    }
    Ok(draft.rule)
}

impl RuleDraft {
    fn new(alloc: Global, family: Family, rooms: Rooms) -> Result<RuleDraft, Memory>
        ensures { IfOk result (λ d. d ≡ draft (no_rule family) Next.Keyword) }
    {
        let rule = Rule {
            family,
            proto: None,
            src: Items::with_capacity(alloc, rooms.src)?,
            dst: Items::with_capacity(alloc, rooms.dst)?,
            sports: Items::new(alloc),
            dports: Items::new(alloc),
            itypes: Items::new(alloc),
            icodes: Items::new(alloc),
            flags: None,
            state: false,
            log: false,
            verdict: Verdict::Deny,
        };
        Ok(RuleDraft {
            rule,
            next: Next::Keyword,
        })
    }

    #[tactic(auto, unfolding(crate::specs::ReadingSteps::take_as))]
    fn take_word(&mut self, word: &[u8]) -> Result<(), Memory>
        ensures { OnOk result (self.new ≡ take_word self.old word.now) }
    {
        match self.next {
            Next::Keyword => {
                self.take_keyword(word);
                Ok(())
            }
            Next::PacketFamily => {
                self.take_family(word);
                Ok(())
            }
            Next::Protocol => {
                self.take_protocol(word);
                Ok(())
            }
            Next::Addresses(end) => self.take_address(end, word),
            Next::Ports(end) => self.take_ports(end, word),
            Next::Types => self.take_type(word),
            Next::Codes => self.take_code(word),
        }
    }

    #[tactic(auto, unfolding(crate::specs::ReadingSteps::take_as))]
    fn take_keyword(&mut self, word: &[u8])
        ensures { self.new ≡ take_as self.old.rule Next.Keyword word.now }
    {
        self.take_test(word);
        self.take_verdict(word);
        self.next = next_of(word);
    }

    #[tactic(auto, unfolding(crate::specs::ReadingSteps::with_test))]
    fn take_test(&mut self, word: &[u8])
        ensures { self.new ≡ draft (with_test word.now self.old.rule) self.old.next }
    {
        if word == b"(syn".as_slice() {
            self.rule.flags = Some(Flags::SynNotAck);
        } else if word == b"rst".as_slice() {
            self.rule.flags = Some(Flags::Rst);
        } else if word == b"state".as_slice() {
            self.rule.state = true;
        } else if word == b"log".as_slice() {
            self.rule.log = true;
        }
    }

    #[tactic(auto, unfolding(crate::specs::ReadingSteps::with_verdict))]
    fn take_verdict(&mut self, word: &[u8])
        ensures { self.new ≡ draft (with_verdict word.now self.old.rule) self.old.next }
    {
        if word == b"accept".as_slice() {
            self.rule.verdict = Verdict::Accept;
        } else if word == b"drop".as_slice() {
            self.rule.verdict = Verdict::Deny;
        } else if word == b"reject".as_slice() {
            self.rule.verdict = Verdict::Reject;
        } else if word == b"reset".as_slice() {
            self.rule.verdict = Verdict::Reset;
        }
    }

    #[tactic(auto, unfolding(crate::specs::ReadingSteps::take_as))]
    fn take_family(&mut self, word: &[u8])
        ensures { self.new ≡ take_as self.old.rule Next.PacketFamily word.now }
    {
        self.rule.family = nfproto_of(word);
        self.next = Next::Keyword;
    }

    #[tactic(auto, unfolding(crate::specs::ReadingSteps::take_as))]
    fn take_protocol(&mut self, word: &[u8])
        ensures { self.new ≡ take_as self.old.rule Next.Protocol word.now }
    {
        self.rule.proto = read_u8(word, 255);
        self.next = Next::Keyword;
    }

    #[tactic(auto, unfolding(crate::specs::ReadingSteps::take_address))]
    fn take_address(&mut self, end: End, word: &[u8]) -> Result<(), Memory>
        ensures { OnOk result (self.new ≡ take_address self.old.rule end word.now) }
    {
        match read_spelled_prefix(self.rule.family, up_to(word, b',')) {
            Some(prefix) => self.push_address(end, prefix),
            None => {
                self.next = in_set(Next::Addresses(end), word);
                Ok(())
            }
        }
    }

    fn push_address(&mut self, end: End, prefix: Prefix) -> Result<(), Memory>
        ensures { OnOk result (self.new
            ≡ draft (with_address end prefix self.old.rule) (Next.Addresses end)) }
    {
        self.next = Next::Addresses(end);
        match end {
            End::Source => self.rule.src.push(prefix),
            End::Destination => self.rule.dst.push(prefix),
        }
    }

    #[tactic(auto, unfolding(crate::specs::ReadingSteps::take_ports))]
    fn take_ports(&mut self, end: End, word: &[u8]) -> Result<(), Memory>
        ensures { OnOk result (self.new ≡ take_ports self.old.rule end word.now) }
    {
        match read_ports(up_to(word, b','), b'-') {
            Some(ports) => self.push_ports(end, ports),
            None => {
                self.next = in_set(Next::Ports(end), word);
                Ok(())
            }
        }
    }

    fn push_ports(&mut self, end: End, ports: (u16, u16)) -> Result<(), Memory>
        ensures { OnOk result (self.new
            ≡ draft (with_ports end ports self.old.rule) (Next.Ports end)) }
    {
        self.next = Next::Ports(end);
        match end {
            End::Source => self.rule.sports.push(ports),
            End::Destination => self.rule.dports.push(ports),
        }
    }

    #[tactic(auto, unfolding(crate::specs::ReadingSteps::take_type))]
    fn take_type(&mut self, word: &[u8]) -> Result<(), Memory>
        ensures { OnOk result (self.new ≡ take_type self.old.rule word.now) }
    {
        match read_u8(up_to(word, b','), 254) {
            Some(number) => self.push_type(number),
            None => {
                self.next = in_set(Next::Types, word);
                Ok(())
            }
        }
    }

    fn push_type(&mut self, number: u8) -> Result<(), Memory>
        ensures { OnOk result (self.new ≡ draft (with_type number self.old.rule) Next.Types) }
    {
        self.next = Next::Types;
        self.rule.itypes.push(number)
    }

    #[tactic(auto, unfolding(crate::specs::ReadingSteps::take_code))]
    fn take_code(&mut self, word: &[u8]) -> Result<(), Memory>
        ensures { OnOk result (self.new ≡ take_code self.old.rule word.now) }
    {
        match read_u8(up_to(word, b','), 255) {
            Some(number) => self.push_code(number),
            None => {
                self.next = in_set(Next::Codes, word);
                Ok(())
            }
        }
    }

    fn push_code(&mut self, number: u8) -> Result<(), Memory>
        ensures { OnOk result (self.new ≡ draft (with_code number self.old.rule) Next.Codes) }
    {
        self.next = Next::Codes;
        self.rule.icodes.push(number)
    }
}

/// The word up to the byte that ends it, or all of it.
#[tactic(auto, unfolding(crate::specs::ReadingSteps::up_to))]
pub(crate) fn up_to(word: &[u8], end: u8) -> &[u8]
    ensures { result.now ≡ up_to end word.now }
{
    match split_at_byte(word, end) {
        Some((front, _)) => front,
        None => word,
    }
}

pub(crate) fn nfproto_of(word: &[u8]) -> Family
    ensures { result ≡ nfproto_in word.now }
{
    if word == b"ipv6".as_slice() {
        Family::V6
    } else {
        Family::V4
    }
}

#[tactic(auto, unfolding(crate::specs::ReadingSteps::next_in))]
pub(crate) fn next_of(word: &[u8]) -> Next
    ensures { result ≡ next_in word.now }
{
    if word == b"nfproto".as_slice() {
        Next::PacketFamily
    } else if word == b"l4proto".as_slice() {
        Next::Protocol
    } else if word == b"saddr".as_slice() {
        Next::Addresses(End::Source)
    } else if word == b"daddr".as_slice() {
        Next::Addresses(End::Destination)
    } else if word == b"sport".as_slice() {
        Next::Ports(End::Source)
    } else if word == b"dport".as_slice() {
        Next::Ports(End::Destination)
    } else if word == b"type".as_slice() {
        Next::Types
    } else if word == b"code".as_slice() {
        Next::Codes
    } else {
        Next::Keyword
    }
}

pub(crate) fn in_set(next: Next, word: &[u8]) -> Next
    ensures { result ≡ in_set next word.now }
{
    if word == b"}".as_slice() {
        Next::Keyword
    } else {
        next
    }
}
